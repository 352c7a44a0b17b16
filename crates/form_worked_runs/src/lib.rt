//! Worked runs: whole transcripts of pages and scripts, worked out by hand. It has tests alone, and
//! nothing stands on it.
#![tactic(auto)]

#[cfg(test)]
mod endings;
#[cfg(test)]
mod failing;
#[cfg(test)]
mod generated;
#[cfg(test)]
mod pieces;
#[cfg(test)]
mod rows;
#[cfg(test)]
mod setting;
#[cfg(test)]
mod uploads;
