//! Worked acts: what commands make of a page, and what they answer, over pages that are written as
//! text. It has tests alone, and nothing stands on it.
#![tactic(auto)]

#[cfg(test)]
mod attributes;
#[cfg(test)]
mod clicks;
#[cfg(test)]
mod marks;
#[cfg(test)]
mod playing;
#[cfg(test)]
mod resets;
#[cfg(test)]
mod texts;
#[cfg(test)]
mod types;
