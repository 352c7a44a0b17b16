//! Worked texts: what the calls on texts, decimals, days and times, the type table and the states of
//! an input answer, a row a call. It has tests alone, and nothing stands on it.
#![tactic(auto)]

#[cfg(test)]
mod calendar;
#[cfg(test)]
mod decimals;
#[cfg(test)]
mod rows;
#[cfg(test)]
mod states;
#[cfg(test)]
mod texts;
#[cfg(test)]
mod types;
