//! Worked inputs: what spells a command and what does not, which pages are refused, and where a script
//! begins, through whole runs. It has tests alone, and nothing stands on it.
#![tactic(auto)]

#[cfg(test)]
mod inputs;
#[cfg(test)]
mod setting;
#[cfg(test)]
mod spelling;
