//! Worked pages: what pages that are written as text are read into, what is seen of them, what changes,
//! and their entry lists. It has tests alone, and nothing stands on it.
#![tactic(auto)]

#[cfg(test)]
mod edits;
#[cfg(test)]
mod lists;
#[cfg(test)]
mod markup;
#[cfg(test)]
mod seen;
#[cfg(test)]
mod views;
