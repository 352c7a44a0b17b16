//! Worked trees: what the crates over a tree answer of trees, owners and selects of pages that are
//! written as text. It has tests alone, and nothing stands on it.
#![tactic(auto)]

#[cfg(test)]
mod owners;
#[cfg(test)]
mod pages;
#[cfg(test)]
mod selects;
#[cfg(test)]
mod trees;
