//! Worked rules: which texts are patterns and what they match, how entries are encoded, and what is left
//! of radio button groups. It has tests alone, and nothing stands on it.
#![tactic(auto)]

#[cfg(test)]
mod encodings;
#[cfg(test)]
mod groups;
#[cfg(test)]
mod matching;
#[cfg(test)]
mod patterns;
