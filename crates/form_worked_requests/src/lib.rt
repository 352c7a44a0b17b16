//! Worked submissions: what the submission of a form comes to on pages that are written as text, and the
//! requests as they are written; and real files. It has tests alone, and nothing stands on it.
#![tactic(auto)]

#[cfg(test)]
mod files;
#[cfg(test)]
mod outcomes;
#[cfg(test)]
mod pages;
#[cfg(test)]
mod real;
#[cfg(test)]
mod shown;
#[cfg(test)]
mod uploads;
