//! The states, each with its rules in one file; states of one form stand in one.

mod calendar;
mod color;
mod line;
mod local;
mod number;
mod plain;
mod range;
mod url;
