//! Worked streams: what sources and sinks give and take, what a generated page says, and what the words
//! and the bytes that come in are read as. It has tests alone, and nothing stands on it.
#![tactic(auto)]

#[cfg(test)]
mod generator;
#[cfg(test)]
mod inputs;
#[cfg(test)]
mod numbers;
#[cfg(test)]
mod ports;
