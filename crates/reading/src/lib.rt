// From the bytes of a line to what it asks.
#![tactic(auto)]

pub mod lines;
mod words;

pub use lines::read_line;
