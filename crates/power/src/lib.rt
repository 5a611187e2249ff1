// Power modules by what they mean: the trait, a magnet model and a recording.
#![tactic(auto)]

pub mod loops;
pub mod magnet;
pub mod modules;
pub mod operation;
pub mod plant;
mod ratings;
pub mod recording;
pub mod setting;
pub mod supply;

pub use loops::Loop;
pub use magnet::{Coil, Magnet};
pub use modules::{PowerModule, Refused};
pub use operation::{rest, start};
pub use plant::Plant;
pub use recording::{Record, Recording, Tape};
pub use setting::Setting;
pub use supply::Supply;

#[cfg(test)]
mod tests;
