// Ramps, interlocks, trips and the status register: arithmetic on plain values.
#![tactic(auto)]

pub mod heat;
pub mod ramp;
pub mod status;
pub mod trips;

pub use heat::hottest;
pub use ramp::{Ramp, demand_after};
pub use status::Status;
pub use trips::{Causes, Interlocks};
