// A ramp: the demand on its way from a start to a target.
// Its sum never passes what the whole way takes: that comes with the value, so that no number of ticks wraps it.
ghost use Rattle.std.specs.Prelude.{◌*◌, ◌≤◌, ◌-ℤ◌, unsigned_abs};

use grammar::Quantity;

// `sum` adds up the rates of the ticks, in millionths per second; a thousand ticks are a second.
#[derive(Clone, Copy)]
pub struct Ramp {
    start: Quantity,
    target: Quantity,
    sum: u64,
    ghost bounded: { sum ≤ 1000 * unsigned_abs (target.millionths -ℤ start.millionths) },
}

mod methods;

pub use methods::demand_after;
