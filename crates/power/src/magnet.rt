// A magnet and its supply, as a model that computes its readings.
// Its current stays within 20 A: that comes with the value.
ghost use Rattle.std.specs.Prelude.{pos, negsuc, ◌≤ℤ◌};

use crate::supply::Supply;

pub type Magnet = Supply<Coil>;

// The coil of a magnet, known by its current.
#[derive(Drop)]
pub struct Coil {
    current: Current,
}

// A current within 20 A either way.
#[derive(Clone, Copy)]
struct Current {
    millionths: i64,
    ghost least: { negsuc 19999999 ≤ℤ millionths },
    ghost most: { millionths ≤ℤ pos 20000000 },
}

mod methods;
