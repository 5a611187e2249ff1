// What a supply is told: on or off, the loop, and the demand.
// The demand lies inside the rated span of the loop, and is zero while off: that comes with the value.
// It is no Option: a module has a demand on and off, and it is zero while off.
ghost use Rattle.std.specs.Prelude.{◌≡◌, false, pos, ◌≤ℤ◌};
ghost use Rattle.power.specs.Meaning.{low, high};
ghost use Rattle.power.specs.Rated.{standard_ratings};

use crate::loops::Loop;
use grammar::Quantity;

#[derive(Clone, Copy)]
pub struct Setting {
    pub on: bool,
    pub chosen: Loop,
    pub demand: Quantity,
    pub ghost idle: { on ≡ false → demand.millionths ≡ pos 0 },
    pub ghost above: { low standard_ratings chosen ≤ℤ demand.millionths },
    pub ghost below: { demand.millionths ≤ℤ high standard_ratings chosen },
}
