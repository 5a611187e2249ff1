// What the magnet model does.
ghost use Rattle.std.specs.Prelude.{◌≡◌, pos, int_div};
ghost use Rattle.std.proofs.Common.{rules};
ghost use Rattle.power.specs.Magnets.{magnet_meaning, magnet_start, goal, goal_from, moved, heat, readings_at, coil_readings, moved_by, Approaches};
ghost use Rattle.power.specs.Meaning.{advanced};

use super::{Coil, Current, Magnet};
use crate::loops::Loop;
use crate::modules::PowerModule;
use crate::plant::Plant;
use crate::setting::Setting;
use crate::supply::Supply;
use grammar::Quantity;

// The line that is up while the magnet is too hot, and the temperature above which it is.
const HEAT_LINE: u32 = 1 << 20;

const HOTTEST: u64 = 80_000_000;

impl Magnet {
    // Off, in loop I, at demand 0 and current 0.
    pub fn new() -> Magnet
        ensures value { magnet_meaning result ≡ magnet_start }
    {
        Supply::with_plant(Coil {
            current: Current { millionths: 0 },
        })
    }

    // So many milliseconds. The recording has such a function too.
    // The two have contracts of their own, so one function for both would be no plainer.
    pub fn advance_by(&mut self, n: u32)
        ensures after { magnet_meaning self.new ≡ advanced (magnet_meaning self.old) (readings_at (moved_by n (goal (magnet_meaning self.old)) self.old.plant.current.millionths)) }
        ensures run { Approaches (goal (magnet_meaning self.old)) self.old.plant.current.millionths }
    {
        for _ in 0..n {
            self.advance();
        }
    }
}

impl Current {
    // The current to which a magnet moves at this setting: 0 while off, since the demand is then 0.
    fn goal(setting: Setting) -> Current
        ensures value { result.millionths ≡ goal_from setting.on setting.chosen setting.demand.millionths }
    {
        let demand = setting.demand.millionths();
        let millionths = match setting.chosen {
            Loop::I => demand,
            Loop::V => demand / 2,
        };
        Current { millionths }
    }

    // A sixteenth of the way to the goal.
    fn towards(self, goal: Current) -> Current
        ensures value { result.millionths ≡ moved goal.millionths self.millionths }
    {
        Current {
            millionths: self.millionths + sixteenth(goal.millionths - self.millionths),
        }
    }

    // The temperature of the coil at this current, in millionths of a degree Celsius.
    fn temperature(self) -> u64
        ensures value { result ≡ heat self.millionths }
    {
        25_000_000 + 3 * self.millionths.unsigned_abs()
    }
}

// Rounded to zero. The proof of `towards` does not close with this division inside it: grind stops at its limit.
fn sixteenth(difference: i64) -> i64
    ensures value { result ≡ int_div difference (pos 16) }
{
    difference / 16
}

impl Plant for Coil {
    const SENSORS: u8 = 1;

    ghost SENSORS = { 1 };

    ghost readings = { coil_readings };

    ghost steps = { λ setting a b. b.current.millionths ≡ moved (goal_from setting.on setting.chosen setting.demand.millionths) a.current.millionths };

    ghost counted = { Prim.search rules };

    ghost sound = { Prim.search rules };

    fn advance(&mut self, setting: Setting) {
        self.current = self.current.towards(Current::goal(setting));
    }

    fn lines(&self) -> u32 {
        if self.current.temperature() > HOTTEST {
            HEAT_LINE
        } else {
            0
        }
    }

    fn current(&self) -> Quantity {
        Quantity::clamped(self.current.millionths)
    }

    fn voltage(&self) -> Quantity {
        Quantity::clamped(2 * self.current.millionths)
    }

    fn temperature(&self, sensor: u8) -> Quantity {
        if sensor == 1 {
            Quantity::clamped(self.current.temperature() as i64)
        } else {
            Quantity::clamped(0)
        }
    }
}
