// What any power module means, whatever it is made of.
ghost use Rattle.std.specs.Prelude.{◌≡◌, ℕ, is_ok};
ghost use Rattle.power.specs.Meaning.{Meaning, Counted, Lawful, switched_on, switched_off, may_choose, chosen, applies, applied, advanced, temperature_at, low, high};

use crate::loops::Loop;
use grammar::{Quantity, Span};

// A call that the module refused, and that changed nothing.
#[derive(Clone, Copy, PartialEq, Eq, Debug)]
pub struct Refused;

// A power module by its meaning: on or off, loop, demand, readings and ratings.
// A question answers its part and changes nothing; every other call changes what it says, and nothing else.
pub trait PowerModule {
    // How many temperature sensors the module has, 1 to 8.
    const SENSORS: u8;

    ghost SENSORS: { ℕ };

    ghost meaning: { Self → Meaning };

    fn switch_on(&mut self)
        ensures after { meaning self.new ≡ switched_on (meaning self.old) };

    // Off, and the demand zero.
    fn switch_off(&mut self)
        ensures after { meaning self.new ≡ switched_off (meaning self.old) };

    // Refused exactly while on.
    fn choose_loop(&mut self, choice: Loop) -> Result<(), Refused>
        ensures cases { is_ok result ≡ may_choose (meaning self.old) }
        ensures after { meaning self.new ≡ chosen (meaning self.old) choice };

    // Refused exactly when off or outside the rated span of the present loop.
    fn apply(&mut self, demand: Quantity) -> Result<(), Refused>
        ensures cases { is_ok result ≡ applies (meaning self.old) demand.millionths }
        ensures after { meaning self.new ≡ applied (meaning self.old) demand.millionths };

    // One millisecond: the readings become others, and the rest stays.
    fn advance(&mut self)
        ensures after { meaning self.new ≡ advanced (meaning self.old) (meaning self.new).readings };

    fn is_on(&self) -> bool
        ensures value { result ≡ (meaning self.now).on };

    fn present_loop(&self) -> Loop
        ensures value { result ≡ (meaning self.now).loop };

    fn demand(&self) -> Quantity
        ensures value { result.millionths ≡ (meaning self.now).demand };

    // The trip lines that are up now, as bits of the status register.
    fn live_lines(&self) -> u32
        ensures value { result ≡ (meaning self.now).readings.lines };

    fn current(&self) -> Quantity
        ensures value { result.millionths ≡ (meaning self.now).readings.current };

    fn voltage(&self) -> Quantity
        ensures value { result.millionths ≡ (meaning self.now).readings.voltage };

    // Sensors count from 1; any other reads 0.
    fn temperature(&self, sensor: u8) -> Quantity
        ensures value { result.millionths ≡ temperature_at (meaning self.now).readings sensor };

    // What may be applied in this loop, ends included.
    fn rated(&self, of: Loop) -> Span
        ensures low { result.low.millionths ≡ low (meaning self.now).ratings of }
        ensures high { result.high.millionths ≡ high (meaning self.now).ratings of };

    ghost counted: { Counted SENSORS };

    ghost lawful: { (m : Self) → Lawful SENSORS (meaning m) };
}
