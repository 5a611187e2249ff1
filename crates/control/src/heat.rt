// The hottest of a module's sensors.
ghost use Rattle.std.specs.Prelude.{◌≡◌, map};
ghost use Rattle.grammar.specs.Numbers.{millionths_of};
ghost use Rattle.control.specs.Heat.{hottest_of, Hottest};

use grammar::Quantity;

// Over these sensors only, so that it may be below zero; 0 where there is none.
pub fn hottest(temperatures: &[Quantity]) -> Quantity
    ensures value { result.millionths ≡ hottest_of (map millionths_of temperatures.now) }
    ensures law { Hottest (map millionths_of temperatures.now) result.millionths }
{
    let none = Quantity::clamped(0);
    temperatures.iter().copied().max().unwrap_or(none)
}
