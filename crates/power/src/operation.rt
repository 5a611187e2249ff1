// What can be done with any power module, known from its meaning alone.
ghost use Rattle.std.specs.Prelude.{◌≡◌, false, is_ok, if◌then◌else◌};
ghost use Rattle.power.specs.Meaning.{rated, started, rested};

use crate::loops::Loop;
use crate::modules::{PowerModule, Refused};
use grammar::Quantity;

// On, in this loop and at this demand, whatever the module did before.
// Refused exactly where the demand is outside the rated span of that loop; the module is then as it was.
pub fn start<M: PowerModule>(target: &mut M, choice: Loop, demand: Quantity) -> Result<(), Refused>
    ensures cases { is_ok result ≡ rated (M.meaning target.old).ratings choice demand.millionths }
    ensures after { M.meaning target.new ≡ (if rated (M.meaning target.old).ratings choice demand.millionths then started (M.meaning target.old) choice demand.millionths else M.meaning target.old) }
    ensures untouched { is_ok result ≡ false → target.new ≡ target.old }
{
    if !target.rated(choice).contains(demand) {
        return Err(Refused);
    }
    target.switch_off();
    target.choose_loop(choice)?;
    target.switch_on();
    target.apply(demand)
}

// The demand zero. Zero lies inside every rated span, so this is refused exactly while off.
pub fn rest<M: PowerModule>(target: &mut M) -> Result<(), Refused>
    ensures cases { is_ok result ≡ (M.meaning target.old).on }
    ensures after { M.meaning target.new ≡ rested (M.meaning target.old) }
{
    target.apply(Quantity::clamped(0))
}
