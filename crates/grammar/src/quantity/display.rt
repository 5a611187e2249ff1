// A quantity on a screen.
ghost use Rattle.std.specs.Prelude.{Some};
ghost use Rattle.grammar.specs.Numbers.{printed};

use super::Quantity;
use crate::numbers::print_number;
use std::fmt;

// The printed form of a quantity.
impl fmt::Display for Quantity {
    ghost output = { λ q. Some (printed q.millionths) };

    fn fmt<W: fmt::Write>(&self, f: &mut fmt::Formatter<W>) -> fmt::Result {
        print_number(*self).fmt(f)
    }
}
