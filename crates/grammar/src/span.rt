// A span of quantities, from a low to a high one.
ghost use Rattle.std.specs.Prelude.{◌≡◌};
ghost use Rattle.grammar.specs.Range.{spans};

use crate::quantity::Quantity;

#[derive(Clone, Copy, PartialEq, Eq, Debug)]
pub struct Span {
    pub low: Quantity,
    pub high: Quantity,
}

impl Span {
    // Whether a quantity lies inside, ends included.
    pub fn contains(self, v: Quantity) -> bool
        ensures value { result ≡ spans self.low.millionths self.high.millionths v.millionths }
    {
        (self.low..=self.high).contains(&v)
    }
}
