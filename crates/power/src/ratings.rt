// The ratings of a supply: 20 A and 40 V either way.
ghost use Rattle.std.specs.Prelude.{◌≡◌};
ghost use Rattle.power.specs.Meaning.{low, high};
ghost use Rattle.power.specs.Rated.{standard_ratings};

use crate::loops::Loop;
use grammar::{Quantity, Span};

pub(crate) fn standard_span(of: Loop) -> Span
    ensures low { result.low.millionths ≡ low standard_ratings of }
    ensures high { result.high.millionths ≡ high standard_ratings of }
{
    match of {
        Loop::I => Span {
            low: Quantity::clamped(-20_000_000),
            high: Quantity::clamped(20_000_000),
        },
        Loop::V => Span {
            low: Quantity::clamped(-40_000_000),
            high: Quantity::clamped(40_000_000),
        },
    }
}
