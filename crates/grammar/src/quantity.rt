// A quantity: whole millionths of an ampere, a volt, either per second, or a degree Celsius.
// Its range, 9,999.999999 either way, comes with the value.
ghost use Rattle.std.specs.Prelude.{◌≡◌, false, ℤ, pos, negsuc, ◌≤ℤ◌, MatchOption};
ghost use Rattle.grammar.specs.Range.{in_range, clamp};

#[derive(Clone, Copy, PartialEq, Eq, PartialOrd, Ord, Debug)]
pub struct Quantity {
    millionths: i64,
    ghost low: { negsuc 9999999998 ≤ℤ millionths },
    ghost high: { millionths ≤ℤ pos 9999999999 },
}

impl Quantity {
    const LEAST: i64 = -9_999_999_999;

    const MOST: i64 = 9_999_999_999;

    // The quantity of these millionths; none where they are out of range. With a guard, since `then_some` would make the
    // quantity before the test, and what a closure makes is not known to be in range.
    pub fn new(millionths: i64) -> Option<Quantity>
        ensures cases { MatchOption result (in_range millionths ≡ false) (λ q. q.millionths ≡ millionths) }
    {
        if !(Self::LEAST..=Self::MOST).contains(&millionths) {
            return None;
        }
        Some(Quantity { millionths })
    }

    // The quantity nearest to these millionths: the end of the range that they pass, else themselves.
    pub fn clamped(millionths: i64) -> Quantity
        ensures value { result.millionths ≡ clamp millionths }
    {
        Quantity {
            millionths: millionths.clamp(Self::LEAST, Self::MOST),
        }
    }

    pub fn millionths(self) -> i64
        ensures value { result ≡ self.millionths }
    {
        self.millionths
    }
}

mod display;
