// A number that is being read, one byte after another.
ghost use Rattle.std.specs.Prelude.{◌≡◌, ◌+◌, ◌-◌, ◌*◌, ◌^◌, ◌<◌, ◌≤◌, []};
ghost use Rattle.std.specs.Option.{option_map};
ghost use Rattle.grammar.specs.Numbers.{millionths_of, signed};
ghost use Rattle.grammar.specs.Scans.{read_from, Steps};

use super::digits::Digits;
use crate::quantity::Quantity;

// The most digits before the point, and after it.
const WHOLE_DIGITS: usize = 4;

const FRACTION_DIGITS: usize = 6;

// What has been read: nothing, digits before the point, or digits after it.
#[derive(Clone, Copy)]
pub(crate) enum Scan {
    Start,
    Whole(Digits<0, WHOLE_DIGITS>),
    Fraction(Digits<WHOLE_DIGITS, FRACTION_DIGITS>),
}

impl Scan {
    // One byte more; none where no number goes on so.
    pub(crate) fn accept(self, c: u8) -> Option<Scan>
        ensures steps { Steps self c result }
    {
        match c {
            b'-' => self.accept_minus(),
            b'.' => self.accept_point(),
            b'0'..=b'9' => self.accept_digit(c),
            _ => None,
        }
    }

    fn accept_minus(self) -> Option<Scan>
        ensures steps { Steps self 45 result }
    {
        match self {
            Scan::Start => Some(Scan::Whole(Digits {
                minus: true,
                count: 0,
                n: 0,
            })),
            Scan::Whole(_) | Scan::Fraction(_) => None,
        }
    }

    fn accept_point(self) -> Option<Scan>
        ensures steps { Steps self 46 result }
    {
        match self {
            Scan::Whole(digits) if digits.count > 0 => Some(Scan::Fraction(Digits {
                minus: digits.minus,
                count: 0,
                n: digits.n,
            })),
            _ => None,
        }
    }

    fn accept_digit(self, c: u8) -> Option<Scan>
        requires { (48 ≤ c) × (c ≤ 57) }
        ensures steps { Steps self c result }
    {
        match self {
            Scan::Start => Some(Scan::Whole(Digits {
                minus: false,
                count: 1,
                n: u64::from(c - b'0'),
            })),
            Scan::Whole(digits) => Some(Scan::Whole(digits.more(c)?)),
            Scan::Fraction(digits) => Some(Scan::Fraction(digits.more(c)?)),
        }
    }

    // The number, where it may end here.
    pub(crate) fn finish(self) -> Option<Quantity>
        ensures value { option_map millionths_of result ≡ read_from self [] }
    {
        match self {
            Scan::Whole(digits) if digits.count > 0 => {
                Quantity::new(with_sign(digits.minus, digits.n * 1_000_000))
            }
            Scan::Fraction(digits) if digits.count > 0 => {
                Quantity::new(with_sign(digits.minus, in_millionths(digits.n, digits.count)))
            }
            _ => None,
        }
    }
}

// What digits of which `count` stand after the point are in millionths: times ten for each decimal that is not written.
fn in_millionths(n: u64, count: usize) -> u64
    requires { (count ≤ 6) × (n < 10 ^ (4 + count)) }
    ensures value { result ≡ n * 10 ^ (6 - count) }
    ensures bound { result < 10 ^ 10 }
{
    n * 10u64.pow(6 - count as u32)
}

fn with_sign(minus: bool, size: u64) -> i64
    requires { size < 10 ^ 10 }
    ensures value { result ≡ signed minus size }
{
    if minus { -(size as i64) } else { size as i64 }
}
