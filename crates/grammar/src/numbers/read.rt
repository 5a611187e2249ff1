// Reading a number, in one pass over its bytes, and finding where bytes stop being one.
ghost use Rattle.std.specs.Prelude.{◌≡◌};
ghost use Rattle.std.specs.Option.{option_map};
ghost use Rattle.grammar.specs.Numbers.{millionths_of, number_of, Exact, LongestBeginning};

use super::scan::Scan;
use crate::quantity::Quantity;

// The quantity that these bytes write; none where they are no number.
pub fn read_number(text: &[u8]) -> Option<Quantity>
    ensures value { option_map millionths_of result ≡ number_of text.now }
    ensures exact { Exact text.now }
{
    let mut scan = Scan::Start;
    for c in text {
        scan = scan.accept(*c)?;
    }
    scan.finish()
}

// How many of these bytes some number begins with: where they stop being one, for an error message.
// A loop: the place at which it stops is wanted, and a closure that changes what it captured tells the proof nothing.
pub fn number_prefix(text: &[u8]) -> usize
    ensures value { LongestBeginning text.now result }
{
    let mut scan = Scan::Start;
    for (i, c) in text.iter().enumerate() {
        let Some(next) = scan.accept(*c) else {
            return i;
        };
        scan = next;
    }
    text.len()
}
