// Masks: 0x or 0X and one to eight hexadecimal digits of either case.
ghost use Rattle.std.specs.Prelude.{◌≡◌, ◌≤◌, length};
ghost use Rattle.grammar.specs.Masks.{mask_of, ExactMask, printed_mask, CanonicalMask};
ghost use Rattle.grammar.specs.Texts.{bytes_of};

use crate::base::Base;
use crate::digits::{push_digits, read_digits};
use crate::text::Text;

const MASK_DIGITS: usize = 8;

// The mask that these bytes write; none where they are no mask.
pub fn read_mask(text: &[u8]) -> Option<u32>
    ensures value { result ≡ mask_of text.now }
    ensures exact { ExactMask text.now }
{
    let [b'0', b'x' | b'X', digits @ ..] = text else {
        return None;
    };
    read_digits(digits, Base::HEXADECIMAL, MASK_DIGITS)
}

// The printed form of a mask.
pub fn print_mask(mask: u32) -> Text
    ensures value { bytes_of result ≡ printed_mask mask }
    ensures bound { length (bytes_of result) ≤ 10 }
    ensures canonical { CanonicalMask mask }
{
    let mut text = Text::absent();
    text.extend(b"0x");
    push_digits(&mut text, Base::HEXADECIMAL, u64::from(mask));
    text
}
