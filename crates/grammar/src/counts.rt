// Indices and counts: bare decimal digits, apart from numbers.
ghost use Rattle.std.specs.Prelude.{◌≡◌, ◌≤◌, length, IfSome};
ghost use Rattle.grammar.specs.Numerals.{numeral_of, ExactNumeral, numeral, CanonicalNumeral};
ghost use Rattle.grammar.specs.Texts.{bytes_of};

use crate::base::Base;
use crate::digits::{push_digits, read_digits};
use crate::text::Text;

const INDEX_DIGITS: usize = 3;

// The index that one to three digits write; none where these bytes are something else.
pub fn read_index(text: &[u8]) -> Option<u32>
    ensures value { result ≡ numeral_of 10 3 text.now }
    ensures bound { IfSome result (λ n. n ≤ 999) }
    ensures exact { ExactNumeral 10 3 text.now }
{
    read_digits(text, Base::DECIMAL, INDEX_DIGITS)
}

// The printed form of a count.
pub fn print_count(n: u32) -> Text
    ensures value { bytes_of result ≡ numeral 10 n }
    ensures bound { length (bytes_of result) ≤ 10 }
    ensures canonical { CanonicalNumeral 10 n }
{
    let mut text = Text::absent();
    push_digits(&mut text, Base::DECIMAL, u64::from(n));
    text
}
