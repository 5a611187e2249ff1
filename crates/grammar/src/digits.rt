// Digits in a base: what indices, counts, masks and the whole part of numbers are written in.
ghost use Rattle.std.specs.Prelude.{◌≡◌, ◌+◌, ◌^◌, ◌<◌, ◌≤◌, ◌++◌, length, IfSome, MatchOption};
ghost use Rattle.std.specs.Char.{digit_value};
ghost use Rattle.grammar.specs.Numerals.{numeral_of, ExactNumeral, numeral, digit_char};
ghost use Rattle.grammar.specs.Texts.{bytes_of};

use crate::base::Base;
use crate::text::Text;

// The number that one to `most` digits write; none where these bytes are something else.
pub(crate) fn read_digits(text: &[u8], base: Base, most: usize) -> Option<u32>
    requires { base.value ^ most ≤ 2 ^ 32 }
    ensures value { result ≡ numeral_of base.value most text.now }
    ensures bound { IfSome result (λ n. n < base.value ^ most) }
    ensures exact { ExactNumeral base.value most text.now }
{
    if text.is_empty() {
        return None;
    }
    if text.len() > most {
        return None;
    }
    let mut n: u32 = 0;
    for c in text {
        let d = digit_value(*c, base)?;
        n = n * base.value + d;
    }
    Some(n)
}

// What a digit of either case counts for; none where the byte is no digit of the base.
fn digit_value(c: u8, base: Base) -> Option<u32>
    ensures cases { MatchOption result (base.value ≤ digit_value c) (λ d. (d ≡ digit_value c) × (d < base.value)) }
{
    char::from(c).to_digit(base.value)
}

// The digits of `n`, upper-case and without leading zeros. Room is asked for: see Bytes::push.
// Written out, and not by `write!`, which answers a Result that no contract says is Ok.
pub(crate) fn push_digits(text: &mut Text, base: Base, n: u64)
    requires { length (bytes_of text.old) + length (numeral base.value n) ≤ 24 }
    ensures bytes { bytes_of text.new ≡ bytes_of text.old ++ numeral base.value n }
{
    let radix = u64::from(base.value);
    if n < radix {
        text.push(digit_char(n as u8));
        return;
    }
    push_digits(text, base, n / radix);
    text.push(digit_char((n % radix) as u8));
}

fn digit_char(d: u8) -> u8
    requires { d < 36 }
    ensures value { result ≡ digit_char d }
{
    if d < 10 { b'0' + d } else { b'A' + (d - 10) }
}
