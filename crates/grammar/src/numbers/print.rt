// Printing a number: the one plain form that reads back as itself.
ghost use Rattle.std.specs.Prelude.{◌≡◌, ◌+◌, ◌%◌, ◌^◌, ◌<◌, ◌≤◌, ◌++◌, length, ◌==◌};
ghost use Rattle.grammar.specs.Numbers.{places, trimmed, shown, sign_text, pointed, printed, Canonical};
ghost use Rattle.grammar.specs.Numerals.{numeral};
ghost use Rattle.grammar.specs.Texts.{bytes_of};

use crate::base::Base;
use crate::digits::push_digits;
use crate::quantity::Quantity;
use crate::text::Text;

const DECIMALS: usize = 6;

// The printed form of a quantity.
pub fn print_number(q: Quantity) -> Text
    ensures value { bytes_of result ≡ printed q.millionths }
    ensures bound { length (bytes_of result) ≤ 12 }
    ensures canonical { Canonical q.millionths }
{
    let v = q.millionths();
    let size = v.unsigned_abs();
    print_parts(v < 0, size / 1_000_000, size % 1_000_000)
}

// A minus or none, the digits of `whole`, and the decimals that are shown of `fraction` millionths.
fn print_parts(minus: bool, whole: u64, fraction: u64) -> Text
    requires { (whole < 10 ^ 4) × (fraction < 10 ^ 6) }
    ensures value { bytes_of result ≡ sign_text minus ++ (numeral 10 whole ++ pointed (shown fraction)) }
{
    let mut text = Text::absent();
    push_sign(&mut text, minus);
    push_digits(&mut text, Base::DECIMAL, whole);
    push_shown(&mut text, fraction);
    text
}

// A minus, or nothing. Room is asked for: see Bytes::push.
fn push_sign(text: &mut Text, minus: bool)
    requires { length (bytes_of text.old) < 24 }
    ensures bytes { bytes_of text.new ≡ bytes_of text.old ++ sign_text minus }
{
    if minus {
        text.push(b'-');
    }
}

// A point and the decimals that are shown of `n` millionths; nothing where none is. Room: see Bytes::push.
fn push_shown(text: &mut Text, n: u64)
    requires { length (bytes_of text.old) + 7 ≤ 24 }
    ensures bytes { bytes_of text.new ≡ bytes_of text.old ++ pointed (shown n) }
{
    push_trimmed(text, DECIMALS, n);
}

// A point and the last `k` digits of `n` without trailing zeros; nothing where none is left.
// Room: see Bytes::push. Written out: see push_digits.
fn push_trimmed(text: &mut Text, k: usize, n: u64)
    requires { length (bytes_of text.old) + 1 + k ≤ 24 }
    ensures bytes { bytes_of text.new ≡ bytes_of text.old ++ pointed (trimmed k n) }
{
    if k == 0 {
        return;
    }
    if n % 10 == 0 {
        return push_trimmed(text, k - 1, n / 10);
    }
    text.push(b'.');
    push_places(text, k, n);
}

// The last `k` digits of `n`, with leading zeros. Room: see Bytes::push. Written out: see push_digits.
fn push_places(text: &mut Text, k: usize, n: u64)
    requires { length (bytes_of text.old) + k ≤ 24 }
    ensures bytes { bytes_of text.new ≡ bytes_of text.old ++ places k n }
{
    if k == 0 {
        return;
    }
    push_places(text, k - 1, n / 10);
    text.push(b'0' + (n % 10) as u8);
}
