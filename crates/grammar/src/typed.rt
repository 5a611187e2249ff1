// Texts as people type them: 1 to 24 bytes from 32 to 126, without colon or question mark.
ghost use Rattle.std.specs.Prelude.{◌≡◌, true, false, ◌&&◌, Decides, MatchOption, nat_le};
ghost use Rattle.std.specs.List.{list_all};
ghost use Rattle.grammar.specs.Texts.{bytes_of, text_byte, is_text, IsText};

use crate::text::{TEXT_MOST, Text};

// Whether these bytes are such a text.
#[tactic(auto, using(crate::proofs::Plain::text_decided))]
pub fn is_text(bytes: &[u8]) -> bool
    ensures value { result ≡ is_text bytes.now }
    ensures exact { Decides result (IsText bytes.now) }
{
    is_text_length(bytes.len()) && all_text_bytes(bytes)
}

// The text that these bytes are; none where they are no such text.
pub fn read_text(bytes: &[u8]) -> Option<Text>
    ensures cases { MatchOption result (is_text bytes.now ≡ false) (λ t. (is_text bytes.now ≡ true) × (bytes_of t ≡ bytes.now)) }
{
    if is_text(bytes) {
        Text::new(bytes)
    } else {
        None
    }
}

fn is_text_length(n: usize) -> bool
    ensures value { result ≡ nat_le 1 n && nat_le n 24 }
{
    (1..=TEXT_MOST).contains(&n)
}

fn all_text_bytes(bytes: &[u8]) -> bool
    ensures value { result ≡ list_all text_byte bytes.now }
{
    bytes.iter().all(|c| is_text_byte(*c))
}

fn is_text_byte(c: u8) -> bool
    ensures value { result ≡ text_byte c }
{
    matches!(c, b' '..=b'~') && !matches!(c, b':' | b'?')
}
