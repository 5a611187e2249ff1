// Bytes on a screen.
ghost use Rattle.std.specs.Prelude.{◌≡◌, Some};
ghost use Rattle.grammar.specs.Texts.{shown_bytes, bytes_of};

use super::Bytes;
use std::fmt;

impl<const N: usize> Bytes<N> {
    // The bytes as text, or a note in their place where they are no text.
    pub fn shown(&self) -> &str
        ensures value { result.now ≡ shown_bytes (bytes_of self.now) }
    {
        std::str::from_utf8(self.as_bytes()).unwrap_or("(not text)")
    }
}

impl<const N: usize> fmt::Display for Bytes<N> {
    ghost output = { λ t. Some (shown_bytes (bytes_of t)) };

    fn fmt<W: fmt::Write>(&self, f: &mut fmt::Formatter<W>) -> fmt::Result {
        f.write_str(self.shown())
    }
}
