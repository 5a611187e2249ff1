// Making bytes, adding to them, and what they are.
ghost use Rattle.std.specs.Prelude.{◌≡◌, ◌+◌, ◌<◌, ◌≤◌, [], ◌∷◌, ◌++◌, length, is_ok, if◌then◌else◌, MatchOption, nat_le, ◌==◌};
ghost use Rattle.grammar.specs.Texts.{bytes_of};

use super::{Bytes, Full};

impl<const N: usize> Bytes<N> {
    // The most bytes that there can be.
    pub const MOST: usize = N;

    // No bytes.
    pub fn absent() -> Self
        ensures value { bytes_of result ≡ [] }
    {
        Bytes {
            bytes: [0; N],
            len: 0,
        }
    }

    // These bytes, whatever they are; none where there are more than N.
    pub fn new(bytes: &[u8]) -> Option<Self>
        ensures cases { MatchOption result (N < length bytes.now) (λ t. bytes_of t ≡ bytes.now) }
    {
        if bytes.len() > N {
            return None;
        }
        let mut made = Self::absent();
        made.extend(bytes);
        Some(made)
    }

    pub fn as_bytes(&self) -> &[u8]
        ensures value { result.now ≡ bytes_of self.now }
        ensures bound { length result.now ≤ N }
    {
        // A part of an array of N is taken through a slice of the whole.
        let whole = &self.bytes[..];
        &whole[0..self.len]
    }

    pub fn is_absent(&self) -> bool
        ensures value { result ≡ (length (bytes_of self.now) == 0) }
    {
        self.len == 0
    }

    // Adds bytes at the end; refused exactly where there is no room for them.
    pub fn append(&mut self, more: &[u8]) -> Result<(), Full>
        ensures cases { is_ok result ≡ nat_le (length (bytes_of self.old) + length more.now) N }
        ensures bytes { bytes_of self.new ≡ (if is_ok result then bytes_of self.old ++ more.now else bytes_of self.old) }
    {
        if more.len() > N - self.len {
            return Err(Full);
        }
        self.extend(more);
        Ok(())
    }

    // Adds a byte at the end. Room is asked for by a clause here and in the functions that print, and by no type,
    // because each of them needs another amount.
    pub(crate) fn push(&mut self, b: u8)
        requires { length (bytes_of self.old) < N }
        ensures bytes { bytes_of self.new ≡ bytes_of self.old ++ b ∷ [] }
    {
        self.bytes[self.len] = b;
        self.len += 1;
    }

    // Adds bytes at the end.
    pub(crate) fn extend(&mut self, more: &[u8])
        requires { length (bytes_of self.old) + length more.now ≤ N }
        ensures bytes { bytes_of self.new ≡ bytes_of self.old ++ more.now }
    {
        let end = self.len + more.len();
        // Through a slice of the whole, as in `as_bytes`.
        let whole = &mut self.bytes[..];
        whole[self.len..end].copy_from_slice(more);
        self.len = end;
    }
}
