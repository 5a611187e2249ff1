// Values of cells: as a store holds them, and as they count.
ghost use Rattle.std.specs.Prelude.{◌≡◌, ◌<◌, true, [], length, MatchOption};
ghost use Rattle.grammar.specs.Texts.{bytes_of};
ghost use Rattle.cells.specs.Contents.{number_in, mask_in, text_in};
ghost use Rattle.cells.specs.Kinded.{fits};
ghost use Rattle.cells.specs.Values.{is_absent, stored_of, stored_kind, raw_of};

use crate::roles::Kind;
use grammar::{Quantity, Text};

// A value as a store holds it: raw, lawful or not. A text of no bytes stands for no value, since the image has no other
// way to say that there is none.
#[derive(Clone, Copy)]
pub enum Stored {
    Number(i64),
    Mask(u32),
    Text(Text),
}

impl Stored {
    // The kind of cells that it is for.
    pub fn kind(self) -> Kind
        ensures value { result ≡ stored_kind self }
        ensures own { fits result (stored_of self) ≡ true }
    {
        match self {
            Stored::Number(_) => Kind::Number,
            Stored::Mask(_) => Kind::Mask,
            Stored::Text(_) => Kind::Text,
        }
    }

    // The number that it is; none where it is of another kind.
    pub fn number(self) -> Option<i64>
        ensures value { result ≡ number_in (stored_of self) }
    {
        match self {
            Stored::Number(v) => Some(v),
            _ => None,
        }
    }

    // The mask that it is; none where it is of another kind.
    pub fn mask(self) -> Option<u32>
        ensures value { result ≡ mask_in (stored_of self) }
    {
        match self {
            Stored::Mask(m) => Some(m),
            _ => None,
        }
    }

    // The text that it is; none where it is of another kind, or has no bytes.
    pub fn text(self) -> Option<Text>
        ensures value { MatchOption result (text_in (stored_of self) ≡ []) (λ t. (bytes_of t ≡ text_in (stored_of self)) × (0 < length (bytes_of t))) }
    {
        match self {
            Stored::Text(text) => (!text.is_absent()).then_some(text),
            _ => None,
        }
    }

    // Whether it stands for no value.
    pub(crate) fn is_absent(self) -> bool
        ensures value { result ≡ is_absent (stored_of self) }
    {
        match self {
            Stored::Text(text) => text.is_absent(),
            _ => false,
        }
    }

    // Whether a cell of this kind can hold it: what stands for no value fits everywhere.
    pub(crate) fn fits(self, kind: Kind) -> bool
        ensures value { result ≡ fits kind (stored_of self) }
    {
        match self {
            Stored::Text(text) => text.is_absent() || kind == Kind::Text,
            _ => self.kind() == kind,
        }
    }
}

// A cell's value: there always is one.
#[derive(Clone, Copy)]
pub enum CellValue {
    Number(Quantity),
    Mask(u32),
    Text(Text),
}

impl From<CellValue> for Stored {
    ghost from_gives = { λ value stored. stored ≡ raw_of value };

    fn from(value: CellValue) -> Stored {
        match value {
            CellValue::Number(v) => Stored::Number(v.millionths()),
            CellValue::Mask(m) => Stored::Mask(m),
            CellValue::Text(text) => Stored::Text(text),
        }
    }
}

// A value that its place cannot hold.
#[derive(Clone, Copy, PartialEq, Eq, Debug)]
pub struct Unfit;
