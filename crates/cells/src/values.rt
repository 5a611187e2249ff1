// Which values are lawful in a cell, its factory value, and the value that it has.
ghost use Rattle.std.specs.Prelude.{◌≡◌, ◌≤◌, true, false, ◌&&◌, length, MatchOption};
ghost use Rattle.grammar.specs.Texts.{bytes_of};
ghost use Rattle.cells.specs.Roles.{kind_of};
ghost use Rattle.cells.specs.Values.{lawful_number, lawful_mask, lawful_password, lawful_text, is_mask, lawful, factory, cell_value, Valued, stored_of, slot_of, value_of};

use crate::ratings::Ratings;
use crate::roles::{Kind, Role};
use crate::stored::{CellValue, Stored};
use grammar::{Quantity, Text, is_text, same_word};

const LARGEST_MASK: u32 = 0x3;

impl Role {
    // Whether this number is lawful in a cell of this role.
    pub fn is_lawful_number(self, ratings: &Ratings, v: i64) -> bool
        ensures value { result ≡ lawful_number ratings.now self v }
    {
        match self {
            Role::LowI => (ratings.current.low.millionths()..=0).contains(&v),
            Role::HighI => (0..=ratings.current.high.millionths()).contains(&v),
            Role::LowV => (ratings.voltage.low.millionths()..=0).contains(&v),
            Role::HighV => (0..=ratings.voltage.high.millionths()).contains(&v),
            Role::RateI | Role::RateV => v > 0 && Quantity::new(v).is_some(),
            Role::Operator => Quantity::new(v).is_some(),
            _ => false,
        }
    }

    // Whether this mask is lawful in a cell of this role.
    pub fn is_lawful_mask(self, m: u32) -> bool
        ensures value { result ≡ (is_mask (kind_of self) && lawful_mask m) }
    {
        self.kind() == Kind::Mask && is_lawful_mask(m)
    }

    // Whether these bytes are lawful in a cell of this role.
    pub fn is_lawful_text(self, bytes: &[u8]) -> bool
        ensures value { result ≡ lawful_text self bytes.now }
    {
        match self {
            Role::Model | Role::Identification => is_text(bytes),
            Role::Password => is_lawful_password(bytes),
            _ => false,
        }
    }

    // The value that a cell has where none was stored.
    pub fn factory_value(self, ratings: &Ratings) -> CellValue
        ensures value { value_of result ≡ factory ratings.now self }
    {
        match self {
            Role::Model | Role::Identification => CellValue::Text(short_text(b"MB-RACK")),
            Role::LowI => CellValue::Number(ratings.current.low),
            Role::HighI => CellValue::Number(ratings.current.high),
            Role::LowV => CellValue::Number(ratings.voltage.low),
            Role::HighV => CellValue::Number(ratings.voltage.high),
            Role::RateI | Role::RateV => CellValue::Number(Quantity::clamped(10_000_000)),
            Role::Password => CellValue::Text(short_text(b"PS-ADMIN")),
            Role::InterlockEnable => CellValue::Mask(0),
            Role::InterlockActivation => CellValue::Mask(LARGEST_MASK),
            Role::Operator => CellValue::Number(Quantity::clamped(0)),
        }
    }

    // A cell's value: the stored one, or the factory one where that is absent or unlawful.
    #[tactic(auto, unfolding(crate::specs::Values::cell_value))]
    pub fn cell_value(self, ratings: &Ratings, stored: Option<Stored>) -> CellValue
        ensures value { value_of result ≡ cell_value ratings.now self (slot_of stored) }
        ensures exact { Valued ratings.now self (slot_of stored) (value_of result) }
    {
        stored
            .and_then(|value| self.lawful_value(ratings, value))
            .unwrap_or_else(|| self.factory_value(ratings))
    }

    // The stored value where it is lawful.
    fn lawful_value(self, ratings: &Ratings, stored: Stored) -> Option<CellValue>
        ensures cases { MatchOption result (lawful ratings.now self (stored_of stored) ≡ false) (λ v. (lawful ratings.now self (stored_of stored) ≡ true) × (value_of v ≡ stored_of stored)) }
    {
        match stored {
            Stored::Number(v) => Quantity::new(v)
                .filter(|_| self.is_lawful_number(ratings, v))
                .map(CellValue::Number),
            Stored::Mask(m) => self.is_lawful_mask(m).then_some(CellValue::Mask(m)),
            Stored::Text(text) => self
                .is_lawful_text(text.as_bytes())
                .then_some(CellValue::Text(text)),
        }
    }
}

// Whether this mask is lawful in a cell that holds one.
pub fn is_lawful_mask(m: u32) -> bool
    ensures value { result ≡ lawful_mask m }
{
    m <= LARGEST_MASK
}

// A password is a text, and neither LOCK nor USER in any letter case.
fn is_lawful_password(bytes: &[u8]) -> bool
    ensures value { result ≡ lawful_password bytes.now }
{
    is_text(bytes) && !same_word(bytes, b"LOCK") && !same_word(bytes, b"USER")
}

fn short_text(bytes: &[u8]) -> Text
    requires { length bytes.now ≤ 24 }
    ensures value { bytes_of result ≡ bytes.now }
{
    Text::new(bytes).unwrap()
}
