// What a field of a line says.
ghost use Rattle.std.specs.Prelude.{◌≡◌};
ghost use Rattle.cells.specs.Roles.{kind_of};
ghost use Rattle.cells.specs.Values.{value_of};
ghost use Rattle.grammar.specs.Texts.{bytes_of};
ghost use Rattle.std.specs.Option.{option_map};
ghost use Rattle.request.specs.Forms.{is_query, loop_named, cell_at, sensor_there, word_of, value_in};
ghost use Rattle.request.specs.Grounds.{Reads, value_refusal};

use cells::{CellValue, Kind, Role, is_lawful_mask, role_of};
use grammar::{Text, read_mask, read_number, read_text, same_word};
use power::Loop;
use request::{Cell, LineRefusal};

#[tactic(auto, unfolding(request::specs::Forms::is_query))]
pub(crate) fn is_query(word: &[u8]) -> bool
    ensures value { result ≡ is_query word.now }
{
    same_word(word, b"?")
}

#[tactic(auto, unfolding(request::specs::Forms::loop_named))]
pub(crate) fn read_loop(word: &[u8]) -> Option<Loop>
    ensures value { result ≡ loop_named word.now }
{
    if same_word(word, b"I") {
        Some(Loop::I)
    } else if same_word(word, b"V") {
        Some(Loop::V)
    } else {
        None
    }
}

// The cell of the directory with this index.
#[tactic(auto, unfolding(request::specs::Forms::cell_at))]
pub(crate) fn find_cell(index: u32) -> Option<Cell>
    ensures value { result ≡ cell_at index }
{
    role_of(index).map(|role| Cell { index, role })
}

pub(crate) fn sensor_exists(sensors: u8, index: u32) -> bool
    ensures value { result ≡ sensor_there sensors index }
{
    (1..=u32::from(sensors)).contains(&index)
}

// A word that may be a password; none where it is no text. Its contract says so in the words of a password.
pub(crate) fn read_word(word: &[u8]) -> Option<Text>
    ensures value { option_map bytes_of result ≡ word_of word.now }
{
    read_text(word)
}

// A value for a cell of this role, by the kind of its values.
pub(crate) fn read_value(role: Role, word: &[u8]) -> Result<CellValue, LineRefusal>
    ensures cases { Reads value_of (value_refusal role word.now) (value_in (kind_of role) word.now) result }
{
    match role.kind() {
        Kind::Number => read_number(word)
            .map(CellValue::Number)
            .ok_or(LineRefusal::NoNumber),
        Kind::Mask => read_mask(word)
            .filter(|mask| is_lawful_mask(*mask))
            .map(CellValue::Mask)
            .ok_or(LineRefusal::WrongField),
        Kind::Text => read_text(word)
            .filter(|_| role.is_lawful_text(word))
            .map(CellValue::Text)
            .ok_or(LineRefusal::WrongField),
    }
}
