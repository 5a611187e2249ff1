// What a question is answered with.
ghost use Rattle.std.specs.Prelude.{◌≡◌};
ghost use Rattle.cells.specs.Values.{value_of};
ghost use Rattle.replies.specs.Replies.{told_of, cell_told};

use cells::CellValue;
use grammar::{Quantity, Text};
use power::Loop;
use request::Access;

#[derive(Clone, Copy)]
pub enum Answer {
    Number(Quantity),
    Mask(u32),
    Text(Text),
    // A bare count.
    Count(u8),
    // The model's name; the version of the command language follows it.
    Version(Text),
    Loop(Loop),
    Access(Access),
}

// A cell's value.
impl From<CellValue> for Answer {
    ghost from_gives = { λ value answer. told_of answer ≡ cell_told (value_of value) };

    fn from(value: CellValue) -> Answer {
        match value {
            CellValue::Number(number) => Answer::Number(number),
            CellValue::Mask(mask) => Answer::Mask(mask),
            CellValue::Text(text) => Answer::Text(text),
        }
    }
}
