// What can be done with any store, known from its meaning alone.
ghost use Rattle.std.specs.Prelude.{◌≡◌, ℕ, if◌then◌else◌, Some, ◌≢◌};
ghost use Rattle.std.specs.Option.{option_map};
ghost use Rattle.cells.specs.Contents.{at, takes, number_in};
ghost use Rattle.cells.specs.Reading.{value_at};
ghost use Rattle.cells.specs.Values.{value_of};
ghost use Rattle.cells.specs.declared.roles.Kind.TheVariants.{Number};

use crate::directory::role_of;
use crate::ratings::Ratings;
use crate::stored::{CellValue, Stored};
use crate::stores::CellStore;

// The value of a cell, by its working one; none where there is no such cell.
pub fn read_cell<S: CellStore>(store: &S, cell: u32, ratings: &Ratings) -> Option<CellValue>
    ensures value { option_map value_of result ≡ value_at ratings.now (S.contents store.now).working cell }
{
    let role = role_of(cell)?;
    Some(role.cell_value(ratings, store.get(cell)))
}

// Writes a number into a cell and reads it back: it is there if the cell takes numbers, and all else is as it was.
#[tactic(auto, using(crate::proofs::Access::number_back, crate::proofs::Access::others_kept))]
pub fn exchange_number<S: CellStore>(store: &mut S, cell: u32, value: i64) -> Option<i64>
    ensures value { result ≡ (if takes Number cell then Some value else number_in (at (S.contents store.old).working cell)) }
    ensures others { (d : ℕ) → (cell ≢ d) → at (S.contents store.new).working d ≡ at (S.contents store.old).working d }
    ensures saved { (S.contents store.new).saved ≡ (S.contents store.old).saved }
{
    store.set(cell, Stored::Number(value));
    store.get(cell)?.number()
}
