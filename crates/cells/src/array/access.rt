// Reading and writing the cells of an array.
ghost use Rattle.std.specs.Prelude.{◌≡◌, ◌<◌, true, false, ◌&&◌, None, replicate, is_ok, if◌then◌else◌, MatchOption, nat_lt, slice_index_or, slice_set};
ghost use Rattle.cells.specs.Contents.{at, put, takes};
ghost use Rattle.cells.specs.Directory.{kinds, place};
ghost use Rattle.cells.specs.Kinded.{fits, kinded, values_in};
ghost use Rattle.cells.specs.Values.{absent, stored_of, stored_kind, slot_of};
ghost use Rattle.cells.specs.declared.roles.Kind.TheVariants.{Number};

use super::CellArray;
use crate::directory::{CELL_COUNT, kind_at, place_of};
use crate::roles::Kind;
use crate::stored::{Stored, Unfit};

impl CellArray {
    // Every value absent.
    #[tactic(auto, unfolding(crate::specs::Directory::roles))]
    pub fn absent() -> CellArray
        ensures value { values_in result.slots ≡ replicate 39 absent }
    {
        CellArray {
            slots: [None; CELL_COUNT],
        }
    }

    // What a cell holds; none for an absent one, and for what is no cell. A text of no bytes, which a slot may hold,
    // stands for no value.
    pub fn get(&self, cell: u32) -> Option<Stored>
        ensures value { slot_of result ≡ at (values_in self.now.slots) cell }
        ensures none { at (values_in self.now.slots) cell ≡ absent → result ≡ None }
    {
        self.slots[place_of(cell)?].filter(|value| !value.is_absent())
    }

    // Puts a value into a cell; into no cell, or one of another kind, it does nothing.
    #[tactic(auto, using(crate::proofs::Slots::setting))]
    pub fn set(&mut self, cell: u32, value: Stored)
        ensures after { values_in self.new.slots ≡ put (stored_kind value) (values_in self.old.slots) cell (stored_of value) }
    {
        if let Some(i) = place_of_kind(cell, value.kind()) {
            self.slots[i] = Some(value);
        }
    }

    // The slots in the order of the directory, each with a value of its cell's kind if any.
    pub fn as_slice(&self) -> &[Option<Stored>]
        ensures value { result.now ≡ self.now.slots }
        ensures kinds { kinded kinds (values_in result.now) ≡ true }
    {
        &self.slots
    }

    // Puts a value, or none, at a place of the directory. Refused exactly where there is no such place, or the value
    // is of another kind than the cell there; nothing has then changed.
    #[tactic(auto, using(crate::proofs::Slots::setting))]
    pub fn fill(&mut self, at: usize, value: Option<Stored>) -> Result<(), Unfit>
        ensures cases { is_ok result ≡ (nat_lt at 39 && fits (slice_index_or kinds at Number) (slot_of value)) }
        ensures after { values_in self.new.slots ≡ (if is_ok result then slice_set (values_in self.old.slots) at (slot_of value) else values_in self.old.slots) }
    {
        let kind = kind_at(at).ok_or(Unfit)?;
        if !fits(kind, value) {
            return Err(Unfit);
        }
        self.slots[at] = value;
        Ok(())
    }
}

// Where a cell stands, if it is of this kind.
fn place_of_kind(cell: u32, kind: Kind) -> Option<usize>
    ensures cases { MatchOption result (takes kind cell ≡ false) (λ p. (takes kind cell ≡ true) × (p ≡ place cell) × (p < 39)) }
{
    let at = place_of(cell)?;
    let found = kind_at(at)?;
    (found == kind).then_some(at)
}

// Whether a cell of this kind can hold what there is.
fn fits(kind: Kind, value: Option<Stored>) -> bool
    ensures value { result ≡ fits kind (slot_of value) }
{
    value.is_none_or(|stored| stored.fits(kind))
}
