// What any store of cells means, whatever it is made of.
ghost use Rattle.std.specs.Prelude.{◌≡◌, None, is_ok};
ghost use Rattle.cells.specs.Contents.{Contents, Whole, at, Wrote, Saved, Reloaded};
ghost use Rattle.cells.specs.Values.{absent, stored_of, stored_kind, slot_of};

use crate::stored::Stored;

// The store is not able to save, and nothing has changed.
#[derive(Clone, Copy, PartialEq, Eq, Debug)]
pub struct Unable;

// A store by its meaning: a working and a saved value for each cell, and whether it is able to save.
// Stored values are raw.
pub trait CellStore {
    ghost contents: { Self → Contents };

    // The working value of a cell; an absent one has none, and neither has what is no cell.
    fn get(&self, cell: u32) -> Option<Stored>
        ensures value { slot_of result ≡ at (contents self.now).working cell }
        ensures none { at (contents self.now).working cell ≡ absent → result ≡ None };

    // Writes a working value; into no cell, or a cell of another kind, it does nothing.
    // A text of no bytes makes the cell absent.
    fn set(&mut self, cell: u32, value: Stored)
        ensures after { Wrote (stored_kind value) cell (stored_of value) (contents self.old) (contents self.new) };

    fn is_able(&self) -> bool
        ensures value { result ≡ (contents self.now).able };

    fn save(&mut self) -> Result<(), Unable>
        ensures after { Saved (is_ok result) (contents self.old) (contents self.new) };

    fn reload(&mut self)
        ensures after { Reloaded (contents self.old) (contents self.new) };

    ghost whole: { (s : Self) → Whole (contents s) };
}
