// A store in memory, always able to save.
ghost use Rattle.std.specs.Prelude.{◌≡◌};
ghost use Rattle.cells.specs.Tables.{table_contents, table_start};
ghost use Rattle.cells.specs.Sorts.{values-39};

use crate::array::CellArray;
use crate::stored::Stored;
use crate::stores::{CellStore, Unable};

#[derive(Drop)]
pub struct TableStore {
    working: CellArray,
    saved: CellArray,
}

impl TableStore {
    // Every value absent, working and saved.
    pub fn new() -> TableStore
        ensures value { table_contents result ≡ table_start }
    {
        TableStore {
            working: CellArray::absent(),
            saved: CellArray::absent(),
        }
    }
}

impl CellStore for TableStore {
    ghost contents = { table_contents };

    ghost whole = { λ s. record { working = values-39 s.working.slots s.working.kinded; saved = values-39 s.saved.slots s.saved.kinded } };

    // Both stores pass reads and writes on to their array. A generic store over what it saves into would need a trait
    // of three calls with laws of their own to save these two lines.
    fn get(&self, cell: u32) -> Option<Stored> {
        self.working.get(cell)
    }

    fn set(&mut self, cell: u32, value: Stored) {
        self.working.set(cell, value);
    }

    fn is_able(&self) -> bool {
        true
    }

    fn save(&mut self) -> Result<(), Unable> {
        self.saved = self.working;
        Ok(())
    }

    fn reload(&mut self) {
        self.working = self.saved;
    }
}
