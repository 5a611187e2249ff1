// A slot for each cell, in the order of the directory, each empty or with a value of its cell's kind.
ghost use Rattle.std.specs.Prelude.{◌≡◌, true};
ghost use Rattle.cells.specs.Directory.{kinds};
ghost use Rattle.cells.specs.Kinded.{kinded, values_in};

use crate::directory::CELL_COUNT;
use crate::stored::Stored;

#[derive(Clone, Copy)]
pub struct CellArray {
    slots: [Option<Stored>; CELL_COUNT],
    ghost kinded: { kinded kinds (values_in slots) ≡ true },
}

mod access;
