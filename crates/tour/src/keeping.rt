// Cells kept in the bytes of an image.
ghost use Rattle.std.specs.Prelude.{◌≡◌, true, is_ok};
ghost use Rattle.cells.specs.Contents.{put};
ghost use Rattle.cells.specs.Directory.{kinds};
ghost use Rattle.cells.specs.Values.{number};
ghost use Rattle.cells.specs.declared.roles.Kind.TheVariants.{Number};
ghost use Rattle.image.specs.Image.{Means};
ghost use Rattle.image.specs.Stores.{working_of, bytes_in};

use cells::{CellStore, Stored, Unable};
use image::ImageStore;

// Writes a number into a cell and saves: from then on the bytes mean the cells with that number among them.
pub fn keep_number(store: &mut ImageStore, cell: u32, value: i64) -> Result<(), Unable>
    ensures kept { is_ok result ≡ true → Means kinds (bytes_in store.new) (put Number (working_of store.old) cell (number value)) }
{
    store.set(cell, Stored::Number(value));
    store.save()
}
