// A store of cells over the bytes of an image, which it owns and never grows.
ghost use Rattle.std.specs.Prelude.{◌≡◌, ◌≤◌, true, ◌++◌, length, drop, is_ok, if◌then◌else◌};
ghost use Rattle.std.proofs.Common.{◌∙◌};
ghost use Rattle.cells.specs.Contents.{Wrote, Saved, Reloaded};
ghost use Rattle.cells.specs.Directory.{kinds};
ghost use Rattle.cells.specs.Values.{stored_of, stored_kind};
ghost use Rattle.image.specs.Image.{encoded, decoded, Means};
ghost use Rattle.image.specs.Stores.{working_of, bytes_in, image_contents};
ghost use Rattle.cells.specs.Sorts.{values-39, kinds-39};
ghost use Rattle.image.specs.Format.{decoded-length};

use crate::read::read_cells;
use crate::write::{image_len, write_image};
use cells::{CellArray, CellStore, Stored, Unable};
use grammar::Bytes;

// Room for every image: the longest has 508 bytes.
const IMAGE_ROOM: usize = 640;

#[derive(Drop)]
pub struct ImageStore {
    working: CellArray,
    image: Vec<u8>,
}

impl ImageStore {
    // A store over these bytes, reloaded: its working values are those with whose image the bytes begin,
    // and all absent where there are none such.
    pub fn new(image: Vec<u8>) -> ImageStore
        ensures bytes { bytes_in result ≡ image.items }
        ensures value { working_of result ≡ decoded kinds image.items }
        ensures exact { Means kinds image.items (working_of result) }
    {
        let working = read_cells(image.as_slice());
        ImageStore { working, image }
    }

    pub fn as_bytes(&self) -> &[u8]
        ensures value { result.now ≡ bytes_in self.now }
    {
        self.image.as_slice()
    }

    pub fn into_bytes(self) -> Vec<u8>
        ensures value { result.items ≡ bytes_in self }
    {
        let ImageStore { working: _, image } = self;
        image
    }
}

// Copies bytes to the front of others.
fn overlay(image: &mut [u8], made: &[u8])
    requires { length made.now ≤ length image.old }
    ensures after { image.new ≡ made.now ++ drop (length made.now) image.old }
{
    image[..made.len()].copy_from_slice(made);
}

impl CellStore for ImageStore {
    ghost contents = { image_contents };

    ghost whole = { λ s.
        record {
          working = values-39 s.working.slots s.working.kinded;
          saved = decoded-length kinds s.image.items ∙ kinds-39;
        } };

    // Both stores pass reads and writes on to their array. A generic store over what it saves into would need a trait
    // of three calls with laws of their own to save these two lines.
    fn get(&self, cell: u32) -> Option<Stored> {
        self.working.get(cell)
    }

    fn set(&mut self, cell: u32, value: Stored)
        ensures after { Wrote (stored_kind value) cell (stored_of value) (image_contents self.old) (image_contents self.new) }
        ensures bytes { bytes_in self.new ≡ bytes_in self.old }
    {
        self.working.set(cell, value);
    }

    fn is_able(&self) -> bool {
        image_len(&self.working) <= self.image.len()
    }

    // The image is made aside, then copied to the front of the bytes; the rest stays.
    fn save(&mut self) -> Result<(), Unable>
        ensures after { Saved (is_ok result) (image_contents self.old) (image_contents self.new) }
        ensures bytes { bytes_in self.new ≡ (if is_ok result then encoded (working_of self.old) ++ drop (length (encoded (working_of self.old))) (bytes_in self.old) else bytes_in self.old) }
        ensures back { is_ok result ≡ true → Means kinds (bytes_in self.new) (working_of self.old) }
    {
        if image_len(&self.working) > self.image.len() {
            return Err(Unable);
        }
        let mut made = Bytes::<IMAGE_ROOM>::absent();
        write_image(&self.working, &mut made);
        overlay(self.image.as_mut_slice(), made.as_bytes());
        Ok(())
    }

    fn reload(&mut self)
        ensures after { Reloaded (image_contents self.old) (image_contents self.new) }
        ensures bytes { bytes_in self.new ≡ bytes_in self.old }
        ensures exact { Means kinds (bytes_in self.old) (working_of self.new) }
    {
        self.working = read_cells(self.image.as_slice());
    }
}
