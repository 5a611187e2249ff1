// Writing the image of cells: a pair of offset and length for each, then the contents.
ghost use Rattle.std.specs.Prelude.{◌≡◌, ◌+◌, ◌<◌, ◌≤◌, [], ◌++◌, length};
ghost use Rattle.cells.specs.Kinded.{values_in};
ghost use Rattle.cells.specs.Values.{slot_of, stored_of};
ghost use Rattle.image.specs.Image.{be16, content, contents, directory, encoded};

use crate::sink::Sink;
use cells::{CELL_COUNT, CellArray, Stored};

// Where the contents start: after the pairs, of four bytes each.
pub(crate) const CONTENTS: usize = 4 * CELL_COUNT;

// The number of bytes of what there is in a slot.
fn size_of(slot: &Option<Stored>) -> usize
    ensures value { result ≡ length (content (slot_of slot.now)) }
    ensures bound { result ≤ 24 }
{
    slot.map_or(0, size_of_value)
}

// Beside `write_value`, since its size is wanted before there is a sink; made of its bytes it would be no plainer.
fn size_of_value(value: Stored) -> usize
    ensures value { result ≡ length (content (stored_of value)) }
    ensures bound { result ≤ 24 }
{
    match value {
        Stored::Number(_) => 8,
        Stored::Mask(_) => 4,
        Stored::Text(text) => text.as_bytes().len(),
    }
}

// The length of the image.
#[tactic(auto, using(crate::proofs::Writing::image_length))]
pub(crate) fn image_len(cells: &CellArray) -> usize
    ensures value { result ≡ length (encoded (values_in cells.now.slots)) }
{
    CONTENTS + contents_len(cells)
}

fn contents_len(cells: &CellArray) -> usize
    ensures value { result ≡ length (contents (values_in cells.now.slots)) }
    ensures bound { result ≤ 352 }
{
    cells.as_slice().iter().map(size_of).sum()
}

// Writes the bytes of what there is in a slot.
fn write_slot<S: Sink>(slot: &Option<Stored>, out: &mut S)
    requires { length (S.written out.old) + length (content (slot_of slot.now)) ≤ S.ROOM }
    ensures written { S.written out.new ≡ S.written out.old ++ content (slot_of slot.now) }
{
    if let Some(value) = *slot {
        write_value(value, out);
    }
}

fn write_value<S: Sink>(value: Stored, out: &mut S)
    requires { length (S.written out.old) + length (content (stored_of value)) ≤ S.ROOM }
    ensures written { S.written out.new ≡ S.written out.old ++ content (stored_of value) }
{
    match value {
        Stored::Number(v) => out.push(&v.to_be_bytes()),
        Stored::Mask(m) => out.push(&m.to_be_bytes()),
        Stored::Text(text) => out.push(text.as_bytes()),
    }
}

// Writes an offset and a length, high byte first.
fn write_pair<S: Sink>(at: usize, size: usize, out: &mut S)
    requires at { at < 65536 }
    requires size { size < 65536 }
    requires space { length (S.written out.old) + 4 ≤ S.ROOM }
    ensures written { S.written out.new ≡ S.written out.old ++ (be16 at ++ be16 size) }
{
    let [a, b] = (at as u16).to_be_bytes();
    let [c, d] = (size as u16).to_be_bytes();
    out.push(&[a, b, c, d]);
}

// Writes the pairs of the cells.
#[tactic(auto, using(crate::proofs::Writing::pair_steps))]
fn write_pairs<S: Sink>(cells: &CellArray, out: &mut S)
    requires empty { S.written out.old ≡ [] }
    requires space { 156 ≤ S.ROOM }
    ensures written { S.written out.new ≡ directory 156 (values_in cells.now.slots) }
{
    let slots = cells.as_slice();
    let mut at = CONTENTS;
    for slot in slots {
        let size = size_of(slot);
        write_pair(at, size, out);
        at += size;
    }
}

// Writes the contents of the cells.
#[tactic(auto, using(crate::proofs::Writing::content_steps))]
fn write_contents<S: Sink>(cells: &CellArray, out: &mut S)
    requires space { length (S.written out.old) + length (contents (values_in cells.now.slots)) ≤ S.ROOM }
    ensures written { S.written out.new ≡ S.written out.old ++ contents (values_in cells.now.slots) }
{
    let slots = cells.as_slice();
    for slot in slots {
        write_slot(slot, out);
    }
}

// Writes the image.
#[tactic(auto, using(crate::proofs::Writing::image_parts))]
pub(crate) fn write_image<S: Sink>(cells: &CellArray, out: &mut S)
    requires empty { S.written out.old ≡ [] }
    requires space { length (encoded (values_in cells.now.slots)) ≤ S.ROOM }
    ensures written { S.written out.new ≡ encoded (values_in cells.now.slots) }
{
    write_pairs(cells, out);
    write_contents(cells, out);
}
