// Reading the image of cells.
ghost use Rattle.std.specs.Prelude.{◌≡◌, ◌+◌, ◌*◌, ◌<◌, ◌≤◌, true, false, length, replicate, take, MatchOption};
ghost use Rattle.std.specs.Option.{option_map};
ghost use Rattle.cells.specs.Directory.{kinds};
ghost use Rattle.cells.specs.Kinded.{fits, values_in};
ghost use Rattle.cells.specs.Values.{absent, slot_of};
ghost use Rattle.image.specs.Image.{from16, sized, value_in, agrees, or_absent, decoded, Means};

use crate::write::CONTENTS;
use cells::{CellArray, Kind, Stored, all_roles};
use grammar::{TEXT_MOST, Text};

// The cells that bytes mean: those with whose image they begin, and all absent where there are none such.
pub(crate) fn read_cells(bytes: &[u8]) -> CellArray
    ensures value { values_in result.slots ≡ decoded kinds bytes.now }
    ensures exact { Means kinds bytes.now (values_in result.slots) }
{
    decode(bytes)
}

// As `read_cells`, but for the law.
#[tactic(auto, using(crate::proofs::Reading::reading))]
fn decode(bytes: &[u8]) -> CellArray
    ensures value { values_in result.slots ≡ decoded kinds bytes.now }
{
    let mut cells = CellArray::absent();
    if bytes.len() < CONTENTS {
        return cells;
    }
    if decode_into(&mut cells, bytes).is_none() {
        return CellArray::absent();
    }
    cells
}

// Fills absent cells with those with whose image the bytes begin. Answers none where there are none such; some may then
// have been filled. In place, since an array of cells is large.
#[tactic(auto, using(crate::proofs::Reading::reading))]
fn decode_into(cells: &mut CellArray, bytes: &[u8]) -> Option<()>
    requires pairs { 156 ≤ length bytes.now }
    requires blank { values_in cells.old.slots ≡ replicate 39 absent }
    ensures value { or_absent 39 (option_map (λ _. values_in cells.new.slots) result) ≡ decoded kinds bytes.now }
{
    let roles = all_roles();
    let mut at = CONTENTS;
    for (i, role) in roles.iter().enumerate() {
        let kind = role.kind();
        let content = Pair::read(bytes, i).content(kind, at, &bytes[at..])?;
        cells.fill(i, read_value(kind, content)).ok()?;
        at += content.len();
    }
    Some(())
}

// Where the contents of a cell start, and how many bytes they are.
#[derive(Clone, Copy)]
struct Pair {
    offset: usize,
    size: usize,
}

impl Pair {
    // The pair of the cell at a place of the directory. By its place, and not by chunks of four bytes: the same turn of
    // the loop reads the contents, from elsewhere in the same bytes.
    fn read(bytes: &[u8], i: usize) -> Pair
        requires { 4 * i + 4 ≤ length bytes.now }
        ensures offset { result.offset ≡ from16 bytes.now (4 * i) }
        ensures size { result.size ≡ from16 bytes.now (4 * i + 2) }
    {
        Pair {
            offset: number_at(bytes, 4 * i),
            size: number_at(bytes, 4 * i + 2),
        }
    }

    // The contents of a cell of this kind, which are to start at `at`, where these bytes are. None where the pair tells
    // another place, a length that no such cell has, or more than there is.
    fn content(self, kind: Kind, at: usize, rest: &[u8]) -> Option<&[u8]>
        ensures cases { MatchOption result (agrees kind self.offset self.size at (length rest.now) ≡ false) (λ c. (agrees kind self.offset self.size at (length rest.now) ≡ true) × (c.now ≡ take self.size rest.now)) }
    {
        if self.offset != at || !is_size(kind, self.size) {
            return None;
        }
        rest.get(..self.size)
    }
}

// The number of two bytes at a place, high byte first.
fn number_at(bytes: &[u8], i: usize) -> usize
    requires { i + 1 < length bytes.now }
    ensures value { result ≡ from16 bytes.now i }
{
    usize::from(u16::from_be_bytes([bytes[i], bytes[i + 1]]))
}

// Whether a cell of this kind may have this length.
fn is_size(kind: Kind, n: usize) -> bool
    ensures value { result ≡ sized kind n }
{
    match kind {
        Kind::Number => n == 0 || n == 8,
        Kind::Mask => n == 0 || n == 4,
        Kind::Text => n <= TEXT_MOST,
    }
}

// The value of a cell from its contents; none where there are no bytes.
fn read_value(kind: Kind, bytes: &[u8]) -> Option<Stored>
    requires { sized kind (length bytes.now) ≡ true }
    ensures value { slot_of result ≡ value_in kind bytes.now }
    ensures kind { fits kind (slot_of result) ≡ true }
{
    if bytes.is_empty() {
        return None;
    }
    match kind {
        Kind::Number => Some(Stored::Number(i64::from_be_bytes(<[u8; 8]>::try_from(bytes).ok()?))),
        Kind::Mask => Some(Stored::Mask(u32::from_be_bytes(<[u8; 4]>::try_from(bytes).ok()?))),
        Kind::Text => Text::new(bytes).map(Stored::Text),
    }
}
