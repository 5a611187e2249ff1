// Putting bytes into a lent output: what replies are made of.
ghost use Rattle.grammar.specs.Writing.{Appended};

// Writes `bytes` from place `at` on, and answers the place after them.
// Where they do not fit it answers none, and writes nothing.
// A place beside the output: the caller lends the output, and nothing here allocates.
pub fn append(out: &mut [u8], at: usize, bytes: &[u8]) -> Option<usize>
    ensures cases { Appended out.old at bytes.now out.new result }
{
    let end = at.checked_add(bytes.len())?;
    // Not `get_mut`: its contract says nothing of what the whole output becomes.
    if end > out.len() {
        return None;
    }
    out[at..end].copy_from_slice(bytes);
    Some(end)
}
