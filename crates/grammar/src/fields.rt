// The fields of a line, which is split at its colons.
ghost use Rattle.std.specs.Prelude.{◌≡◌, ◌≤◌, ◌==◌, length, count_by};
ghost use Rattle.grammar.specs.Fields.{fields, field, ExactFields};

// The first three fields of a line, empty where it has fewer, and how many it has in all:
// a line may have more fields than three, and empty ones count.
#[derive(Clone, Copy)]
pub struct Fields<'a> {
    pub first: &'a [u8],
    pub second: &'a [u8],
    pub third: &'a [u8],
    pub count: usize,
}

// An empty field counts, so that an empty line is one empty field.
pub fn split_fields(line: &[u8]) -> Fields<'_>
    ensures first { result.first.now ≡ field 0 (fields line.now) }
    ensures second { result.second.now ≡ field 1 (fields line.now) }
    ensures third { result.third.now ≡ field 2 (fields line.now) }
    ensures len { result.count ≡ length (fields line.now) }
    ensures exact { ExactFields line.now }
{
    let mut fields = line.split(|b| *b == b':');
    Fields {
        first: fields.next().unwrap_or(b""),
        second: fields.next().unwrap_or(b""),
        third: fields.next().unwrap_or(b""),
        count: count_colons(line) + 1,
    }
}

// How many colons a line has: a field ends at each, and one more at the end of the line. As a sum, since a line may be
// all colons: counting what a filter lets pass, or the parts of a split, takes more than twice the time there.
fn count_colons(line: &[u8]) -> usize
    ensures value { result ≡ count_by (λ c. c == 58) line.now }
    ensures bound { result ≤ length line.now }
{
    line.iter().map(|b| usize::from(*b == b':')).sum()
}
