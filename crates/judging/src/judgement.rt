// A line in its circumstances.
ghost use Rattle.request.specs.Facts.{facts_of};
ghost use Rattle.request.specs.Grounds.{Reads, refusal};
ghost use Rattle.request.specs.Laws.{InOrder};
ghost use Rattle.request.specs.Lines.{parsed, asked};
ghost use Rattle.request.specs.Requests.{request_of};

use crate::deciding::decide;
use reading::read_line;
use request::{Circumstances, LineRefusal, Request};

// What the line asks, where it is accepted, else the first ground of the table that holds.
pub fn judge(line: &[u8], c: &Circumstances) -> Result<Request, LineRefusal>
    ensures cases { Reads request_of (refusal (facts_of c.now) line.now) (asked (parsed line.now)) result }
    ensures order { InOrder (facts_of c.now) line.now }
{
    let request = read_line(line, c.sensors)?;
    decide(&request, c)?;
    Ok(request)
}
