// Why a line is refused.
ghost use Rattle.std.specs.Prelude.{◌≡◌, ◌<◌, length, Some};
ghost use Rattle.request.specs.Reasons.{reason_text};

use crate::refusals::LineRefusal;
use std::error::Error;
use std::fmt;

impl LineRefusal {
    // Kept as a function beside Display, because it carries the promise that a reason is never empty.
    pub fn reason(self) -> &'static str
        ensures value { result.now ≡ reason_text self }
        ensures told { 0 < length result.now }
    {
        match self {
            LineRefusal::LongLine => "the line has more than 1,024 bytes",
            LineRefusal::NoCommand => "the first field is no command",
            LineRefusal::FewFields => "a field is missing",
            LineRefusal::WrongField =>
                "a field is not what the command wants there, or one too many",
            LineRefusal::NoSuch => "there is no such cell or sensor",
            LineRefusal::NoNumber => "a number is wanted there",
            LineRefusal::PanelInRemote => "the panel does not write in REMOTE",
            LineRefusal::SocketInLocal => "only the panel writes in LOCAL",
            LineRefusal::NoMatch => "the password matches nothing",
            LineRefusal::NotAllowed => "the seat may not do that with this cell",
            LineRefusal::TripStanding => "a trip stands",
            LineRefusal::WhileOn => "not while on",
            LineRefusal::SameLoop => "that is the present loop",
            LineRefusal::OtherLoop => "the other loop is chosen",
            LineRefusal::WhileOff => "not while off",
            LineRefusal::OutsideRating => "outside the ratings",
            LineRefusal::OutsideLimits => "outside the software limits",
            LineRefusal::RateNotPositive => "a rate has to be above 0",
            LineRefusal::Unable => "the store is not able to save",
        }
    }
}

impl fmt::Display for LineRefusal {
    ghost output = { λ r. Some (reason_text r) };

    fn fmt<W: fmt::Write>(&self, f: &mut fmt::Formatter<W>) -> fmt::Result {
        f.write_str(self.reason())
    }
}

impl Error for LineRefusal {}
