// Why a line or a call is refused. Each ground has a number, by which people know it.
ghost use Rattle.std.specs.Prelude.{◌≡◌, ◌<◌, Some};
ghost use Rattle.grammar.specs.Numerals.{numeral_of};
ghost use Rattle.request.specs.Refusals.{line_number, call_number, two_digits};

// The grounds on which a line is refused, in the order in which they are tried.
// Some grounds share a number.
#[derive(Clone, Copy, PartialEq, Eq, Debug)]
pub enum LineRefusal {
    // More than 1,024 bytes.
    LongLine = 99,
    // The first field names no command.
    NoCommand = 1,
    FewFields = 4,
    // Too many fields, or a field that is not the wanted word, digits, mask or text.
    WrongField = 2,
    // The cell is not in the directory, or the sensor does not exist.
    NoSuch = 3,
    // A number field is no number.
    NoNumber = 12,
    PanelInRemote = 18,
    SocketInLocal = 15,
    // The password matches nothing.
    NoMatch = 7,
    // The seat may not write, or read, the cell.
    NotAllowed = 5,
    TripStanding = 8,
    WhileOn = 9,
    SameLoop = 19,
    OtherLoop = 20,
    WhileOff = 13,
    OutsideRating = 10,
    OutsideLimits = 11,
    RateNotPositive = 14,
    // The store is not able to save.
    Unable = 6,
}

// The grounds on which a call is refused before there is a line to answer.
#[derive(Clone, Copy, PartialEq, Eq, Debug)]
pub enum CallRefusal {
    // A datagram above 8,192 bytes.
    LongDatagram = 201,
    NoSuchSeat = 202,
    // An output shorter than 64 bytes for each line.
    ShortOutput = 203,
}

impl LineRefusal {
    pub fn number(self) -> u8
        ensures value { result ≡ line_number self }
        ensures bound { result < 100 }
    {
        self as u8
    }

    // The number as a reply has it: two decimal digits, which read back as the number.
    pub fn digits(self) -> [u8; 2]
        ensures value { result ≡ two_digits (line_number self) }
        ensures back { numeral_of 10 2 result ≡ Some (line_number self) }
    {
        let n = self.number();
        [b'0' + n / 10, b'0' + n % 10]
    }
}

impl CallRefusal {
    pub fn number(self) -> u16
        ensures value { result ≡ call_number self }
    {
        self as u16
    }
}
