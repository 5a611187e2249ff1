// Interlocks and trips, as bits.
ghost use Rattle.std.specs.Prelude.{◌≡◌, ◌+◌, ◌^◌, ◌<◌, if◌then◌else◌};
ghost use Rattle.control.specs.Trips.{bit_at, is_active, interlocks, tick_trips, latched, left_by_reset};

// The trip bit of interlock 1; interlock 2 has the next.
const FIRST_INTERLOCK: u32 = 26;

// How the two interlocks are set, interlock n by bit n-1: whether it is enabled, and the level that activates it.
#[derive(Clone, Copy, PartialEq, Eq, Debug)]
pub struct Interlocks {
    pub enable: u32,
    pub activation: u32,
}

impl Interlocks {
    // The trip bits of those that are active: enabled, with a level (bit n-1 of the levels) that activates them.
    // Higher bits of the levels do not count.
    pub fn active(self, levels: u8) -> u32
        ensures value { result ≡ interlocks self.enable self.activation levels }
        ensures bound { result < 2 ^ 28 }
    {
        self.trip_bit(0, levels) + self.trip_bit(1, levels)
    }

    // The trip bit of the interlock that goes by bit `n`, where it is active.
    fn trip_bit(self, n: u32, levels: u8) -> u32
        requires { n < 2 }
        ensures value { result ≡ (if is_active n self.enable self.activation levels then 2 ^ (26 + n) else 0) }
    {
        let enabled = bit_at(self.enable, n);
        if enabled && bit_at(u32::from(levels), n) == bit_at(self.activation, n) {
            1 << (FIRST_INTERLOCK + n)
        } else {
            0
        }
    }
}

fn bit_at(mask: u32, n: u32) -> bool
    requires { n < 2 }
    ensures value { result ≡ bit_at n mask }
{
    (mask >> n) % 2 == 1
}

// What may trip in a tick: the live lines that are up, and the trip bits of the active interlocks.
#[derive(Clone, Copy, PartialEq, Eq, Debug)]
pub struct Causes {
    pub lines: u32,
    pub interlocks: u32,
}

impl Causes {
    // Whether the tick trips: a live line is up, or an interlock is active.
    pub fn trips(self) -> bool
        ensures value { result ≡ tick_trips self.lines self.interlocks }
    {
        self.lines != 0 || self.interlocks != 0
    }

    // The trips after a tick that trips: its lines and interlocks are added.
    pub fn latched_on(self, trips: u32) -> u32
        ensures value { result ≡ latched trips self.lines self.interlocks }
    {
        trips | (self.lines | self.interlocks)
    }

    // The trips that a reset leaves: the lines that are live now, and the interlocks active at the last tick.
    pub fn left_by_reset(self) -> u32
        ensures value { result ≡ left_by_reset self.lines self.interlocks }
    {
        self.lines | self.interlocks
    }
}
