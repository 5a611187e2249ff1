// The status register.
ghost use Rattle.std.specs.Prelude.{◌≡◌};
ghost use Rattle.control.specs.Status.{register_of};

use power::Loop;
use request::Control;

// What the register shows.
#[derive(Clone, Copy)]
pub struct Status {
    pub on: bool,
    // The latched trips, in their own bits; any others do not show.
    pub trips: u32,
    pub control: Control,
    pub present: Loop,
    // The demand is not at its target.
    pub ramping: bool,
}

// Bits 17 to 27.
const TRIP_BITS: u32 = 0xFFE_0000;

impl Status {
    pub fn register(&self) -> u32
        ensures value { result ≡ register_of self.now }
    {
        u32::from(self.on)
            + (u32::from(self.trips != 0) << 1)
            + (u32::from(self.control == Control::Local) << 2)
            + (u32::from(self.present == Loop::V) << 5)
            + (u32::from(self.ramping) << 12)
            + (self.trips & TRIP_BITS)
    }
}
