// What the recording does.
ghost use Rattle.std.specs.Prelude.{◌≡◌, ◌∷◌, slice_index_or, vec_items};
ghost use Rattle.power.specs.Meaning.{advanced};
ghost use Rattle.power.specs.Recordings.{readings_of, shown_of, records_of, place_of, place_after, tape_readings, recording_meaning, recording_start, blank};
ghost use Rattle.std.proofs.Common.{rules};
ghost use Rattle.power.specs.Replay.{kept-sound};

use super::{Record, Recording, Tape};
use crate::modules::PowerModule;
use crate::plant::Plant;
use crate::setting::Setting;
use crate::supply::Supply;
use grammar::Quantity;

// Bits 17, 18 and 20 to 25.
const TRIP_LINES: u32 = 0x3F6_0000;

// What is shown before the first record: zero everywhere.
const BLANK: Record = Record {
    lines: 0,
    current: 0,
    voltage: 0,
    temperatures: [0; 4],
};

impl Recording {
    // Off, in loop I, at demand 0, before the first of these records.
    pub fn new(records: Vec<Record>) -> Recording
        ensures value { recording_meaning result ≡ recording_start }
        ensures items { records_of result ≡ records.items }
        ensures first { place_of result ≡ 0 }
    {
        Supply::with_plant(Tape { records, place: 0 })
    }

    // So many milliseconds. The magnet has such a function too.
    // The two have contracts of their own, so one function for both would be no plainer.
    pub fn advance_by(&mut self, n: u32)
        ensures items { records_of self.new ≡ records_of self.old }
        ensures run { place_of self.new ≡ place_after (records_of self.old) (place_of self.old) n }
        ensures after { recording_meaning self.new ≡ advanced (recording_meaning self.old) (shown_of (records_of self.old) (place_after (records_of self.old) (place_of self.old) n)) }
    {
        for _ in 0..n {
            self.advance();
        }
    }
}

impl Tape {
    // The record that is shown; before the first one, zero everywhere.
    fn shown(&self) -> Record
        ensures value { readings_of result ≡ tape_readings self.now }
    {
        self.records[..self.place].last().copied().unwrap_or(BLANK)
    }
}

// Only the trip lines are shown, and each quantity is clamped.
impl Plant for Tape {
    const SENSORS: u8 = 4;

    ghost SENSORS = { 4 };

    ghost readings = { tape_readings };

    ghost steps = { λ setting a b. (vec_items b.records ≡ vec_items a.records) × (b.place ≡ place_after (vec_items a.records) a.place 1) };

    ghost counted = { Prim.search rules };

    ghost sound = { λ t. kept-sound (slice_index_or (blank ∷ vec_items t.records) t.place blank) };

    // The next record, or the last one again.
    fn advance(&mut self, _setting: Setting) {
        if self.place < self.records.len() {
            self.place += 1;
        }
    }

    fn lines(&self) -> u32 {
        self.shown().lines & TRIP_LINES
    }

    fn current(&self) -> Quantity {
        Quantity::clamped(self.shown().current)
    }

    fn voltage(&self) -> Quantity {
        Quantity::clamped(self.shown().voltage)
    }

    fn temperature(&self, sensor: u8) -> Quantity {
        let temperatures = self.shown().temperatures;
        let reading = sensor
            .checked_sub(1)
            .and_then(|i| temperatures.get(usize::from(i)).copied());
        Quantity::clamped(reading.unwrap_or(0))
    }
}
