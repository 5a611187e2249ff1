// A power module that replays readings from a table of records.
// It shows one of its records, or none yet: that comes with the value.
ghost use Rattle.std.specs.Prelude.{◌≤◌, vec_len};

use crate::supply::Supply;

pub type Recording = Supply<Tape>;

// Lines and readings of one millisecond as they were stored, in millionths, in range or not.
#[derive(Clone, Copy, Debug)]
pub struct Record {
    pub lines: u32,
    pub current: i64,
    pub voltage: i64,
    pub temperatures: [i64; 4],
}

// `place` is the number of the record shown, counted from 1, and 0 before the first advance.
#[derive(Drop)]
pub struct Tape {
    records: Vec<Record>,
    place: usize,
    ghost within: { place ≤ vec_len records },
}

mod methods;
