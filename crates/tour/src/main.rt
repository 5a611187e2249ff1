// A tour of what stands so far, told in printed notes.
#![tactic(auto)]

mod heating;
mod keeping;
mod setpoints;

use cells::{CellStore, Stored, place_of};
use grammar::{Quantity, Text, read_number};
use heating::run_to_trip;
use image::ImageStore;
use keeping::keep_number;
use power::{Loop, Magnet, PowerModule, start};
use setpoints::{Refused, Taken, assess};
use std::io;

// Setpoints in amperes, as people at a laboratory typed them.
const TYPED: [&str; 12] = [
    "-0",
    "007.50",
    "10.5875",
    "-2.000001",
    "9999.999999",
    "10000",
    "1.0000001",
    "5,2",
    "1e3",
    ".5",
    "12.",
    "",
];

// The demand of the magnet that is heated, and the longest time that it is given.
const FULL_CURRENT: i64 = 20_000_000;

const LONGEST: u32 = 1_000;

fn main(rt: HostRuntime) -> io::Result<()> {
    review_setpoints(&rt)?;
    println!(rt; "")?;
    heat_magnet(&rt)?;
    println!(rt; "")?;
    keep_cells(&rt)
}

// The lab's list, one line for each setpoint.
fn review_setpoints(rt: &HostRuntime) -> io::Result<()> {
    println!(rt; "1. Setpoints as people typed them")?;
    println!(rt; "")?;
    println!(rt;
        "A laboratory hands over a list of setpoints in amperes. The supply counts in whole"
    )?;
    println!(rt;
        "millionths. It takes a number in one form only: an optional minus, one to four digits,"
    )?;
    println!(rt;
        "then perhaps a point and one to six digits. And it prints each value in one form only."
    )?;
    println!(rt;
        "Below is what was typed, the millionths that it stands for, and what the supply prints,"
    )?;
    println!(rt; "which is then read again. What is no number is refused, and never guessed at.")?;
    println!(rt; "")?;
    for typed in &TYPED {
        show_setpoint(rt, typed)?;
    }
    println!(rt; "")?;
    println!(rt;
        "That a printed value reads back as itself, and that no other plain text stands for it,"
    )?;
    println!(rt; "is proved for every quantity, and not only seen in this list.")
}

fn show_setpoint(rt: &HostRuntime, typed: &str) -> io::Result<()> {
    match assess(typed.as_bytes()) {
        Ok(Taken { quantity, printed }) => {
            let millionths = quantity.millionths();
            let back = back_again(&printed, quantity);
            println!(rt;
                "  '{typed}' is {millionths} millionths, and prints as {printed}, which {back}."
            )
        }
        Err(Refused { at, fault }) => {
            let place = at.saturating_add(1);
            println!(rt; "  '{typed}' is refused at byte {place}: {fault}.")
        }
    }
}

fn back_again(printed: &Text, quantity: Quantity) -> &'static str {
    if read_number(printed.as_bytes()) == Some(quantity) {
        "reads back the same"
    } else {
        "DOES NOT READ BACK"
    }
}

// A magnet at full current, until its supply trips.
fn heat_magnet(rt: &HostRuntime) -> io::Result<()> {
    println!(rt; "2. A magnet that is heated until it trips")?;
    println!(rt; "")?;
    println!(rt;
        "The magnet model is switched on in loop I (constant current) and told 20 A. In each"
    )?;
    println!(rt;
        "millisecond its current goes a sixteenth of the way that is left. Its one sensor reads"
    )?;
    println!(rt;
        "25 degrees and 3 more for each ampere, and above 80 degrees its trip line 20 goes up."
    )?;
    println!(rt; "")?;
    let mut magnet = Magnet::new();
    if start(&mut magnet, Loop::I, Quantity::clamped(FULL_CURRENT)).is_err() {
        return println!(rt; "  The magnet refused the demand.");
    }
    let mut elapsed: u32 = 0;
    for steps in [1, 1, 1, 7, 28] {
        magnet.advance_by(steps);
        elapsed = elapsed.saturating_add(steps);
        show_magnet(rt, elapsed, &magnet)?;
    }
    match run_to_trip(&mut magnet, LONGEST) {
        Some(more) => {
            show_magnet(rt, elapsed.saturating_add(more), &magnet)?;
            println!(rt;
                "  Line 20 is up, since the sensor reads above 80 degrees: the supply trips here."
            )?;
        }
        None => println!(rt; "  No line came up within {LONGEST} ms more.")?,
    }
    println!(rt; "")?;
    println!(rt;
        "That the current never passes its goal, and never moves away from it, is proved for"
    )?;
    println!(rt; "every goal and any number of milliseconds.")
}

fn show_magnet(rt: &HostRuntime, elapsed: u32, magnet: &Magnet) -> io::Result<()> {
    let amperes = magnet.current();
    let degrees = magnet.temperature(1);
    let line = if magnet.live_lines() == 0 {
        "down"
    } else {
        "up"
    };
    println!(rt; "  after {elapsed} ms: {amperes} A, {degrees} degrees, line 20 is {line}")
}

// Three cells, saved into the bytes of an image and read from them again.
fn keep_cells(rt: &HostRuntime) -> io::Result<()> {
    introduce_cells(rt)?;
    let mut store = ImageStore::new(vec![in rt.alloc(); 0u8; 200]?);
    // Unwrapped, it would need a proof of its own here.
    if let Some(name) = Text::new(b"HALL-B-Q7") {
        store.set(1, Stored::Text(name));
    }
    store.set(11, Stored::Number(5_000_000));
    if keep_number(&mut store, 100, -2).is_err() {
        return println!(rt; "  The image does not fit its 200 bytes.");
    }
    for cell in 0..128u32 {
        if let Some(place) = place_of(cell) {
            show_pair(rt, cell, place, store.as_bytes())?;
        }
    }
    println!(rt; "")?;
    show_again(rt, &ImageStore::new(store.into_bytes()))
}

fn introduce_cells(rt: &HostRuntime) -> io::Result<()> {
    println!(rt; "3. Parameter cells in an image of bytes")?;
    println!(rt; "")?;
    println!(rt;
        "A store over 200 bytes of zero has every cell absent. Cell 1, the identification, is"
    )?;
    println!(rt;
        "set to HALL-B-Q7, cell 11, the highest current, to 5 A, and cell 100, an operator's, to"
    )?;
    println!(rt;
        "two millionths below zero. Saving lays out 39 pairs of offset and length, one for each"
    )?;
    println!(rt;
        "cell, and then the contents, every number high byte first. The cells that are there:"
    )?;
    println!(rt; "")
}

// What a store over the saved bytes reads back.
fn show_again(rt: &HostRuntime, again: &ImageStore) -> io::Result<()> {
    println!(rt; "A second store over the same bytes reads them back:")?;
    let identification = again
        .get(1)
        .and_then(Stored::text)
        .unwrap_or_else(Text::absent);
    let highest = again.get(11).and_then(Stored::number).unwrap_or(0);
    let operator = again.get(100).and_then(Stored::number).unwrap_or(0);
    println!(rt;
        "  cell 1 is {identification}, cell 11 is {highest} millionths, cell 100 is {operator}."
    )?;
    println!(rt; "")?;
    println!(rt;
        "That whatever was saved is what a later store over the same bytes starts with is proved"
    )?;
    println!(rt; "for all values of all 39 cells.")
}

// One pair of the image, with the bytes that it points to; nothing for a cell that is absent.
fn show_pair(rt: &HostRuntime, cell: u32, place: usize, bytes: &[u8]) -> io::Result<()> {
    let pair = place.saturating_mul(4);
    let offset = number_at(bytes, pair);
    let size = number_at(bytes, pair.saturating_add(2));
    if size == 0 {
        return Ok(());
    }
    print!(rt; "  cell {cell}: offset {offset}, length {size}, content")?;
    for b in bytes.iter().skip(offset).take(size) {
        print!(rt; " {b:02x}")?;
    }
    println!(rt; "")
}

// The number of two bytes, high byte first; a byte past the end counts 0. The image's own reading asks that both bytes
// are there, which a program that shows any bytes cannot promise.
fn number_at(bytes: &[u8], i: usize) -> usize {
    usize::from(u16::from_be_bytes([byte_at(bytes, i), byte_at(bytes, i.saturating_add(1))]))
}

fn byte_at(bytes: &[u8], i: usize) -> u8 {
    bytes.get(i).copied().unwrap_or(0)
}
