// A setpoint as somebody typed it: what it stands for, or where and why it is refused.
ghost use Rattle.std.specs.Prelude.{◌≡◌, ◌≤◌, length};
ghost use Rattle.grammar.specs.Numbers.{LongestBeginning};
ghost use Rattle.tour.specs.Verdicts.{has_point, Faulty, Assessed};

use grammar::{Quantity, Text, number_prefix, print_number, read_number};
use std::fmt;

// What is wrong with bytes that are no number, at the place where they stop being one.
#[derive(Clone, Copy, PartialEq, Eq, Debug)]
pub enum Fault {
    // They end where a digit is still wanted.
    EndsEarly,
    // A fifth digit stands before the point.
    WholeDigit,
    // A seventh digit stands after the point.
    Decimal,
    // A byte stands there that no number has there.
    OtherByte,
}

impl fmt::Display for Fault {
    fn fmt<W: fmt::Write>(&self, f: &mut fmt::Formatter<W>) -> fmt::Result {
        f.write_str(match self {
            Fault::EndsEarly => "it ends where a digit is still wanted",
            Fault::WholeDigit => "a fifth digit stands before the point, where four are the most",
            Fault::Decimal => "a seventh digit stands after the point, where six are the most",
            Fault::OtherByte => "a number goes on here with a digit, or with a point after a digit",
        })
    }
}

// A setpoint that is a number, with its printed form.
#[derive(Clone, Copy)]
pub struct Taken {
    pub quantity: Quantity,
    pub printed: Text,
}

// Where and why bytes are no setpoint.
#[derive(Clone, Copy, PartialEq, Eq, Debug)]
pub struct Refused {
    pub at: usize,
    pub fault: Fault,
}

// What the supply makes of these bytes as a setpoint.
pub fn assess(typed: &[u8]) -> Result<Taken, Refused>
    ensures cases { Assessed typed.now result }
{
    let quantity = read_number(typed).ok_or_else(|| refusal_of(typed))?;
    Ok(Taken {
        quantity,
        printed: print_number(quantity),
    })
}

// Where bytes that are no number stop being one, and why.
fn refusal_of(typed: &[u8]) -> Refused
    ensures at { LongestBeginning typed.now result.at }
    ensures fault { Faulty typed.now result.at result.fault }
{
    let at = number_prefix(typed);
    Refused {
        at,
        fault: fault_at(typed, at),
    }
}

// What is wrong at this place.
fn fault_at(typed: &[u8], at: usize) -> Fault
    requires { at ≤ length typed.now }
    ensures cases { Faulty typed.now at result }
{
    let Some(byte) = typed.get(at) else {
        return Fault::EndsEarly;
    };
    if !byte.is_ascii_digit() {
        return Fault::OtherByte;
    }
    if has_point(&typed[..at]) {
        Fault::Decimal
    } else {
        Fault::WholeDigit
    }
}

fn has_point(bytes: &[u8]) -> bool
    ensures value { result ≡ has_point bytes.now }
{
    bytes.contains(&b'.')
}
