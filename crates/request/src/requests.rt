// What a line asks.
ghost use Rattle.std.specs.Prelude.{◌≡◌};
ghost use Rattle.request.specs.Asking.{asking};

use crate::commands::Command;
use cells::{CellValue, Role};
use grammar::{Quantity, Text};
use power::Loop;

// A cell of the directory, with what it is for.
#[derive(Clone, Copy, PartialEq, Eq, Debug)]
pub struct Cell {
    pub index: u32,
    pub role: Role,
}

// How the demand goes to a setpoint: at once, or by a ramp from where it is.
#[derive(Clone, Copy, PartialEq, Eq, Debug)]
pub enum Approach {
    AtOnce,
    Ramp,
}

#[derive(Clone, Copy, PartialEq, Eq, Debug)]
pub enum Question {
    Status,
    PresentLoop,
    // The target of a loop; asked for by the command that sets it with this approach.
    Target(Loop, Approach),
    Rate(Loop),
    Current,
    Voltage,
    Version,
    Identification,
    Access,
    Cell(Cell),
    Hottest,
    SensorCount,
    Sensor(u8),
}

impl Question {
    // The command by which it is asked.
    pub fn command(self) -> Command
        ensures value { result ≡ asking self }
    {
        match self {
            Question::Status => Command::Mst,
            Question::PresentLoop => Command::Loop,
            Question::Target(Loop::I, Approach::AtOnce) => Command::Mwi,
            Question::Target(Loop::I, Approach::Ramp) => Command::Mwir,
            Question::Target(Loop::V, Approach::AtOnce) => Command::Mwv,
            Question::Target(Loop::V, Approach::Ramp) => Command::Mwvr,
            Question::Rate(Loop::I) => Command::Msri,
            Question::Rate(Loop::V) => Command::Msrv,
            Question::Current => Command::Mri,
            Question::Voltage => Command::Mrv,
            Question::Version => Command::Ver,
            Question::Identification => Command::Mrid,
            Question::Access => Command::Password,
            Question::Cell(_) => Command::Mrg,
            Question::Hottest | Question::SensorCount | Question::Sensor(_) => Command::Mrt,
        }
    }
}

// All but the questions are writes.
#[derive(Clone, Copy)]
pub enum Request {
    SwitchOn,
    SwitchOff,
    Reset,
    Save,
    ChooseLoop(Loop),
    Setpoint(Loop, Approach, Quantity),
    SetRate(Loop, Quantity),
    WriteCell(Cell, CellValue),
    // A word that is no text is none: it matches nothing.
    Password(Option<Text>),
    Ask(Question),
}
