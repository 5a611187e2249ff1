// What a request asks.
use crate::requests::{Approach, Cell, Request};
use cells::{CellValue, Role};
use grammar::print_mask;
use std::fmt;

impl fmt::Display for Request {
    fn fmt<W: fmt::Write>(&self, f: &mut fmt::Formatter<W>) -> fmt::Result {
        match *self {
            Request::SwitchOn => f.write_str("switch on"),
            Request::SwitchOff => f.write_str("switch off"),
            Request::Reset => f.write_str("reset"),
            Request::Save => f.write_str("save the cells"),
            Request::ChooseLoop(choice) => write!(f, "choose loop {choice}"),
            Request::Setpoint(of, Approach::AtOnce, v) => {
                write!(f, "set loop {of} to {v} at once")
            }
            Request::Setpoint(of, Approach::Ramp, v) => write!(f, "ramp loop {of} to {v}"),
            Request::SetRate(of, v) => write!(f, "set the rate of loop {of} to {v}"),
            Request::WriteCell(cell, value) => write_cell_phrase(cell, value, f),
            Request::Password(Some(_)) => f.write_str("give a password"),
            Request::Password(None) => f.write_str("give a password that is no text"),
            Request::Ask(question) => write!(f, "{question}"),
        }
    }
}

// A password is not shown.
fn write_cell_phrase<W: fmt::Write>(
    cell: Cell,
    value: CellValue,
    f: &mut fmt::Formatter<W>,
) -> fmt::Result {
    let index = cell.index;
    if cell.role == Role::Password {
        return write!(f, "write a password to cell {index}");
    }
    match value {
        CellValue::Number(v) => write!(f, "write {v} to cell {index}"),
        CellValue::Mask(m) => write!(f, "write {} to cell {index}", print_mask(m)),
        CellValue::Text(text) => write!(f, "write {text} to cell {index}"),
    }
}
