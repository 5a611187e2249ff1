// What a question asks.
use crate::requests::Question;
use std::fmt;

impl fmt::Display for Question {
    fn fmt<W: fmt::Write>(&self, f: &mut fmt::Formatter<W>) -> fmt::Result {
        match *self {
            Question::Status => f.write_str("tell the status"),
            Question::PresentLoop => f.write_str("tell the present loop"),
            Question::Target(of, _) => {
                write!(
                    f,
                    "tell the target of loop {of}, asked by {}",
                    self.command()
                )
            }
            Question::Rate(of) => write!(f, "tell the rate of loop {of}"),
            Question::Current => f.write_str("tell the current"),
            Question::Voltage => f.write_str("tell the voltage"),
            Question::Version => f.write_str("tell the version"),
            Question::Identification => f.write_str("tell the identification"),
            Question::Access => f.write_str("tell the access"),
            Question::Cell(cell) => write!(f, "tell cell {}", cell.index),
            Question::Hottest => f.write_str("tell the highest temperature"),
            Question::SensorCount => f.write_str("tell the number of sensors"),
            Question::Sensor(n) => write!(f, "tell the temperature of sensor {n}"),
        }
    }
}
