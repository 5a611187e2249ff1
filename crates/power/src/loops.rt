// The two regulation loops of a power module.
ghost use Rattle.std.specs.Prelude.{◌≡◌, Some};
ghost use Rattle.power.specs.Loops.{loop_text};

use std::fmt;

// I keeps the current constant, V the voltage. A demand is in amperes in loop I, and in volts in loop V.
#[derive(Clone, Copy, PartialEq, Eq, Debug)]
pub enum Loop {
    I,
    V,
}

impl Loop {
    pub fn name(self) -> &'static str
        ensures value { result.now ≡ loop_text self }
    {
        match self {
            Loop::I => "I",
            Loop::V => "V",
        }
    }
}

impl fmt::Display for Loop {
    ghost output = { λ l. Some (loop_text l) };

    fn fmt<W: fmt::Write>(&self, f: &mut fmt::Formatter<W>) -> fmt::Result {
        f.write_str(self.name())
    }
}
