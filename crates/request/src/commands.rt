// The commands and their names.
ghost use Rattle.std.specs.Prelude.{◌≡◌, ◌≤◌, length, Some};
ghost use Rattle.std.specs.Option.{option_map};
ghost use Rattle.request.specs.Commands.{name_of, command_of};

use grammar::same_word;
use std::fmt;

#[derive(Clone, Copy, PartialEq, Eq, Debug)]
pub enum Command {
    Mon,
    Moff,
    Mreset,
    Msave,
    Loop,
    Mwi,
    Mwir,
    Mwv,
    Mwvr,
    Msri,
    Msrv,
    Mwg,
    Password,
    Mst,
    Mri,
    Mrv,
    Ver,
    Mrid,
    Mrg,
    Mrt,
}

// The commands in the order in which a word is compared with their names. Written out, since an enum has no list of its
// variants.
static COMMANDS: [Command; 20] = [
    Command::Mon,
    Command::Moff,
    Command::Mreset,
    Command::Msave,
    Command::Loop,
    Command::Mwi,
    Command::Mwir,
    Command::Mwv,
    Command::Mwvr,
    Command::Msri,
    Command::Msrv,
    Command::Mwg,
    Command::Password,
    Command::Mst,
    Command::Mri,
    Command::Mrv,
    Command::Ver,
    Command::Mrid,
    Command::Mrg,
    Command::Mrt,
];

impl Command {
    // The command that a word names, in any letter case.
    pub fn named(word: &[u8]) -> Option<Command>
        ensures value { result ≡ command_of word.now }
    {
        Command::entry(word).copied()
    }

    // The entry of the table that a word names.
    fn entry(word: &[u8]) -> Option<&'static Command>
        ensures value { option_map (λ c. c.now) result ≡ command_of word.now }
    {
        COMMANDS
            .iter()
            .find(|command| same_word(word, command.name()))
    }

    pub fn name(self) -> &'static [u8]
        ensures value { result.now ≡ name_of self }
        ensures bound { length result.now ≤ 8 }
    {
        self.word().as_bytes()
    }

    // The name, as text.
    fn word(self) -> &'static str
        ensures value { result.now ≡ name_of self }
    {
        match self {
            Command::Mon => "MON",
            Command::Moff => "MOFF",
            Command::Mreset => "MRESET",
            Command::Msave => "MSAVE",
            Command::Loop => "LOOP",
            Command::Mwi => "MWI",
            Command::Mwir => "MWIR",
            Command::Mwv => "MWV",
            Command::Mwvr => "MWVR",
            Command::Msri => "MSRI",
            Command::Msrv => "MSRV",
            Command::Mwg => "MWG",
            Command::Password => "PASSWORD",
            Command::Mst => "MST",
            Command::Mri => "MRI",
            Command::Mrv => "MRV",
            Command::Ver => "VER",
            Command::Mrid => "MRID",
            Command::Mrg => "MRG",
            Command::Mrt => "MRT",
        }
    }
}

impl fmt::Display for Command {
    ghost output = { λ c. Some (name_of c) };

    fn fmt<W: fmt::Write>(&self, f: &mut fmt::Formatter<W>) -> fmt::Result {
        f.write_str(self.word())
    }
}
