// What a cell is for, which kind of value it holds, and who may write it.
ghost use Rattle.std.specs.Prelude.{◌≡◌};
ghost use Rattle.cells.specs.Roles.{kind_of, writer_of, protected};

// A cell is a stored parameter.
#[derive(Clone, Copy, PartialEq, Eq, Debug)]
pub enum Role {
    Model,
    Identification,
    // The software limits of loops I and V.
    LowI,
    HighI,
    LowV,
    HighV,
    // The rates with which the loops start.
    RateI,
    RateV,
    Password,
    InterlockEnable,
    InterlockActivation,
    // An operator's own.
    Operator,
}

#[derive(Clone, Copy, PartialEq, Eq, Debug)]
pub enum Kind {
    Number,
    Mask,
    Text,
}

#[derive(Clone, Copy, PartialEq, Eq, Debug)]
pub enum Writer {
    Nobody,
    Admin,
    User,
}

impl Role {
    pub fn kind(self) -> Kind
        ensures value { result ≡ kind_of self }
    {
        match self {
            Role::Model | Role::Identification | Role::Password => Kind::Text,
            Role::InterlockEnable | Role::InterlockActivation => Kind::Mask,
            _ => Kind::Number,
        }
    }

    pub fn writer(self) -> Writer
        ensures value { result ≡ writer_of self }
    {
        match self {
            Role::Model => Writer::Nobody,
            Role::RateI | Role::RateV | Role::Operator => Writer::User,
            _ => Writer::Admin,
        }
    }
}

impl Writer {
    // A cell is protected if ADMIN or nobody writes it.
    pub fn is_protected(self) -> bool
        ensures value { result ≡ protected self }
    {
        matches!(self, Writer::Nobody | Writer::Admin)
    }
}
