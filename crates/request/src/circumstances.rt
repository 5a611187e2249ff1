// The facts on which it depends whether a request is accepted.
use cells::Ratings;
use grammar::Text;
use power::Loop;

// Where a line comes from: the panel, or a socket.
#[derive(Clone, Copy, PartialEq, Eq, Debug)]
pub enum Origin {
    Panel,
    Socket,
}

// Who has control: the panel in Local, the sockets in Remote.
#[derive(Clone, Copy, PartialEq, Eq, Debug)]
pub enum Control {
    Local,
    Remote,
}

// What a seat may do: Admin writes protected cells.
#[derive(Clone, Copy, PartialEq, Eq, Debug)]
pub enum Access {
    User,
    Admin,
}

#[derive(Clone, Copy)]
pub struct Circumstances {
    pub origin: Origin,
    pub control: Control,
    pub access: Access,
    // The password that raises a seat.
    pub password: Text,
    // Whether a trip stands.
    pub tripped: bool,
    pub on: bool,
    pub present: Loop,
    pub rated: Ratings,
    // The software limits.
    pub limits: Ratings,
    // Whether the store is able to save.
    pub able: bool,
    pub sensors: u8,
}
