ghost use Rattle.std.specs.Prelude.{◌≡◌};
ghost use Rattle.session.specs.Faults.{number_of};

// The reader that met a fault.
#[derive(Clone, Copy, Debug, PartialEq)]
pub enum Layer {
    Heading,
    Command,
    Operand,
}

// What is wrong with a session, and its number.
#[derive(Clone, Copy, Debug, PartialEq)]
pub enum Cause {
    // more bytes than a session may have
    TooLong = 1,
    // a short or wrong heading
    BadHeading = 2,
    // a byte that begins no command
    UnknownCommand = 3,
    // no byte where a command or an operand is due
    EndsEarly = 4,
}

impl Cause {
    // The cast alone would tell a reader less than the name.
    pub fn number(self) -> u8
        ensures { result ≡ number_of self }
    {
        self as u8
    }
}

// Why a session cannot be read on: the cause, the place of the byte, counted from 0, and the reader that met it.
#[derive(Clone, Copy, Debug, PartialEq)]
pub struct Fault {
    pub cause: Cause,
    pub place: usize,
    pub layer: Layer,
}
