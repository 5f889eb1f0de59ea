// A session's stages: unopened until its heading is accepted, then giving commands until Z, then over. Each stage is a type, and
// reading moves from one to the next: there is no command to take before the heading, and no reader to take one from after Z.
ghost use Rattle.std.specs.Prelude.{◌≡◌};
ghost use Rattle.session.specs.Commands.{unknown_at};
ghost use Rattle.session.specs.Endings.{Ends};
ghost use Rattle.session.specs.Headings.{Opens};
ghost use Rattle.session.specs.Stages.{Forward, Gives, bytes_of, place_of};

use crate::cursor::Cursor;
use crate::fault::{Cause, Fault, Layer};
use crate::heading::{Heading, first_wrong};
use lines::Call;

// The most bytes that a session may have.
pub const LONGEST: usize = 60000;

// A session whose heading is yet to be read.
#[derive(Drop)]
pub struct Unopened<'a> {
    bytes: &'a [u8],
}

// A session whose heading was accepted, at the next command.
#[derive(Drop)]
pub struct Commands<'a> {
    cursor: Cursor<'a>,
    heading: Heading,
}

impl<'a> Unopened<'a> {
    pub fn new(bytes: &'a [u8]) -> Unopened<'a>
        ensures { result.bytes.now ≡ bytes.now }
    {
        Unopened { bytes }
    }

    pub fn open(self) -> Result<Commands<'a>, Fault>
        ensures { Opens self.entry.bytes.now result }
    {
        let bytes = self.bytes;
        if bytes.len() > LONGEST {
            return Err(Fault {
                cause: Cause::TooLong,
                place: LONGEST,
                layer: Layer::Heading,
            });
        }
        if let Some(place) = first_wrong(bytes) {
            return Err(Fault {
                cause: Cause::BadHeading,
                place,
                layer: Layer::Heading,
            });
        }
        Ok(Commands {
            cursor: Cursor::new(bytes, 6),
            heading: Heading {
                code: bytes[4],
                devices: bytes[5],
            },
        })
    }
}

// The fault of a byte that begins no command.
fn unknown(place: usize) -> Fault
    ensures { result ≡ unknown_at place }
{
    Fault {
        cause: Cause::UnknownCommand,
        place,
        layer: Layer::Command,
    }
}

impl<'a> Commands<'a> {
    pub fn heading(&self) -> Heading
        ensures { result ≡ self.now.heading }
    {
        self.heading
    }

    // Takes the next command, as a call, and gives the reader that stands behind it; at the end of the session there is none. Later bytes
    // are not read.
    pub fn next_command(mut self) -> Result<Option<(Call, Commands<'a>)>, Fault>
        ensures gives { Gives self.entry result }
        ensures forward { Forward self.entry result }
    {
        let place = self.cursor.place();
        let call = match self.cursor.take(Layer::Command)? {
            b'E' => Call::Enter(self.cursor.number()?, self.cursor.pair()?),
            b'C' => Call::Enter(self.cursor.number()?, self.cursor.clock()?),
            b'S' => Call::Strike(self.cursor.number()?),
            b'T' => Call::Settle,
            b'W' => Call::Window(self.cursor.byte()?),
            b'F' => Call::Follows(self.cursor.pair()?),
            b'G' => Call::Follows(self.cursor.clock()?),
            b'Z' => return Ok(None),
            _ => return Err(unknown(place)),
        };
        Ok(Some((call, self)))
    }

    // Takes the command that ends the session. Later bytes are not read. It stands beside `next_command` for a program that knows no other
    // command.
    pub fn end(mut self) -> Result<(), Fault>
        ensures { Ends (bytes_of self.entry) (place_of self.entry) result }
    {
        let place = self.cursor.place();
        if self.cursor.take(Layer::Command)? != b'Z' {
            return Err(unknown(place));
        }
        Ok(())
    }
}
