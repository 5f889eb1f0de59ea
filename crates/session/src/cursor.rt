// A place in a session's bytes, and what is read from there on.
ghost use Rattle.std.specs.Prelude.{◌≡◌};
ghost use Rattle.session.specs.Headings.{byte_at};
ghost use Rattle.session.specs.Operands.{Operand, Taken, clock_at, constant_at, number_at, pair_at};

use crate::fault::{Cause, Fault, Layer};
use lines::{Asked, Right};

// The bytes of a session, and the place of the next: a fault has the place of its byte, which a slice of the rest would not tell.
#[derive(Drop)]
pub(crate) struct Cursor<'a> {
    bytes: &'a [u8],
    place: usize,
}

impl<'a> Cursor<'a> {
    pub(crate) fn new(bytes: &'a [u8], place: usize) -> Cursor<'a>
        ensures bytes { result.bytes.now ≡ bytes.now }
        ensures place { result.place ≡ place }
    {
        Cursor { bytes, place }
    }

    pub(crate) fn place(&self) -> usize
        ensures { result ≡ self.now.place }
    {
        self.place
    }

    // The next byte, for the reader of this layer.
    pub(crate) fn take(&mut self, layer: Layer) -> Result<u8, Fault>
        ensures { Taken layer 1 byte_at self.old result self.new }
    {
        let byte = *self.bytes.get(self.place).ok_or(Fault {
            cause: Cause::EndsEarly,
            place: self.bytes.len(),
            layer,
        })?;
        self.place += 1;
        Ok(byte)
    }

    pub(crate) fn byte(&mut self) -> Result<u8, Fault>
        ensures { Operand 1 byte_at self.old result self.new }
    {
        self.take(Layer::Operand)
    }

    // Two bytes, the high one first.
    pub(crate) fn number(&mut self) -> Result<u16, Fault>
        ensures { Operand 2 number_at self.old result self.new }
    {
        Ok(u16::from_be_bytes([self.byte()?, self.byte()?]))
    }

    // Four bytes, the high one first, in two's complement.
    pub(crate) fn constant(&mut self) -> Result<i32, Fault>
        ensures { Operand 4 constant_at self.old result self.new }
    {
        Ok(i32::from_be_bytes([self.byte()?, self.byte()?, self.byte()?, self.byte()?]))
    }

    // A pair line: the operator, X and Y.
    pub(crate) fn pair(&mut self) -> Result<Asked, Fault>
        ensures { Operand 3 pair_at self.old result self.new }
    {
        Ok(Asked {
            op: self.byte()?,
            x: self.byte()?,
            right: Right::Device(self.byte()?),
        })
    }

    // A clock line: the operator, X and the constant. It is as a pair line but for the right side, and one function with a closure for
    // that would read no plainer.
    pub(crate) fn clock(&mut self) -> Result<Asked, Fault>
        ensures { Operand 6 clock_at self.old result self.new }
    {
        Ok(Asked {
            op: self.byte()?,
            x: self.byte()?,
            right: Right::Constant(self.constant()?),
        })
    }
}
