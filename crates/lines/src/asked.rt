ghost use Rattle.std.specs.Prelude.{◌≡◌, Decides};
ghost use Rattle.lines.specs.Asking.{Foreign, Outside, SetsItself, written};
ghost use Rattle.lines.specs.Operators.{byte_of};
ghost use Rattle.lines.specs.Proper.{Same};
ghost use Rattle.lines.specs.declared.line.Right.TheVariants.{Constant, Device};

use crate::line::{Line, Right};
use crate::operator::Operator;

// A line as it is asked for: its operator is a byte still, and nothing of it is tested. A book tests the byte in its turn among the
// checks of a call.
#[derive(Clone, Copy, Debug, PartialEq, Eq)]
pub struct Asked {
    pub x: u8,
    pub op: u8,
    pub right: Right,
}

impl Asked {
    // A pair line, of the devices x and y.
    pub fn pair(x: u8, op: u8, y: u8) -> Asked
        ensures left { result.x ≡ x }
        ensures op { result.op ≡ op }
        ensures right { result.right ≡ Device y }
    {
        Asked {
            x,
            op,
            right: Right::Device(y),
        }
    }

    // A clock line, of the device x and a constant.
    pub fn clock(x: u8, op: u8, constant: i32) -> Asked
        ensures left { result.x ≡ x }
        ensures op { result.op ≡ op }
        ensures right { result.right ≡ Constant constant }
    {
        Asked {
            x,
            op,
            right: Right::Constant(constant),
        }
    }

    // Whether a device number is `devices` or more.
    pub fn is_foreign(self, devices: u8) -> bool
        ensures { Decides result (Foreign devices self) }
    {
        match self.right {
            Right::Device(y) => self.x >= devices || y >= devices,
            Right::Constant(_) => self.x >= devices,
        }
    }

    // Whether the constant is outside its limits.
    pub fn is_outside(self) -> bool
        ensures { Decides result (Outside self.right) }
    {
        match self.right {
            Right::Device(_) => false,
            Right::Constant(c) => c < -1_000_000 || c > 1_000_000,
        }
    }

    // Whether the line, whose operator this is, sets a device before or after itself.
    pub fn sets_itself(self, op: Operator) -> bool
        requires { byte_of op ≡ self.op }
        ensures { Decides result (SetsItself self) }
    {
        op.is_strict() && self.is_of_one()
    }

    // Whether the right side is the device on the left.
    fn is_of_one(self) -> bool
        ensures { Decides result (Same self.x self.right) }
    {
        self.right == Right::Device(self.x)
    }

    // The line itself, with its operator.
    pub fn line(self, op: Operator) -> Line
        ensures { result ≡ written self op }
    {
        Line {
            x: self.x,
            op,
            right: self.right,
        }
    }
}
