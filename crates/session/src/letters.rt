ghost use Rattle.std.specs.Prelude.{◌≡◌};
ghost use Rattle.session.specs.Commands.{letter_of};

use lines::{Call, Right};

// The byte that the command of a call begins with, and its printed line too. A table of the format, for a type of another crate: a
// conversion would read no plainer.
pub fn letter(call: Call) -> u8
    ensures { result ≡ letter_of call }
{
    match call {
        Call::Enter(_, line) => match line.right {
            Right::Device(_) => b'E',
            Right::Constant(_) => b'C',
        },
        Call::Strike(_) => b'S',
        Call::Settle => b'T',
        Call::Window(_) => b'W',
        Call::Follows(line) => match line.right {
            Right::Device(_) => b'F',
            Right::Constant(_) => b'G',
        },
    }
}
