ghost use Rattle.std.specs.Prelude.{◌≡◌, MatchBool, MatchOption};
ghost use Rattle.session.specs.Headings.{FirstWrong, RightAt, RightUpTo, WrongAt, known, right};

use scales::{Scale, Stepless, Ticks};

// What a heading says: the code of a scale, and the number of devices. The code stays a byte, which the program compares with the constant
// of each scale.
#[derive(Clone, Copy, Debug, PartialEq)]
pub struct Heading {
    pub code: u8,
    pub devices: u8,
}

// Whether a scale has this code.
fn is_known(code: u8) -> bool
    ensures { result ≡ known code }
{
    code == Ticks::CODE || code == Stepless::CODE
}

// Whether the byte may stand at this place of a heading.
fn is_right(place: usize, byte: u8) -> bool
    ensures { result ≡ right place byte }
{
    match place {
        0 => byte == b'S',
        1 => byte == b'T',
        2 => byte == b'O',
        3 => byte == b'P',
        4 => is_known(byte),
        5 => 1 <= byte && byte <= 200,
        _ => true,
    }
}

// Whether the byte at a place of a heading is there, and right.
fn stands(bytes: &[u8], place: usize) -> bool
    ensures { MatchBool result (RightAt bytes.now place) (WrongAt bytes.now place) }
{
    bytes.get(place).is_some_and(|byte| is_right(place, *byte))
}

// The first place of a heading whose byte is wrong or missing.
pub(crate) fn first_wrong(bytes: &[u8]) -> Option<usize>
    ensures { MatchOption result (RightUpTo bytes.now 6) (FirstWrong bytes.now) }
{
    (0..6).find(|place| !stands(bytes, *place))
}
