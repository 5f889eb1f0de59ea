// The printed lines: one for each command, its letter first, and one for a session's end or its fault.
#![tactic(auto)]

ghost use Rattle.std.specs.Prelude.{◌≡◌, ◌≤◌, length};

mod answers;
mod closing;
mod fields;

pub use answers::{call_line, put_line};
pub use closing::{closing_line, put_closing};
use writing::Text;

// The text of a printed line, which has at most 8192 bytes.
pub type Line = Text<8192>;

// A line that was written, as a value.
fn value(written: &[u8]) -> Line
    requires { length written.now ≤ 8192 }
    ensures { result ≡ written.now }
{
    let mut text = Line::new();
    text.push_text(written);
    text
}
