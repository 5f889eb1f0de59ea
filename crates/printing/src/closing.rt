// The last line of a session.
ghost use Rattle.std.specs.Prelude.{◌≡◌, ◌+◌, ◌≤◌, ◌++◌, length};
ghost use Rattle.printing.specs.Closings.{closing, fault_line, layer_name};
ghost use Rattle.writing.specs.Fronts.{Stays, capacity_of, end_of, written};
ghost use Rattle.writing.specs.Put.{Put};

use crate::{Line, value};
use session::{Fault, Layer};
use writing::Front;

// `Display` may fail, and this line may not.
fn layer_name(layer: Layer) -> &'static [u8]
    ensures { result.now ≡ layer_name layer }
{
    match layer {
        Layer::Heading => b"heading",
        Layer::Command => b"command",
        Layer::Operand => b"operand",
    }
}

#[tactic(auto, using(writing::proofs::Staying::stays_then))]
fn push_fault(text: &mut Front<'_>, fault: Fault)
    requires { end_of text.old + 100 ≤ capacity_of text.old }
    ensures bound { end_of text.new ≤ end_of text.old + 100 }
    ensures wrote { written text.new ≡ written text.old ++ fault_line fault }
    ensures stays { Stays text.old text.new }
{
    text.push_text(b"fault");
    text.push_field(fault.cause.number());
    text.push_field(fault.place);
    text.push_byte(b' ');
    text.push_text(layer_name(fault.layer));
    text.push_byte(b'\n');
}

// Writes the line of a session's end, or of its fault, at the front of `line`, and answers how long it is.
#[tactic(auto, using(writing::proofs::Staying::stays_then, writing::proofs::Staying::put_whole))]
pub fn put_closing(line: &mut [u8], fault: Option<Fault>) -> usize
    requires { 8192 ≤ length line.old }
    ensures bound { result ≤ 8192 }
    ensures wrote { Put 0 (closing fault) line.old result line.new }
{
    let mut text = Front::new(line);
    match fault {
        None => text.push_text(b"Z\n"),
        Some(fault) => push_fault(&mut text, fault),
    }
    text.end()
}

// The same line as a value.
pub fn closing_line(fault: Option<Fault>) -> Line
    ensures { result ≡ closing fault }
{
    let mut line = [0; 8192];
    let length = put_closing(&mut line, fault);
    value(&line[..length])
}
