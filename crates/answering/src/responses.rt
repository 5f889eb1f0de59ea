ghost use Rattle.std.specs.Prelude.{◌≡◌, ◌≤◌, length, take, drop, IfOk, MatchResult};
ghost use Rattle.engine.specs.Books.{devices_of};
ghost use Rattle.printing.specs.Closings.{closing};
ghost use Rattle.answering.specs.Responses.{Lined, Performed, Responds, Unlined, line_for};

use engine::{Book, Refusal};
use lines::Call;
use lives::{Step, perform};
use printing::{put_closing, put_line};
use scales::Scale;
use session::{Fault, letter};

// The least length of a buffer for a line, which is lent.
pub(crate) const ROOM: usize = 8192;

// Makes a call of the book as `respond` does, in a buffer that has room.
fn answer<S: Scale>(book: &mut Book<S>, call: Call, step: &mut Step<S>, line: &mut [u8]) -> usize
    requires { 8192 ≤ length line.old }
    ensures within { result ≤ length line.old }
    ensures performed { Performed S.OrderedSums call book.old step.old book.new step.new }
    ensures long { result ≡ length (line_for S.OrderedSums (devices_of book.old) call step.new) }
    ensures front { take result line.new ≡ line_for S.OrderedSums (devices_of book.old) call step.new }
    ensures rest { drop result line.new ≡ drop result line.old }
{
    step.call = call;
    perform(book, step);
    put_line(line, letter(call), book.devices() as usize, step)
}

// Makes a call of the book, with the buffers of the step, whose call and reply become this call and its reply, and writes its line at
// the front of `line`. Answers how long the line is; a buffer that is too short is refused, and then nothing is performed.
pub fn respond<S: Scale>(
    book: &mut Book<S>,
    call: Call,
    step: &mut Step<S>,
    line: &mut [u8],
) -> Result<usize, Refusal>
    ensures within { IfOk result (λ k. k ≤ length line.old) }
    ensures responds { Responds S.OrderedSums call book.old step.old line.old result book.new step.new line.new }
{
    if line.len() < ROOM {
        return Err(Refusal::Buffer);
    }
    Ok(answer(book, call, step, line))
}

// Writes the line of a session's end, or of its fault, at the front of `line`. Answers how long it is; a buffer that is too
// short is refused.
#[tactic(auto, using(crate::proofs::Lining::lined))]
pub fn close(fault: Option<Fault>, line: &mut [u8]) -> Result<usize, Refusal>
    ensures within { IfOk result (λ k. k ≤ length line.old) }
    ensures closes { MatchResult result (λ k. Lined (closing fault) line.old k line.new) (λ e. Unlined line.old e line.new) }
{
    if line.len() < ROOM {
        return Err(Refusal::Buffer);
    }
    Ok(put_closing(line, fault))
}
