ghost use Rattle.std.specs.Prelude.{◌≡◌, ℕ, ◌≤◌, List, ◌++◌, length, IfOk, OnOk};
ghost use Rattle.engine.specs.Books.{devices_of};
ghost use Rattle.printing.specs.Closings.{closing};
ghost use Rattle.session.specs.Readings.{Reading};
ghost use Rattle.session.specs.Headings.{Behind};
ghost use Rattle.session.specs.Stages.{bytes_of};
ghost use Rattle.answering.specs.Conversations.{Ample};
ghost use Rattle.answering.specs.Responses.{Performed, line_for};
ghost use Rattle.answering.specs.Transcripts.{Conversed, Ran, Runs, Transcript};

use crate::responses::{ROOM, close, respond};
use crate::stop::Stop;
use engine::Book;
use lines::Call;
use lives::Step;
use scales::{OrderedSums, Scale, Stepless, Ticks};
use session::{Commands, Fault, Unopened};
use std::alloc::{AllocError, Global};

// A step whose buffers are long enough for every call.
fn blank<S: Scale>(heap: Global) -> Result<Step<S>, AllocError>
    ensures { IfOk result (Ample 200) }
{
    Ok(Step {
        call: Call::Settle,
        times: vec![in heap; S::zero(); 200]?,
        names: vec![in heap; 0; 400]?,
        work: vec![in heap; S::zero(); 1000]?,
        reply: None,
    })
}

// Makes a call of the book, and adds its line, which is made in the buffer `line`, to the output.
#[tactic(auto, using(crate::proofs::Lining::line_front))]
fn add_answer<S: Scale>(
    book: &mut Book<S>,
    call: Call,
    step: &mut Step<S>,
    line: &mut [u8],
    out: &mut Vec<u8>,
) -> Result<(), AllocError>
    requires { 8192 ≤ length line.old }
    ensures performed { OnOk result (Performed S.OrderedSums call book.old step.old book.new step.new) }
    ensures added { OnOk result (out.new.items ≡ out.old.items ++ line_for S.OrderedSums (devices_of book.old) call step.new) }
{
    let Ok(length) = respond(book, call, step, line) else {
        unreachable()
    };
    out.extend_from_slice(&line[..length])
}

// Answers command after command in an empty book, up to the end of the session.
fn converse<S: Scale>(heap: Global, commands: Commands<'_>, out: &mut Vec<u8>) -> Result<(), Stop>
    requires { Behind (bytes_of commands) commands }
    ensures { Ran result (λ fault. ((more : List ℕ) × Conversed S.OrderedSums (bytes_of commands.entry) fault more × (out.new.items ≡ out.old.items ++ more))) }
{
    let Ok(mut book) = Book::<S>::begin(commands.heading().devices) else {
        unreachable()
    };
    let mut step = blank(heap)?;
    let mut line = [0; ROOM];
    let mut reader = commands;
    while let Some((call, rest)) = reader.next_command()? {
        add_answer(&mut book, call, &mut step, &mut line, out)?;
        reader = rest;
    }
    Ok(())
}

// Reads a session, and adds the lines of its commands to the output, up to its end or to a fault. The heading's code chooses the
// scale.
fn run(heap: Global, bytes: &[u8], out: &mut Vec<u8>) -> Result<(), Stop>
    ensures { Ran result (λ fault. ((more : List ℕ) × Runs bytes.now fault more × (out.new.items ≡ out.old.items ++ more))) }
{
    let commands = Unopened::new(bytes).open()?;
    let code = commands.heading().code;
    // each scale is a type, and so each is held to the code in turn
    if code == Ticks::CODE {
        return converse::<Ticks>(heap, commands, out);
    }
    if code == Stepless::CODE {
        return converse::<Stepless>(heap, commands, out);
    }
    unreachable()
}

// Adds the line of the session's end, or of its fault, to the output.
#[tactic(auto, using(crate::proofs::Lining::line_front))]
fn add_closing(fault: Option<Fault>, out: &mut Vec<u8>) -> Result<(), AllocError>
    ensures { OnOk result (out.new.items ≡ out.old.items ++ closing fault) }
{
    let mut line = [0; ROOM];
    let Ok(length) = close(fault, &mut line) else {
        unreachable()
    };
    out.extend_from_slice(&line[..length])
}

// All that a session prints: the lines of its one reading. Fails only for want of memory.
#[tactic(auto, using(session::proofs::OneReading::one_reading))]
pub fn transcript(heap: Global, bytes: &[u8]) -> Result<Vec<u8>, AllocError>
    ensures one { Reading bytes.now }
    ensures prints { IfOk result (λ out. Transcript bytes.now out.items) }
{
    let mut out = Vec::new(heap);
    let fault = match run(heap, bytes, &mut out) {
        Ok(()) => None,
        Err(Stop::Faulted(fault)) => Some(fault),
        Err(Stop::Exhausted(error)) => return Err(error),
    };
    add_closing(fault, &mut out)?;
    Ok(out)
}
