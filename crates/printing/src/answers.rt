// The line of a call that was made. No writer may fail, so that each says how much room it asks for.
ghost use Rattle.std.specs.Prelude.{◌≡◌, ◌+◌, ◌≤◌, ◌++◌, length, take};
ghost use Rattle.printing.specs.Answers.{followed_text, granted_text, line_of, refused_text, reply_text, settled_text, subject, window_text};
ghost use Rattle.printing.specs.Fields.{time_fields};
ghost use Rattle.printing.specs.Shown.{Shown, ShownFollowed, ShownSettled, ShownWindow, Timed};
ghost use Rattle.writing.specs.Fronts.{Stays, capacity_of, end_of, written};
ghost use Rattle.writing.specs.Put.{Put};

use crate::fields::{push_end, push_numbers, push_times};
use crate::{Line, value};
use engine::{Followed, Refusal, Settled};
use lines::Call;
use lives::{Reply, Step};
use scales::Scale;
use writing::Front;

// The line number or the device that the call names.
#[tactic(auto, using(writing::proofs::Staying::stays_then))]
fn push_subject(text: &mut Front<'_>, call: Call)
    requires { end_of text.old + 6 ≤ capacity_of text.old }
    ensures bound { end_of text.new ≤ end_of text.old + 6 }
    ensures wrote { written text.new ≡ written text.old ++ subject call }
    ensures stays { Stays text.old text.new }
{
    match call {
        Call::Enter(number, _) | Call::Strike(number) => text.push_field(number),
        Call::Window(device) => text.push_field(device),
        Call::Settle | Call::Follows(_) => {}
    }
}

#[tactic(auto, using(writing::proofs::Staying::stays_then))]
fn push_refusal(text: &mut Front<'_>, refusal: Refusal)
    requires { end_of text.old + 14 ≤ capacity_of text.old }
    ensures bound { end_of text.new ≤ end_of text.old + 14 }
    ensures wrote { written text.new ≡ written text.old ++ refused_text refusal }
    ensures stays { Stays text.old text.new }
{
    text.push_text(b" refused");
    text.push_field(refusal.number());
}

// A call that was made in a book of so many devices, to be printed.
#[derive(Drop)]
struct Report<'a, S: Scale> {
    devices: usize,
    step: &'a Step<S>,
    ghost few: { devices ≤ 200 },
}

impl<S: Scale> Report<'_, S> {
    #[tactic(auto, using(writing::proofs::Staying::stays_then))]
    fn push_granted(&self, text: &mut Front<'_>, answer: Result<(), Refusal>)
        requires { end_of text.old + 14 ≤ capacity_of text.old }
        ensures bound { end_of text.new ≤ end_of text.old + 14 }
        ensures wrote { written text.new ≡ written text.old ++ granted_text self.now.step.now.call answer }
        ensures stays { Stays text.old text.new }
    {
        match answer {
            Ok(()) => {
                push_subject(text, self.step.call);
                text.push_text(b" ok");
            }
            Err(refusal) => push_refusal(text, refusal),
        }
    }

    // A word behind a space, and the times of the devices.
    #[tactic(auto, using(writing::proofs::Staying::stays_then))]
    fn push_timetable(&self, text: &mut Front<'_>, word: &[u8])
        requires short { length word.now ≤ 6 }
        requires timed { Timed S.OrderedSums self.now.devices self.now.step.now.times.items }
        requires room { end_of text.old + 7000 ≤ capacity_of text.old }
        ensures bound { end_of text.new ≤ end_of text.old + 7000 }
        ensures wrote { written text.new ≡ written text.old ++ (word.now ++ time_fields S.OrderedSums (take self.now.devices self.now.step.now.times.items)) }
        ensures stays { Stays text.old text.new }
    {
        text.push_text(word);
        push_times(text, &self.step.times.as_slice()[..self.devices]);
    }

    #[tactic(auto, using(writing::proofs::Staying::stays_then))]
    fn push_settled(&self, text: &mut Front<'_>, answer: Result<Settled, Refusal>)
        requires shown { ShownSettled S.OrderedSums self.now.devices self.now.step.now.times.items self.now.step.now.names.items answer }
        requires room { end_of text.old + 7000 ≤ capacity_of text.old }
        ensures bound { end_of text.new ≤ end_of text.old + 7000 }
        ensures wrote { written text.new ≡ written text.old ++ settled_text S.OrderedSums self.now.devices self.now.step.now.times.items self.now.step.now.names.items answer }
        ensures stays { Stays text.old text.new }
    {
        match answer {
            Ok(Settled::Times) => self.push_timetable(text, b" times"),
            Ok(Settled::Clash(count)) => {
                text.push_text(b" clash");
                push_numbers(text, &self.step.names.as_slice()[..count as usize]);
            }
            Err(refusal) => push_refusal(text, refusal),
        }
    }

    #[tactic(auto, using(writing::proofs::Staying::stays_then))]
    fn push_window(&self, text: &mut Front<'_>, answer: Result<(Option<S>, Option<S>), Refusal>)
        requires shown { ShownWindow S.OrderedSums answer }
        requires room { end_of text.old + 7000 ≤ capacity_of text.old }
        ensures bound { end_of text.new ≤ end_of text.old + 7000 }
        ensures wrote { written text.new ≡ written text.old ++ window_text S.OrderedSums self.now.step.now.call answer }
        ensures stays { Stays text.old text.new }
    {
        match answer {
            Ok((earliest, latest)) => {
                push_subject(text, self.step.call);
                push_end(text, earliest);
                push_end(text, latest);
            }
            Err(refusal) => push_refusal(text, refusal),
        }
    }

    #[tactic(auto, using(writing::proofs::Staying::stays_then))]
    fn push_followed(&self, text: &mut Front<'_>, answer: Result<Followed, Refusal>)
        requires shown { ShownFollowed S.OrderedSums self.now.devices self.now.step.now.times.items answer }
        requires room { end_of text.old + 7000 ≤ capacity_of text.old }
        ensures bound { end_of text.new ≤ end_of text.old + 7000 }
        ensures wrote { written text.new ≡ written text.old ++ followed_text S.OrderedSums self.now.devices self.now.step.now.times.items answer }
        ensures stays { Stays text.old text.new }
    {
        match answer {
            Ok(Followed::Yes) => text.push_text(b" yes"),
            Ok(Followed::No) => self.push_timetable(text, b" no"),
            Err(refusal) => push_refusal(text, refusal),
        }
    }

    // What the call answered.
    #[tactic(auto, using(writing::proofs::Staying::stays_then))]
    fn push_reply(&self, text: &mut Front<'_>)
        requires shown { Shown S.OrderedSums self.now.devices self.now.step.now }
        requires room { end_of text.old + 7000 ≤ capacity_of text.old }
        ensures bound { end_of text.new ≤ end_of text.old + 7000 }
        ensures wrote { written text.new ≡ written text.old ++ reply_text S.OrderedSums self.now.devices self.now.step.now self.now.step.now.reply }
        ensures stays { Stays text.old text.new }
    {
        let Some(reply) = self.step.reply else {
            return;
        };
        match reply {
            Reply::Entered(answer) | Reply::Struck(answer) => self.push_granted(text, answer),
            Reply::Settled(answer) => self.push_settled(text, answer),
            Reply::Windowed(answer) => self.push_window(text, answer),
            Reply::Followed(answer) => self.push_followed(text, answer),
        }
    }
}

// Writes the line of a call that was made, in a book of so many devices, at the front of `line`, and answers how long it is.
#[tactic(auto, using(writing::proofs::Staying::stays_then, writing::proofs::Staying::put_whole))]
pub fn put_line<S: Scale>(line: &mut [u8], letter: u8, devices: usize, step: &Step<S>) -> usize
    requires few { devices ≤ 200 }
    requires shown { Shown S.OrderedSums devices step.now }
    requires room { 8192 ≤ length line.old }
    ensures bound { result ≤ 8192 }
    ensures wrote { Put 0 (line_of S.OrderedSums letter devices step.now) line.old result line.new }
{
    let mut text = Front::new(line);
    text.push_byte(letter);
    let report = Report { devices, step };
    report.push_reply(&mut text);
    text.push_byte(b'\n');
    text.end()
}

// The same line as a value.
pub fn call_line<S: Scale>(letter: u8, devices: usize, step: &Step<S>) -> Line
    requires few { devices ≤ 200 }
    requires shown { Shown S.OrderedSums devices step.now }
    ensures { result ≡ line_of S.OrderedSums letter devices step.now }
{
    let mut line = [0; 8192];
    let length = put_line(&mut line, letter, devices, step);
    value(&line[..length])
}
