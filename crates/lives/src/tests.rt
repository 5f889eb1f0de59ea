use crate::*;
use engine::{Followed, Refusal, Settled};
use lines::{Asked, Call};
use scales::{OrderedSums, Scale, Stepless, Ticks};
use std::alloc::{AllocError, Global};
use std::process::Abort;
use std::test::Fail;

// A step with buffers of these lengths.
fn step<S: Scale>(
    heap: Global,
    call: Call,
    times: usize,
    names: usize,
    work: usize,
) -> Result<Step<S>, AllocError> {
    Ok(Step {
        call,
        times: vec![in heap; S::zero(); times]?,
        names: vec![in heap; 0; names]?,
        work: vec![in heap; S::zero(); work]?,
        reply: None,
    })
}

fn before(x: u8, y: u8) -> Asked {
    Asked::pair(x, b'<', y)
}

// Device 0 before device 1, refused once and granted once; settled with short buffers and with long ones; asked whether 1 before 0
// follows; entered, which clashes; struck, and settled again.
fn steps<S: Scale>(heap: Global) -> Result<Vec<Step<S>>, AllocError> {
    let mut steps = Vec::new(heap);
    steps.push(step(heap, Call::Enter(400, before(0, 1)), 0, 0, 0)?)?;
    steps.push(step(heap, Call::Enter(7, before(0, 1)), 0, 0, 0)?)?;
    steps.push(step(heap, Call::Settle, 1, 400, 1000)?)?;
    steps.push(step(heap, Call::Settle, 3, 401, 1001)?)?;
    steps.push(step(heap, Call::Follows(before(1, 0)), 2, 0, 1000)?)?;
    steps.push(step(heap, Call::Enter(9, before(1, 0)), 0, 0, 0)?)?;
    steps.push(step(heap, Call::Settle, 2, 400, 1000)?)?;
    steps.push(step(heap, Call::Window(0), 0, 0, 1000)?)?;
    steps.push(step(heap, Call::Strike(7), 0, 0, 0)?)?;
    steps.push(step(heap, Call::Strike(7), 0, 0, 0)?)?;
    Ok(steps)
}

// What a call that is granted answers.
#[derive(Clone, Copy, Debug, PartialEq)]
enum Answer {
    Done,
    Times,
    Clash(u16),
    // a window, and whether it has an earliest and a latest time
    Window(bool, bool),
    Yes,
    No,
}

// What the calls are to answer, or the number of their refusal.
const DUE: [Result<Answer, u8>; 10] = [
    Err(8),
    Ok(Answer::Done),
    Err(10),
    Ok(Answer::Times),
    Ok(Answer::No),
    Ok(Answer::Done),
    Ok(Answer::Clash(2)),
    Err(23),
    Ok(Answer::Done),
    Err(22),
];

fn answer_of<S: Scale>(reply: Reply<S>) -> Result<Answer, Refusal> {
    match reply {
        Reply::Entered(done) | Reply::Struck(done) => {
            done?;
            Ok(Answer::Done)
        }
        Reply::Settled(settled) => match settled? {
            Settled::Times => Ok(Answer::Times),
            Settled::Clash(count) => Ok(Answer::Clash(count)),
        },
        Reply::Windowed(window) => {
            let (earliest, latest) = window?;
            Ok(Answer::Window(earliest.is_some(), latest.is_some()))
        }
        Reply::Followed(followed) => match followed? {
            Followed::Yes => Ok(Answer::Yes),
            Followed::No => Ok(Answer::No),
        },
    }
}

// Checks that the calls of a life answer what is due.
fn check_answers<S: Scale>(
    rt: &impl Abort,
    life: &[Step<S>],
    due: &[Result<Answer, u8>],
) -> Result<(), Fail> {
    assert_eq!(rt; life.len(), due.len());
    for (step, due) in life.iter().zip(due) {
        let Some(reply) = step.reply else {
            return Err(Fail::new("no reply"));
        };
        assert_eq!(rt; answer_of(reply).map_err(|refusal| refusal.number()), *due);
    }
    Ok(())
}

fn check_life<S: Scale>(rt: &impl Abort, heap: Global) -> Result<(), Fail> {
    let mut life = steps::<S>(heap)?;
    assert!(rt; live(2, life.as_mut_slice()).is_ok());
    check_answers(rt, life.as_slice(), &DUE)
}

#[test]
fn a_life_on_ticks(rt: HostRuntime) -> Result<(), Fail> {
    check_life::<Ticks>(&rt, rt.alloc())
}

#[test]
fn a_life_on_stepless_times(rt: HostRuntime) -> Result<(), Fail> {
    check_life::<Stepless>(&rt, rt.alloc())
}

#[test]
fn a_life_begins_with_one_to_two_hundred_devices(rt: HostRuntime) -> Result<(), Fail> {
    let mut life = steps::<Ticks>(rt.alloc())?;
    assert!(rt; matches!(live(0, life.as_mut_slice()), Err(Refusal::Devices)));
    for step in life.as_slice() {
        assert!(rt; step.reply.is_none());
    }
    Ok(())
}

// The same calls, with a window and what follows beside them, and settled once more at the end.
fn more_steps<S: Scale>(heap: Global) -> Result<Vec<Step<S>>, AllocError> {
    let mut steps = Vec::new(heap);
    steps.push(step(heap, Call::Enter(7, before(0, 1)), 0, 0, 0)?)?;
    steps.push(step(heap, Call::Window(1), 0, 0, 1000)?)?;
    steps.push(step(heap, Call::Follows(before(0, 1)), 2, 0, 1000)?)?;
    steps.push(step(heap, Call::Enter(9, before(1, 0)), 0, 0, 0)?)?;
    steps.push(step(heap, Call::Settle, 2, 400, 1000)?)?;
    steps.push(step(heap, Call::Strike(7), 0, 0, 0)?)?;
    steps.push(step(heap, Call::Settle, 2, 400, 1000)?)?;
    Ok(steps)
}

const MORE_DUE: [Result<Answer, u8>; 7] = [
    Ok(Answer::Done),
    Ok(Answer::Window(false, false)),
    Ok(Answer::Yes),
    Ok(Answer::Done),
    Ok(Answer::Clash(2)),
    Ok(Answer::Done),
    Ok(Answer::Times),
];

#[test]
fn a_life_with_a_window_and_a_yes(rt: HostRuntime) -> Result<(), Fail> {
    let mut life = more_steps::<Ticks>(rt.alloc())?;
    assert!(rt; live(2, life.as_mut_slice()).is_ok());
    check_answers(&rt, life.as_slice(), &MORE_DUE)?;
    // the clash names the lines 7 and 9, and leaves the rest of its buffer
    let Some(settled) = life.as_slice().get(4) else {
        return Err(Fail::new("no fifth call"));
    };
    let names = &settled.names;
    assert!(rt; names.len() == 400);
    assert!(rt; names[0] == 7 && names[1] == 9 && names[2] == 0);
    Ok(())
}
