use crate::*;
use engine::{Book, Refusal};
use lines::Call;
use lives::Step;
use scales::{OrderedSums, Ticks};
use session::{Cause, Fault, Layer};
use std::test::Fail;

#[test]
fn a_session_prints_a_line_for_each_command(rt: HostRuntime) -> Result<(), Fail> {
    let session = b"STOP\x00\x02C\x00\x01g\x00\x00\x00\x00\x04E\x00\x02<\x00\x01TW\x01Fl\x01\x00Z";
    let printed = transcript(rt.alloc(), session)?;
    assert_eq!(rt;
        printed.as_slice(),
        b"C 1 ok\nE 2 ok\nT times 4 5\nW 1 5 none\nF no 4 5\nZ\n".as_slice()
    );
    Ok(())
}

#[test]
fn the_heading_chooses_the_scale(rt: HostRuntime) -> Result<(), Fail> {
    let ticks = b"STOP\x00\x01C\x00\x01>\x00\x00\x00\x00\x03C\x00\x02<\x00\x00\x00\x00\x04TW\x00Z";
    let printed = transcript(rt.alloc(), ticks)?;
    assert_eq!(rt;
        printed.as_slice(),
        b"C 1 ok\nC 2 ok\nT clash 1 2\nW refused 23\nZ\n".as_slice()
    );
    let stepless =
        b"STOP\x01\x01C\x00\x01>\x00\x00\x00\x00\x03C\x00\x02<\x00\x00\x00\x00\x04TW\x00Z";
    let printed = transcript(rt.alloc(), stepless)?;
    assert_eq!(rt;
        printed.as_slice(),
        b"C 1 ok\nC 2 ok\nT times 3+1\nW 0 3+1 4-1\nZ\n".as_slice()
    );
    Ok(())
}

#[test]
fn a_fault_ends_the_session(rt: HostRuntime) -> Result<(), Fail> {
    assert_eq!(rt;
        transcript(rt.alloc(), b"STOP\x02\x02Z")?.as_slice(),
        b"fault 2 4 heading\n".as_slice()
    );
    assert_eq!(rt;
        transcript(rt.alloc(), b"STOP\x00\x02S\x00\x05?")?.as_slice(),
        b"S refused 22\nfault 3 9 command\n".as_slice()
    );
    assert_eq!(rt;
        transcript(rt.alloc(), b"STOP\x00\x02W")?.as_slice(),
        b"fault 4 7 operand\n".as_slice()
    );
    let long = [0x53u8; 60001];
    assert_eq!(rt;
        transcript(rt.alloc(), &long)?.as_slice(),
        b"fault 1 60000 heading\n".as_slice()
    );
    Ok(())
}

#[test]
fn a_call_is_made_and_its_line_printed(rt: HostRuntime) -> Result<(), Fail> {
    let mut book = Book::<Ticks>::begin(1)?;
    let mut step = Step {
        call: Call::Strike(0),
        times: vec![in rt.alloc(); Ticks::zero(); 1]?,
        names: vec![in rt.alloc(); 0; 400]?,
        work: vec![in rt.alloc(); Ticks::zero(); 1000]?,
        reply: None,
    };
    let mut line = [7u8; 8192];
    assert_eq!(rt;
        respond(&mut book, Call::Settle, &mut step, &mut line),
        Ok(20)
    );
    assert_eq!(rt; &line[0..21], b"T times -1000000000\n\x07".as_slice());
    Ok(())
}

#[test]
fn a_line_leaves_the_rest_of_its_buffer(rt: HostRuntime) {
    let mut line = [7u8; 8193];
    let fault = Fault {
        cause: Cause::EndsEarly,
        place: 6,
        layer: Layer::Command,
    };
    assert_eq!(rt; close(Some(fault), &mut line), Ok(18));
    assert_eq!(rt; &line[0..19], b"fault 4 6 command\n\x07".as_slice());
    assert_eq!(rt; line[8192], 7);
    assert_eq!(rt; close(None, &mut line[0..8191]), Err(Refusal::Buffer));
    assert_eq!(rt; line[0], b'f');
}
