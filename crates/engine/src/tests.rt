use crate::*;
use lines::Asked;
use scales::{Scale, Stepless, Ticks};
use std::process::Abort;
use std::test::Fail;

const ZERO: Ticks = Ticks { ms: 0 };

// Settles a book of ticks: the times of the first two devices.
fn first_two(rt: &impl Abort, book: &Book<Ticks>) -> Result<(i64, i64), Fail> {
    let mut times = [ZERO; 200];
    let settled = book.settle(&mut times, &mut [0; 400], &mut [ZERO; 1000])?;
    assert_eq!(rt; settled, Settled::Times);
    Ok((times[0].ms, times[1].ms))
}

// Settles a book of ticks that clashes: how many lines are named, and the first four.
fn named(book: &Book<Ticks>) -> Result<(u16, [u16; 4]), Fail> {
    let mut names = [999; 400];
    match book.settle(&mut [ZERO; 200], &mut names, &mut [ZERO; 1000])? {
        Settled::Times => Err(Fail::new("no clash")),
        Settled::Clash(count) => Ok((count, [names[0], names[1], names[2], names[3]])),
    }
}

#[test]
fn a_sheet_has_its_first_timetable_windows_and_what_follows(rt: HostRuntime) -> Result<(), Fail> {
    let mut book: Book<Ticks> = Book::begin(2)?;
    book.enter(1, Asked::clock(0, b'g', 4))?;
    book.enter(2, Asked::pair(0, b'<', 1))?;
    assert_eq!(rt; first_two(&rt, &book)?, (4, 5));
    let (earliest, latest) = book.window(1, &mut [ZERO; 1000])?;
    assert_eq!(rt; earliest.ok_or("no earliest")?.ms, 5);
    assert!(rt; latest.is_none());
    let mut times = [ZERO; 2];
    assert_eq!(rt;
        book.follows(Asked::pair(1, b'l', 0), &mut times, &mut [ZERO; 1000])?,
        Followed::No
    );
    assert!(rt; times[0].ms == 4 && times[1].ms == 5);
    Ok(())
}

#[test]
fn lines_that_quarrel_are_named(rt: HostRuntime) -> Result<(), Fail> {
    let mut book: Book<Ticks> = Book::begin(3)?;
    book.enter(1, Asked::clock(0, b'>', 3))?;
    book.enter(2, Asked::clock(0, b'<', 4))?;
    assert_eq!(rt; named(&book)?, (2, [1, 2, 999, 999]));
    book.strike(1)?;
    book.strike(2)?;
    book.enter(0, Asked::pair(0, b'l', 1))?;
    book.enter(1, Asked::pair(1, b'l', 2))?;
    book.enter(2, Asked::pair(2, b'<', 0))?;
    book.enter(3, Asked::clock(0, b'g', 0))?;
    assert_eq!(rt; named(&book)?, (3, [0, 1, 2, 999]));
    Ok(())
}

#[test]
fn a_stepless_window_is_open_at_its_ends(rt: HostRuntime) -> Result<(), Fail> {
    let mut book: Book<Stepless> = Book::begin(1)?;
    book.enter(1, Asked::clock(0, b'>', 3))?;
    book.enter(2, Asked::clock(0, b'<', 4))?;
    let (earliest, latest) = book.window(0, &mut [Stepless { ms: 0, steps: 0 }; 1000])?;
    let earliest = earliest.ok_or("no earliest")?;
    let latest = latest.ok_or("no latest")?;
    assert!(rt; earliest.ms == 3 && earliest.steps == 1);
    assert!(rt; latest.ms == 4 && latest.steps == -1);
    Ok(())
}

#[test]
fn what_follows_may_meet_in_a_constant(rt: HostRuntime) -> Result<(), Fail> {
    let mut book: Book<Ticks> = Book::begin(2)?;
    book.enter(0, Asked::clock(0, b'l', 6))?;
    book.enter(1, Asked::clock(1, b'g', 6))?;
    let mut times = [ZERO; 2];
    assert_eq!(rt;
        book.follows(Asked::pair(0, b'l', 1), &mut times, &mut [ZERO; 1000])?,
        Followed::Yes
    );
    assert!(rt; times[0].ms == 0 && times[1].ms == 0);
    assert_eq!(rt;
        book.follows(Asked::pair(0, b'<', 1), &mut times, &mut [ZERO; 1000])?,
        Followed::No
    );
    assert!(rt; times[0].ms == 6 && times[1].ms == 6);
    Ok(())
}

#[test]
fn an_empty_book_holds_nothing(rt: HostRuntime) -> Result<(), Fail> {
    let book: Book<Ticks> = Book::begin(2)?;
    assert_eq!(rt; first_two(&rt, &book)?, (-1_000_000_000, -1_000_000_000));
    let (earliest, latest) = book.window(0, &mut [ZERO; 1000])?;
    assert!(rt; earliest.is_none() && latest.is_none());
    let mut times = [ZERO; 2];
    assert_eq!(rt;
        book.follows(Asked::pair(0, b'=', 1), &mut times, &mut [ZERO; 1000])?,
        Followed::No
    );
    assert!(rt; times[0].ms == -1_000_000_000 && times[1].ms == -999_999_999);
    Ok(())
}

#[test]
fn calls_are_refused_in_order(rt: HostRuntime) -> Result<(), Fail> {
    assert!(rt; matches!(Book::<Ticks>::begin(0), Err(Refusal::Devices)));
    assert!(rt; matches!(Book::<Ticks>::begin(201), Err(Refusal::Devices)));
    let mut book: Book<Ticks> = Book::begin(200)?;
    assert_eq!(rt;
        book.enter(400, Asked::pair(200, b'!', 0)),
        Err(Refusal::LineNumber)
    );
    assert_eq!(rt;
        book.enter(399, Asked::pair(200, b'!', 0)),
        Err(Refusal::OperatorByte)
    );
    assert_eq!(rt;
        book.enter(399, Asked::clock(200, b'<', 1_000_001)),
        Err(Refusal::DeviceNumber)
    );
    assert_eq!(rt;
        book.enter(399, Asked::clock(199, b'<', 1_000_001)),
        Err(Refusal::Constant)
    );
    assert_eq!(rt;
        book.enter(399, Asked::clock(199, b'<', -1_000_000)),
        Ok(())
    );
    assert_eq!(rt;
        book.enter(5, Asked::pair(0, b'<', 0)),
        Err(Refusal::Itself)
    );
    assert_eq!(rt; book.enter(5, Asked::pair(0, b'=', 0)), Ok(()));
    assert_eq!(rt; book.enter(5, Asked::pair(0, b'=', 0)), Err(Refusal::Taken));
    assert_eq!(rt; book.strike(5), Ok(()));
    assert_eq!(rt; book.strike(5), Err(Refusal::Free));
    assert_eq!(rt; book.enter(5, Asked::pair(0, b'l', 0)), Ok(()));
    Ok(())
}

#[test]
fn short_buffers_are_refused(rt: HostRuntime) -> Result<(), Fail> {
    let book: Book<Ticks> = Book::begin(2)?;
    assert_eq!(rt;
        book.settle(&mut [ZERO; 1], &mut [0; 400], &mut [ZERO; 1000]),
        Err(Refusal::Buffer)
    );
    assert_eq!(rt;
        book.settle(&mut [ZERO; 2], &mut [0; 399], &mut [ZERO; 1000]),
        Err(Refusal::Buffer)
    );
    assert_eq!(rt;
        book.settle(&mut [ZERO; 2], &mut [0; 400], &mut [ZERO; 999]),
        Err(Refusal::Buffer)
    );
    assert!(rt; matches!(book.window(2, &mut [ZERO; 999]), Err(Refusal::DeviceNumber)));
    assert!(rt; matches!(book.window(1, &mut [ZERO; 999]), Err(Refusal::Buffer)));
    assert_eq!(rt;
        book.follows(Asked::pair(0, b'<', 1), &mut [ZERO; 1], &mut [ZERO; 1000]),
        Err(Refusal::Buffer)
    );
    Ok(())
}
