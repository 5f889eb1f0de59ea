use crate::*;
use lines::{Asked, Call};
use std::test::Fail;

const SESSION: [u8; 7] = [0x53, 0x54, 0x4F, 0x50, 0, 2, 0x5A];

// Reads the bytes as a heading and the command that ends a session.
fn read(bytes: &[u8]) -> Result<Heading, Fault> {
    let commands = Unopened::new(bytes).open()?;
    let heading = commands.heading();
    commands.end()?;
    Ok(heading)
}

fn fault(cause: Cause, place: usize, layer: Layer) -> Fault {
    Fault {
        cause,
        place,
        layer,
    }
}

// What reading comes to where a byte of the heading is wrong or missing.
fn bad_heading(place: usize) -> Result<Heading, Fault> {
    Err(fault(Cause::BadHeading, place, Layer::Heading))
}

#[test]
fn reads_a_heading_and_the_end(rt: HostRuntime) {
    assert_eq!(rt;
        read(&SESSION),
        Ok(Heading {
            code: 0,
            devices: 2,
        })
    );
}

#[test]
fn bytes_behind_the_end_are_not_read(rt: HostRuntime) {
    assert_eq!(rt;
        read(b"STOP\x01\xC8Z\x00\xFF"),
        Ok(Heading {
            code: 1,
            devices: 200,
        })
    );
}

#[test]
fn a_heading_that_is_cut_names_the_missing_byte(rt: HostRuntime) {
    // each length of a heading that is cut
    for length in 0..6 {
        assert_eq!(rt; read(&SESSION[0..length]), bad_heading(length));
    }
    assert_eq!(rt;
        read(&SESSION[0..6]),
        Err(fault(Cause::EndsEarly, 6, Layer::Command))
    );
}

#[test]
fn a_wrong_byte_of_the_heading_is_named(rt: HostRuntime) {
    // each place of a heading
    for place in 0..6 {
        let mut bytes = SESSION;
        bytes[place] = 0xEE;
        assert_eq!(rt; read(&bytes), bad_heading(place));
    }
    assert_eq!(rt; read(b"STOP\x02\x02Z"), bad_heading(4));
    assert_eq!(rt; read(b"STOP\x00\x00Z"), bad_heading(5));
    assert_eq!(rt; read(b"STOP\x00\xC9Z"), bad_heading(5));
}

#[test]
fn another_command_is_unknown(rt: HostRuntime) {
    assert_eq!(rt;
        read(b"STOP\x00\x02z"),
        Err(fault(Cause::UnknownCommand, 6, Layer::Command))
    );
}

#[test]
fn sixty_thousand_bytes_are_the_most(rt: HostRuntime) {
    let too_long = Err(fault(Cause::TooLong, 60000, Layer::Heading));
    let mut bytes = [0u8; 60001];
    bytes[0..7].copy_from_slice(&SESSION);
    assert!(rt; read(&bytes[0..60000]).is_ok());
    assert_eq!(rt; read(&bytes), too_long);
    bytes[0] = 0;
    assert_eq!(rt; read(&bytes), too_long);
    assert_eq!(rt; read(&bytes[0..60000]), bad_heading(0));
}

#[test]
fn faults_are_numbered_from_one(rt: HostRuntime) {
    assert_eq!(rt; Cause::TooLong.number(), 1);
    assert_eq!(rt; Cause::BadHeading.number(), 2);
    assert_eq!(rt; Cause::UnknownCommand.number(), 3);
    assert_eq!(rt; Cause::EndsEarly.number(), 4);
}

// Reads a session to its end, and answers its heading.
fn read_commands(bytes: &[u8]) -> Result<Heading, Fault> {
    let mut reader = Unopened::new(bytes).open()?;
    let heading = reader.heading();
    while let Some((_, rest)) = reader.next_command()? {
        reader = rest;
    }
    Ok(heading)
}

// A session with one of each command, and a byte behind its end.
const COMMANDS: [u8; 40] =
    *b"STOP\x00\x02E\x01\x02<\x03\x04C\x00\x07g\xC8\xFF\xF0\xBD\xC0S\x01\x8FTW\x05Fl\x06\x07G=\x08\x00\x0F\x42\x40Z?";

#[test]
fn commands_have_their_high_bytes_first_and_a_sign(rt: HostRuntime) -> Result<(), Fail> {
    let due = [
        Call::Enter(258, Asked::pair(3, b'<', 4)),
        Call::Enter(7, Asked::clock(200, b'g', -1_000_000)),
        Call::Strike(399),
        Call::Settle,
        Call::Window(5),
        Call::Follows(Asked::pair(6, b'l', 7)),
        Call::Follows(Asked::clock(8, b'=', 1_000_000)),
    ];
    let mut reader = Unopened::new(&COMMANDS).open()?;
    for call in due {
        let (read, rest) = reader.next_command()?.ok_or("over")?;
        assert_eq!(rt; read, call);
        reader = rest;
    }
    assert!(rt; reader.next_command()?.is_none());
    Ok(())
}

// The places at which a command begins.
const BEGINNINGS: [usize; 8] = [6, 12, 21, 24, 25, 27, 31, 38];

#[test]
fn bytes_that_end_early_name_the_layer(rt: HostRuntime) {
    // each length that ends before the last command
    for length in 6..39 {
        let layer = if BEGINNINGS.contains(&length) {
            Layer::Command
        } else {
            Layer::Operand
        };
        assert_eq!(rt;
            read_commands(&COMMANDS[0..length]),
            Err(fault(Cause::EndsEarly, length, layer))
        );
    }
    assert!(rt; read_commands(&COMMANDS).is_ok());
}

#[test]
fn another_command_is_unknown_behind_others(rt: HostRuntime) {
    assert_eq!(rt;
        read_commands(b"STOP\x00\x02TT\x00Z"),
        Err(fault(Cause::UnknownCommand, 8, Layer::Command))
    );
}

#[test]
fn commands_begin_with_their_letters(rt: HostRuntime) {
    assert_eq!(rt; letter(Call::Settle), b'T');
    assert_eq!(rt; letter(Call::Strike(0)), b'S');
    assert_eq!(rt; letter(Call::Window(0)), b'W');
}
