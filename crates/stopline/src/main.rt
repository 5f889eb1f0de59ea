// Reads a session from standard input, and prints what it answers.
#![tactic(auto)]

use console::transcript;
use session::LONGEST;
use std::io;
use std::io::{Read, Write};

fn main(rt: HostRuntime) -> io::Result<()> {
    let mut bytes = Vec::new(rt.alloc());
    // one byte more than a session may have tells that it is too long
    rt.stdin().take(LONGEST as u64 + 1).read_to_end(&mut bytes)?;
    let printed = transcript(rt.alloc(), bytes.as_slice())?;
    rt.stdout().write_all(printed.as_slice())
}
