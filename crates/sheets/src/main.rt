// Runs the sessions that the arguments name, and shows for each what it prints, and whether that is what is due.
#![tactic(auto)]

mod hex;
mod sheet;

use sheet::report;
use std::io::Write;
use std::{env, fs, io};

// Reads a session as text and the lines that are due, and prints the report.
fn show(rt: &HostRuntime, name: &str) -> io::Result<()> {
    let heap = rt.alloc();
    let text = fs::read(rt, format!(in heap; "{name}.hex")?)?;
    let due = fs::read(rt, format!(in heap; "{name}.due")?)?;
    match report(heap, name.as_bytes(), text.as_slice(), due.as_slice())? {
        Some(lines) => rt.stdout().write_all(lines.as_slice()),
        None => println!(rt; "{name}.hex is no session in hexadecimal"),
    }
}

fn main(rt: HostRuntime) -> io::Result<()> {
    for name in env::args(&rt)?.skip(1) {
        show(&rt, name.as_str())?;
    }
    Ok(())
}
