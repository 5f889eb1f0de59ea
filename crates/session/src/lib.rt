// Reads a session: its heading, and then command after command up to its end.
#![tactic(auto)]

mod cursor;
mod fault;
mod heading;
mod laws;
mod letters;
mod reader;
#[cfg(test)]
mod tests;

pub use fault::{Cause, Fault, Layer};
pub use heading::Heading;
pub use laws::one_reading;
pub use letters::letter;
pub use reader::{Commands, LONGEST, Unopened};
