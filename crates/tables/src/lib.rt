// The records of a book, choices among their numbers, and their lines as edges and weights of bounds.
#![tactic(auto)]

mod choice;
mod gather;
mod table;

pub use choice::Choice;
pub use gather::{Edges, append};
pub use table::{NUMBERS, Table};
