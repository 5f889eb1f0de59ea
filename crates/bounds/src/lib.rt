// Least times under bounds of the form "the time of A is not before the time of B plus w", or the verdict that no times meet them.
// This crate knows sums, order and the step of a scale, and neither readings nor lines nor books.
#![tactic(auto)]

mod edge;
mod ends;
mod laws;
mod rounds;
mod system;
#[cfg(test)]
mod tests;

pub use edge::{Edge, turn};
pub use laws::solution_laws;
pub use system::{System, Unmet};
