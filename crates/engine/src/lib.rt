// The engine: a book of timing lines and what can be asked of it.
#![tactic(auto)]

mod book;
mod calls;
mod refusal;
#[cfg(test)]
mod tests;

pub use book::Book;
pub use refusal::Refusal;
pub use verdicts::{Followed, Settled};
