// A session answered: each command is performed in a book, and its line printed.
#![tactic(auto)]

mod responses;
mod run;
mod stop;
#[cfg(test)]
mod tests;

pub use responses::{close, respond};
pub use run::transcript;
