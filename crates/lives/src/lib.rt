// Whole lives of a book: any list of calls, each made where the one before ended.
#![tactic(auto)]

mod laws;
mod life;
mod steps;
#[cfg(test)]
mod tests;

pub use laws::exact_answers;
pub use life::{go_on, live, one_life, perform};
pub use steps::{Reply, Step};
