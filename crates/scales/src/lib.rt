// Kinds of time. `OrderedSums` says what times are and which laws they show; `Scale` adds the calls for the step, the reading of
// whole numbers, the printing and the code of one kind. Everything above this crate is written once, for every kind with the laws.
#![tactic(auto)]

mod low;
mod scale;
mod stepless;
mod sums;
#[cfg(test)]
mod tests;
mod ticks;

pub use low::low_start;
pub use scale::Scale;
pub use stepless::Stepless;
pub use sums::OrderedSums;
pub use ticks::Ticks;
