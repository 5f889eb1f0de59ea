// Timing lines: what they say, the calls that ask for them, what a line as asked for is refused for, and how a line reads as bounds on times.
#![tactic(auto)]

mod asked;
mod call;
mod laws;
mod line;
mod operator;
mod reading;
#[cfg(test)]
mod tests;

pub use asked::Asked;
pub use call::Call;
pub use laws::opposite_laws;
pub use line::{Line, Right};
pub use operator::{NoOperator, Operator};
pub use reading::LineEdges;
