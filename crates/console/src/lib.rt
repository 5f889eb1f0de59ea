// What a session prints, as long as the command that ends it is the only one: the line of its end or of its fault.
#![tactic(auto)]

mod run;
#[cfg(test)]
mod tests;

pub use run::transcript;
