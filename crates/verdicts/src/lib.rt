// Verdicts on the lines of a table: the first timetable or a quarrel, the window of a device, and whether a line follows.
#![tactic(auto)]

mod bench;
mod following;
mod reduce;
mod settling;
mod windows;

pub use following::{Followed, follows};
pub use settling::{Settled, settle};
pub use windows::window;
