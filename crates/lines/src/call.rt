use crate::asked::Asked;

// A call of a book, with its arguments.
#[derive(Clone, Copy, Debug, PartialEq, Eq)]
pub enum Call {
    Enter(u16, Asked),
    Strike(u16),
    Settle,
    Window(u8),
    Follows(Asked),
}
