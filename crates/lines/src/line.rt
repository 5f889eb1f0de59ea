use crate::operator::Operator;

// What a device is compared with: another device, or a constant in milliseconds.
#[derive(Clone, Copy, Debug, PartialEq, Eq)]
pub enum Right {
    Device(u8),
    Constant(i32),
}

// A timing line: the device x, compared with what stands to the right. A line as asked for differs in its operator alone; the two stay two
// types, as a type of both would bear neither name.
#[derive(Clone, Copy, Debug, PartialEq, Eq)]
pub struct Line {
    pub x: u8,
    pub op: Operator,
    pub right: Right,
}
