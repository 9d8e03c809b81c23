//! How much the data of a region holds.

/// A number of tasks, and a number of blocks and entities together.
#[derive(Clone, Copy, Debug, PartialEq, Eq)]
pub struct Size {
    pub tasks: u64,
    pub things: u64,
}
