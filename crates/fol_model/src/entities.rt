//! Entities and where they are.

use crate::BlockPos;

/// An entity that stands at a block and moves by its speed in each tick of the region that has it.
///
/// Within the limits `id` is 1 to 1,000,000,000 and each speed is -16 to 16.
#[derive(Clone, Copy, Debug, PartialEq, Eq)]
pub struct Entity {
    /// The id: no other entity has it.
    pub id: u32,
    /// The block where it stands.
    pub at: BlockPos,
    /// By how much `x` grows in a tick.
    pub vx: i32,
    /// By how much `z` grows in a tick.
    pub vz: i32,
}

/// Where an entity is.
#[derive(Clone, Copy, Debug, PartialEq, Eq)]
pub enum Place {
    /// It stands at this block.
    At(BlockPos),
    /// It is on its way: the task with this number is its arrival.
    Transit(u64),
}
