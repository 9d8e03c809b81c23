//! Tasks, what became of them, and what a tick asks for.

use crate::{Action, BlockPos, ChunkPos, Sequence};

/// What a task came to.
#[derive(Clone, Copy, Debug, PartialEq, Eq)]
pub enum Outcome {
    /// It did what it says.
    Done,
    /// A chunk that the action needs is not recorded.
    Foreign,
    /// The entity stands at no block of a recorded chunk.
    Absent,
    /// The chunk could not be loaded, since too many sections would be present.
    Full,
    /// The chunk had no ticket to take.
    NoTicket,
}

/// An accepted task: its number, the chunk that it is on, and what it does.
#[derive(Drop)]
pub struct Task {
    /// The number under which it was accepted, 1 and up.
    pub number: u64,
    /// The chunk that it is on: the region that owns it runs the task.
    pub chunk: ChunkPos,
    /// What it does.
    pub action: Action,
}

/// A task that ran, and what it came to.
#[derive(Clone, Copy, Debug, PartialEq, Eq)]
pub struct Ran {
    /// The number of the task.
    pub number: u64,
    /// What it came to.
    pub outcome: Outcome,
}

/// A task that a tick asks for. It is accepted at the end of the tick.
#[derive(Drop)]
pub struct Wish {
    /// The chunk that the task is to be on.
    pub chunk: ChunkPos,
    /// In how many ticks it is to run, 1 for the next.
    pub delay: u32,
    /// What it is to do.
    pub action: Action,
    /// The block that a sent entity left.
    pub back: Option<BlockPos>,
}

/// What a tick did: the tasks that ran and the tasks that it asks for, each in order.
#[derive(Drop)]
pub struct TickLog {
    /// The tasks that ran.
    pub ran: Sequence<Ran>,
    /// The tasks that it asks for.
    pub wishes: Sequence<Wish>,
}
