//! What is sent, and what comes of it.

use fol_model::{Accept, Action, ChunkPos};

/// A post that was asked for.
#[derive(Drop)]
pub struct Letter {
    /// The number of its sender.
    pub sender: u32,

    /// Its place among the letters of its sender, from 0.
    pub place: u64,
    pub chunk: ChunkPos,
    pub delay: u32,
    pub action: Action,
}

/// What tells of a letter that was posted.
#[derive(Clone, Copy, Debug, PartialEq, Eq)]
pub struct Receipt {
    /// The number of its sender.
    pub sender: u32,

    /// Its place among the letters of its sender.
    pub place: u64,

    /// The place of the post in the history, from 0.
    pub entry: u64,

    /// What the world answered.
    pub answer: Accept,
}
