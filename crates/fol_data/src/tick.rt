//! A tick in the hands of a worker.

use crate::RegionData;
use fol_keyed::ChunkSet;
use fol_model::{Sequence, Task, TickLog};

/// One tick of one region, from its begin to its release: what it may touch, what it has to do, and what it did so far.
#[derive(Drop)]
pub struct Tick {
    /// The worker that runs it, 1 to 64.
    pub worker: u32,
    /// The id of the region.
    pub region: u64,
    /// The place of its Begin in the history, counted from 0.
    pub begun: u64,
    /// The recorded chunks: those that were loaded at the Begin, by z and then by x. Changes of a long list may still wait in it.
    pub chunks: ChunkSet,
    /// The due tasks, in order of number.
    pub due: Sequence<Task>,
    /// The data of the region.
    pub body: RegionData,
    /// The tasks that ran and the tasks that the tick asks for, so far.
    pub log: TickLog,
    /// How many of the due tasks ran.
    pub next: u64,
    /// Whether the entities moved, which is the last thing that a tick does: then it is finished.
    pub moved: bool,
}
