//! What stands at the end of a history.

use crate::{BlockAt, Opening, PackedEntry, Place, SectionPos, Sequence, State, Task};

/// A region that is not Dead: its counter, the ticks that it owes, its sections and its loaded chunks.
#[derive(Clone, Copy, Debug, PartialEq, Eq)]
pub struct RegionRow {
    /// The id, 1 and up.
    pub id: u64,
    /// What it may do.
    pub state: State,
    /// Its counter.
    pub tick: u64,
    /// How many ticks it owes.
    pub owed: u32,
    /// How many sections it owns.
    pub sections: u32,
    /// How many loaded chunks are in its sections.
    pub chunks: u32,
}

/// A present section and the region that owns it.
#[derive(Clone, Copy, Debug, PartialEq, Eq)]
pub struct OwnerRow {
    /// The section.
    pub at: SectionPos,
    /// The id of its region.
    pub region: u64,
}

/// A queued task, and the number of ticks that its region has still to begin until it runs, 1 for the next.
#[derive(Drop)]
pub struct TaskRow {
    /// The task.
    pub task: Task,
    /// The number of ticks.
    pub rest: u32,
}

/// An entity and where it is.
#[derive(Clone, Copy, Debug, PartialEq, Eq)]
pub struct EntityRow {
    /// The id of the entity.
    pub id: u32,
    /// Where it is.
    pub place: Place,
}

/// What a report is made of: the opening, the history, and the rows of the world after it, each list in the report's order.
#[derive(Drop)]
pub struct Closing {
    /// The world before its history.
    pub opening: Opening,
    /// All entries, oldest first.
    pub history: Sequence<PackedEntry>,
    /// By id.
    pub regions: Sequence<RegionRow>,
    /// By (z, x).
    pub owners: Sequence<OwnerRow>,
    /// By number.
    pub tasks: Sequence<TaskRow>,
    /// By id.
    pub entities: Sequence<EntityRow>,
    /// Those with a number above 0, by (x, y, z).
    pub blocks: Sequence<BlockAt>,
}
