//! The events of a history.

use crate::{Action, ChunkPos, Ran, Sequence};

/// What a load came to.
#[derive(Clone, Copy, Debug, PartialEq, Eq)]
pub enum Loaded {
    /// The chunk has one ticket more.
    Counted,
    /// `present` sections are there, the chunk needs `wanted` more, and together they exceed 16,384.
    Full { present: u32, wanted: u32 },
    /// The history is finished. No event holds this answer.
    Over,
}

/// What an unload came to.
#[derive(Clone, Copy, Debug, PartialEq, Eq)]
pub enum Unloaded {
    /// The chunk has one ticket less.
    Lowered,
    /// The chunk had no ticket.
    NoTicket,
    /// The history is finished. No event holds this answer.
    Over,
}

/// What became of a task that was asked for.
#[derive(Clone, Copy, Debug, PartialEq, Eq)]
pub enum Accept {
    /// It was accepted under this number.
    Posted(u64),
    /// Its chunk could not be held: `present` sections are there, `wanted` more are needed.
    Full { present: u32, wanted: u32 },
}

/// One step of the world.
#[derive(Drop)]
pub enum Event {
    /// A caller adds a ticket to a chunk.
    Load {
        caller: u32,
        chunk: ChunkPos,
        answer: Loaded,
    },
    /// A caller takes a ticket from a chunk.
    Unload {
        caller: u32,
        chunk: ChunkPos,
        answer: Unloaded,
    },
    /// A caller asks for a task.
    Post {
        caller: u32,
        chunk: ChunkPos,
        delay: u32,
        action: Action,
        answer: Accept,
    },
    /// A phase of so many ticks is opened.
    PhaseOpen(u32),
    /// A worker begins the tick of a region.
    Begin {
        worker: u32,
        region: u64,
    },
    /// A worker ends the tick of a region, whose counter is then `tick`.
    End {
        worker: u32,
        region: u64,
        tick: u64,
        ran: Sequence<Ran>,
        accepts: Sequence<Accept>,
    },
    /// The phase is closed.
    PhaseClose,
    /// The history is finished.
    Finish,
    /// A caller gives up.
    Stop {
        caller: u32,
    },
}

/// One entry of a history: an event, and the seat that recorded it.
#[derive(Drop)]
pub struct Entry {
    /// The number of the seat.
    pub by: u32,
    /// The event.
    pub event: Event,
}
