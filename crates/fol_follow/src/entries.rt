//! What the book records, and what it hands out.

use fol_model::{BlockPos, Sequence};

/// An entity and the block at which it stands.
#[derive(Clone, Copy, Debug, PartialEq, Eq)]
pub struct EntityAt {
    /// The entity.
    pub id: u32,
    /// Where it stands.
    pub at: BlockPos,
}

/// A visit that was made: the answer to an ask.
#[derive(Clone, Copy, Debug, PartialEq, Eq)]
pub struct Visit {
    /// The number of the ask.
    pub number: u64,
    /// The entity that was asked for.
    pub entity: u32,
    /// Where the entity stood.
    pub at: BlockPos,
}

/// An ask that was not visited.
#[derive(Clone, Copy, Debug, PartialEq, Eq)]
pub struct Waiting {
    /// The number of the ask.
    pub number: u64,
    /// The entity that was asked for.
    pub entity: u32,
    /// In which visit from now that has the entity it would be visited, 1 for the next one.
    pub rest: u32,
}

/// What became of an ask.
#[derive(Clone, Copy, Debug, PartialEq, Eq)]
pub enum Asked {
    /// It is queued under this number. Numbers rise from 1.
    Queued(u64),
    /// The opening has no such entity.
    Unknown,
}

/// What a tick's visit came to.
#[derive(Drop)]
pub enum Visiting {
    /// The visits that it made, in order of number.
    Made(Sequence<Visit>),
    /// The book has a visit of this tick already.
    Again,
}

/// One step of a book.
#[derive(Drop)]
pub enum BookEvent {
    /// A seat asks for the place of an entity.
    Ask {
        entity: u32,
        delay: u32,
        answer: Asked,
    },
    /// A seat shows a finished tick of a region: the entities that stand there, by id, and the visits that this makes, in order of number.
    Visit {
        region: u64,
        begun: u64,
        here: Sequence<EntityAt>,
        visits: Sequence<Visit>,
    },
}

/// One entry of a book: an event, and the seat that recorded it.
#[derive(Drop)]
pub struct BookEntry {
    /// The number of the seat.
    pub by: u32,
    /// The event.
    pub event: BookEvent,
}

/// What is left of a book at its end.
#[derive(Drop)]
pub struct BookClosing {
    /// All that was recorded, oldest first.
    pub history: Sequence<BookEntry>,
    /// The asks that were not visited, in order of number.
    pub left: Sequence<Waiting>,
}
