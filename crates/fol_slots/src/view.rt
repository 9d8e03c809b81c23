//! What a seat at the table knows. No value of these types is made.
use crate::word::Word;
use std::collections::LinkedList;

/// What the keeper knows of one slot.
pub struct Place<T> {
    /// The body of the slot, where the keeper keeps it.
    pub kept: Option<T>,
    /// The body that the keeper last offered there.
    pub offered: Option<T>,
    /// The worker that the keeper found there since it last kept the slot.
    pub found: Option<u32>,
}

/// What a seat knows: the keeper's seat knows of each slot, and the seat with a worker's number what that worker holds.
pub struct View<T> {
    /// Whether it is the keeper's seat.
    pub keeper: bool,
    /// Whether it has a worker's number.
    pub worker: bool,
    /// That number.
    pub number: u32,
    /// How many numbers the keeper gave out.
    pub made: u32,
    /// The slot that the worker of that number holds.
    pub slot: Option<u32>,
    /// The body that it claimed there.
    pub claimed: Option<T>,
    /// The slots and words that its failed claims met since it last held a slot.
    pub found: LinkedList<(u32, Word)>,
    /// The slot that the seat has out.
    pub out: Option<u32>,
    /// What the keeper knows of each slot.
    pub places: LinkedList<Place<T>>,
}
