//! What a claim and a keep answer.

use crate::word::Word;

/// What a worker's claim of a slot returns.
#[derive(Drop)]
pub enum Claim<T> {
    /// The worker holds the slot, and has its body.
    Claimed(T),
    /// The slot's word was this one, and not Ready.
    Taken(Word),
}

/// What the keeper's try of a slot returns.
#[derive(Clone, Copy)]
pub enum Keep {
    /// The keeper keeps the slot.
    Kept,
    /// The worker of this number holds the slot.
    Busy(u32),
}
