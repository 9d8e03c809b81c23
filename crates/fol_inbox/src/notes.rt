//! What the rule of the queue notes of each pass. No value of these types is made: only proofs speak of them.

use crate::letter::Letter;
use std::collections::LinkedList;

/// All that one sender has sent.
pub struct Claim {
    pub number: u64,
    pub sent: LinkedList<Letter>,
}

/// What one pass knows, and what it may do.
pub struct Notes {
    /// Whether it is the pass that takes letters, of which the passes of the senders were made.
    pub drains: bool,

    /// How many senders were made.
    pub dealt: u64,

    /// The letters that were taken, in order.
    pub taken: LinkedList<Letter>,

    /// The senders whose pass it is, or whose passes were joined into it.
    pub claims: LinkedList<Claim>,

    /// Whether nobody else can send, so that `rest` is what the queue holds.
    pub alone: bool,
    pub rest: LinkedList<Letter>,
}
