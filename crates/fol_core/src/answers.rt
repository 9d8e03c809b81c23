//! What the calls of a core answer.

use fol_data::Tick;
use fol_model::{Action, State};

/// What became of a post.
#[derive(Drop)]
pub enum Posting {
    /// The task was accepted under this number.
    Posted(u64),
    /// The task's chunk could not be held: `present` sections are there, `wanted` more are needed.
    Full { present: u32, wanted: u32 },
    /// Finish stands in the history; the action is handed back.
    Over(Action),
}

/// What opening a phase came to.
#[derive(Clone, Copy, Debug, PartialEq, Eq)]
pub enum Phase {
    Opened,
    /// A phase is open already.
    InPhase,
    /// Finish or Stop stands in the history.
    Over,
}

/// What beginning a tick came to.
#[derive(Drop)]
pub enum BeginAnswer {
    /// The region ticks, and this is its tick.
    Got(Tick),
    /// The region has this state, which is not Ready.
    NotReady(State),
    /// The region is Ready and owes no tick.
    NotOwing,
    /// Finish or Stop stands in the history.
    Over,
}

/// What closing a phase came to.
#[derive(Clone, Copy, Debug, PartialEq, Eq)]
pub enum Close {
    Closed,
    /// This region ticks, or is Ready and owes a tick; it is the lowest such one.
    NotYet(u64),
    /// No phase is open.
    NoPhase,
    /// Finish or Stop stands in the history.
    Over,
}

/// What finishing came to.
#[derive(Clone, Copy, Debug, PartialEq, Eq)]
pub enum Finish {
    Finished,
    /// A phase is open.
    InPhase,
    /// Finish or Stop stands in the history.
    Over,
}

/// Why there is no closing.
#[derive(Clone, Copy, Debug, PartialEq, Eq)]
pub enum CloseFault {
    /// This region ticks; it is the lowest such one.
    Ticking(u64),
    /// Out of memory.
    NoMemory,
}
