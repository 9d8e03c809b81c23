//! What the calls of a world return, where a core's own answers don't say it.

use fol_data::Tick;
use fol_model::OwnerRow;

/// What opening a phase came to.
#[derive(Clone, Copy, Debug, PartialEq, Eq)]
pub enum LivePhase {
    Opened,
    /// A phase is open already.
    InPhase,
    /// The number of ticks is 0, or exceeds 10,000 together with the ticks of all phases so far, which are given.
    TooMany(u32),
    /// Finish or Stop stands in the history.
    Over,
}

/// What looking for a tick came to.
#[derive(Drop)]
pub enum TryBegin {
    /// The seat claimed the tick of a region, and holds it.
    Got(Box<Tick>),
    /// No slot had a tick when it was looked at.
    Idle,
}

/// Which region owns each present section, after so much of the history.
#[derive(Drop)]
pub struct Owners {
    /// How many entries of the history come before.
    pub front: u64,
    /// By `(z, x)`, each section once.
    pub rows: Vec<OwnerRow>,
}
