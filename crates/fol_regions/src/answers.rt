//! What a region table returns.

use fol_model::State;

/// What adding a hold on a chunk came to.
#[derive(Clone, Copy, Debug, PartialEq, Eq)]
pub enum AddAnswer {
    /// The hold was counted, and no section was missing.
    Counted,
    /// The hold was counted, and the missing sections came.
    Changed,
    /// Nothing changed, since `present` sections and the `wanted` missing ones are more than 16,384.
    Full { present: u32, wanted: u32 },
}

/// The answer to the begin of a tick.
#[derive(Clone, Copy, Debug, PartialEq, Eq)]
pub enum Begun {
    /// The region ticks now.
    Begun,
    /// The region is in this state, which is not Ready, and nothing changed.
    NotReady(State),
}
