//! What a table of sections returns when a hold is added or removed.

/// What adding a hold on a chunk came to.
#[derive(Clone, Copy, Debug, PartialEq, Eq)]
pub enum Added {
    /// The hold was counted; all sections that the chunk needs were present.
    Counted,
    /// The hold was counted, and the missing sections that the chunk needs are present now.
    Filled,
    /// Nothing changed, since `present` sections and the `wanted` missing ones are more than 16,384.
    Full { present: u32, wanted: u32 },
}

/// What removing a hold on a chunk came to.
#[derive(Clone, Copy, Debug, PartialEq, Eq)]
pub enum Removed {
    /// The last hold fell.
    Gone,
    /// The chunk still has a hold.
    Lowered,
    /// There was no hold, and nothing changed.
    NotLoaded,
}
