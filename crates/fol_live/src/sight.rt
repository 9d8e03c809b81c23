//! What a seat keeps of the history that it has seen.

/// What a seat keeps of the history that it has seen. Contracts say by `IsSight` what it tells of that history.
#[derive(Clone, Copy)]
pub struct Sight {
    /// How many entries there are.
    pub front: u64,
    /// Whether it is known that after them no region that is Ready owes a tick.
    pub none_owing: bool,
}
