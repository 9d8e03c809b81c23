//! What a region may do.

/// The state of a region.
#[derive(Clone, Copy, Debug, PartialEq, Eq)]
pub enum State {
    /// It waits to be merged into a region that ticks, and may not tick itself.
    Transient,
    /// It may begin to tick.
    Ready,
    /// A worker runs its tick.
    Ticking,
    /// It is no region any more.
    Dead,
}
