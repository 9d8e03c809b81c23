//! A place that each tick passes.

/// Is called once between the begin and the release of each tick, but not of a tick in which no task is due and few entities walk, where it does not watch.
///
/// It says nothing of content, and nothing that a run promises depends on it: a test holds ticks at a gate
/// of its own, to see several of them at one moment.
pub trait Gate {
    /// The worker of this number, from 1, has begun a tick of the region and has not released it.
    fn passed(&self, worker: u32, region: u64);

    /// Whether it wants to see each tick. One that does not may be passed over by ticks in which no task is due and few entities walk.
    fn watches(&self) -> bool {
        true
    }
}

/// A gate that does nothing.
#[derive(Clone, Copy, Debug, Default)]
pub struct QuietGate;

impl Gate for QuietGate {
    fn passed(&self, _worker: u32, _region: u64) {}

    fn watches(&self) -> bool {
        false
    }
}
