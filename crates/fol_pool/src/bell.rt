//! Ends the sleep of the workers.

use std::sync::Wait;
use std::sync::atomic::{AtomicU64, Ordering};
use std::time::Duration;

/// Before it rang.
const SILENT: u32 = 0;

/// Rings once, when the history is over, so that nobody waits for a worker that sleeps. Nothing that a run promises depends on it.
#[derive(Drop)]
pub(crate) struct Bell {
    rung: AtomicU64,
}

impl Bell {
    /// A bell that did not ring yet.
    pub(crate) fn new() -> Bell {
        Bell {
            rung: AtomicU64::new(SILENT as u64),
        }
    }

    /// Ends all sleeps, and those to come.
    pub(crate) fn ring(&self) {
        self.rung.store(1, Ordering::SeqCst);
        self.rung.wake_all();
    }

    /// Sleeps so long, or until it rings; or wakes for no reason.
    pub(crate) fn sleep<R: Wait>(&self, rt: &R, time: Duration) {
        self.rung.park_timeout(rt, SILENT, time);
    }
}
