//! How long a seat stays away that found nothing to do, or the lock crowded.
//!
//! The lock serves in order, so each thread that draws a ticket and does not run holds up all behind it. A thread therefore draws one
//! only where something may come of it: after a miss it stays away, longer each time, and a worker that meets others in the lock again
//! and again leaves the ticks to them for a while. Nothing that a run promises depends on the numbers here.

use crate::bell::Bell;
use std::hint::spin_loop;
use std::sync::Wait;
use std::thread::yield_now;
use std::time::Duration;

/// How many misses in a row are met by spinning, and how many, with these, before the first sleep.
const SPINS: u32 = 4;

const AWAKE: u32 = 8;

/// How long the first sleep takes.
const SLEEP_MICROS: u64 = 20;

/// How often the sleep of a worker may double, and that of the thread that waits for the end of a phase.
const WORKER_DOUBLINGS: u32 = 8;

const CALLER_DOUBLINGS: u32 = 1;

/// How many seats may be in the lock before a worker stays away at once.
const BEARABLE_CROWD: u64 = 2;

/// How much pressure comes where a tick is to end and finds others in the lock, and how much goes where it finds the lock free: it rises where
/// more than one tick in three finds others there.
const PRESSURE: u32 = 2;

const RELIEF: u32 = 1;

/// How much pressure a worker bears before it leaves ticks to others, and how much it remembers at most.
const BEARABLE_PRESSURE: u32 = 16;

const MOST_PRESSURE: u32 = 80;

/// How much pressure more doubles the time for which it stays away.
const PRESSURE_OF_A_DOUBLING: u32 = 8;

/// What a seat remembers of how often it came in vain.
#[derive(Drop)]
pub(crate) struct Patience {
    /// How many misses there were in a row.
    misses: u32,
    /// How much more often, of late, a tick ended and found others in the lock.
    pressure: u32,
    /// How much pressure it bears.
    bearable: u32,
    doublings: u32,
}

impl Patience {
    /// Of a worker on a thread of its own.
    pub(crate) fn of_worker() -> Patience {
        Patience::new(WORKER_DOUBLINGS, BEARABLE_PRESSURE)
    }

    /// Of the thread that waits for the end of a phase, which leaves nothing to others.
    pub(crate) fn of_caller() -> Patience {
        Patience::new(CALLER_DOUBLINGS, MOST_PRESSURE)
    }

    fn new(doublings: u32, bearable: u32) -> Patience {
        Patience {
            misses: 0,
            pressure: 0,
            bearable,
            doublings,
        }
    }

    /// A tick has ended, and when it was to end, so many seats were in the lock. Whether its worker had better leave the next one to others.
    ///
    /// Where a good part of the ticks finds others in the lock, they are so short that all wait for it, and one worker fewer is faster. It
    /// then stays away the longer, the more often that was so.
    pub(crate) fn leaves(&mut self, crowd: u64) -> bool {
        self.pressure = if crowd == 0 {
            self.pressure.saturating_sub(RELIEF)
        } else {
            self.pressure.saturating_add(PRESSURE).min(MOST_PRESSURE)
        };
        let leaves = self.pressure > self.bearable;
        self.misses = if leaves {
            AWAKE.saturating_add(self.pressure / PRESSURE_OF_A_DOUBLING)
        } else {
            0
        };
        leaves
    }

    /// There was nothing to do, or no room to do it: stays away, longer each time, but no longer than until the bell rings.
    pub(crate) fn step_back<R: Wait>(&mut self, rt: &R, bell: &Bell) {
        self.misses = self.misses.saturating_add(1);
        if self.misses <= SPINS {
            spin();
        } else if self.misses <= AWAKE {
            yield_now();
        } else {
            self.sleep(rt, bell, self.misses - AWAKE - 1);
        }
    }

    /// Whether it is time to ask whether the history is over: it is about to sleep, since it was met by nothing again and again.
    pub(crate) fn asks(&self) -> bool {
        self.misses >= AWAKE
    }

    /// Whether so many seats in the lock are too many: more than bearable, or under pressure any.
    pub(crate) fn is_crowded(&self, crowd: u64) -> bool {
        crowd > BEARABLE_CROWD || (crowd > 0 && self.pressure > self.bearable)
    }

    /// Sleeps, where each doubling makes it twice as long, up to a limit.
    fn sleep<R: Wait>(&self, rt: &R, bell: &Bell, doublings: u32) {
        let micros = SLEEP_MICROS.wrapping_shl(doublings.min(self.doublings));
        bell.sleep(rt, Duration::from_micros(micros));
    }
}

/// A short stay.
fn spin() {
    for _ in 0..64 {
        spin_loop();
    }
}
