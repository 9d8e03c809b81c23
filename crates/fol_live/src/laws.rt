//! What follows from the contracts of the calls: what a turn adds to what its seat knows, and what holds of a seat from the claim of its
//! tick to its release. Each law is the contract of a function with an empty body.

ghost use Rattle.fol_live.specs.Laws.{LateBeginsKeepTicksOpen};
ghost use Rattle.fol_live.specs.Held.{ClaimedTickIsHeld, HeldTickMayRun, RunTickMayBeReleased};
ghost use Rattle.fol_live.specs.OneTurn.{NoEventIsOwn, OneEventIsOwn};

/// Where the core recorded an event in a turn, the seat's own entries have grown by that, behind Begins that it learnt of, and it is the last
/// that the seat has seen.
pub fn one_event_is_own()
    ensures { OneEventIsOwn }
{}

/// Where it recorded none, they have grown by such Begins alone.
pub fn no_event_is_own()
    ensures { NoEventIsOwn }
{}

/// A seat that claimed a tick holds it.
pub fn claimed_tick_is_held()
    ensures { ClaimedTickIsHeld }
{}

/// A tick that a seat holds may be run.
pub fn held_tick_may_run()
    ensures { HeldTickMayRun }
{}

/// When it has run, with the seat as its host and whatever other seats recorded meanwhile, the seat may release it.
pub fn run_tick_may_be_released()
    ensures { RunTickMayBeReleased }
{}

/// Begins that a seat learns of, and records, leave each open tick open.
pub fn late_begins_keep_ticks_open()
    ensures { LateBeginsKeepTicksOpen }
{}
