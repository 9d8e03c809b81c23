//! A world that several threads share, whose ticks are claimed without waiting: a core whose ticks are offered in slots, behind a lock. It is for
//! programs whose threads change one world at once.
//!
//! A thread calls with a seat, and each call is one turn of the lock, in which the core does what its own call says under the seat's number. Only
//! `Live::try_begin`, by which a worker gets a tick, takes no turn and does not wait: the ticks that are owed lie in slots, and a worker claims
//! one there by one compare and exchange. Whoever learns of such a claim first records its Begin. A worker runs its tick without the lock;
//! by the laws of open ticks nothing that others do meanwhile touches what it has in its hands.
//!
//! The calls that a user makes first, in this order:
//! 1. `Live::start` makes a world of an opening, and deals numbered seats.
//! 2. `Live::load` and `Live::post` ask for a loaded chunk and for a task.
//! 3. `Live::open_phase` lets each region owe so many ticks, and `Live::try_begin` gives a worker one of them.
//! 4. `LiveHost::of` makes the seat the host of its tick, for `fol_tick::run_tick`, and `Live::release` gives the tick back.
//! 5. `Live::close_phase` and `Live::finish` end a phase and the history, `Live::ended` tells a worker of it, and `Live::close` takes all seats
//!    back for the closing.
//!
//! Contracts see of a seat its number, the opening of the world, how much of the one history it has seen, the entries that are its own, and the
//! tick that it holds; so each call tells what was recorded, after what, and by whom, and the closing's history has of each seat just
//! its own entries. Inside, a `World` is what lies behind the lock, and a `Hand` is what a worker has of the slots.
#![tactic(auto)]

mod answers;
mod deal;
mod hand;
mod host;
mod laws;
mod live;
mod origin;
mod seat;
mod sight;
mod ticks;
mod turn;
mod world;

pub use answers::{LivePhase, Owners, TryBegin};
pub use fol_core::{Close, CloseFault, Finish, Posting};
pub use host::LiveHost;
pub use laws::{
    claimed_tick_is_held, held_tick_may_run, late_begins_keep_ticks_open, no_event_is_own,
    one_event_is_own, run_tick_may_be_released,
};
pub use live::{Live, LiveAndSeats};
pub use seat::Seat;
