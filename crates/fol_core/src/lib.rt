//! The machine of one thread: a core stands for an opening and a history that is a run of it. It is for who keeps a world alone, and `fol_live`
//! makes a shared world of it. Nothing here waits or starts a thread.
//!
//! Each call returns what the world after the history says, and adds the entry that it says. The tables inside, of `fol_world`, are the
//! world after the history, so no call replays it; where ticks were made before their Begins are recorded, they are the world in which
//! these regions have begun already.
//!
//! The calls that a user makes first, in this order:
//! 1. `Core::start` makes a core of an opening.
//! 2. `Core::load` and `Core::post` ask for a loaded chunk and for a task.
//! 3. `Core::open_phase` lets each region owe so many ticks; `Core::reserve` and then `Core::begin` give the tick of one.
//! 4. `Core::release` takes a tick back that `fol_tick::run_tick` has run. `Core::end` does the same where the tick stands.
//!    `Core::reserve_release` takes the memory beforehand, so that neither can fail.
//! 5. `Core::prepare` gives the tick of a region before its Begin is recorded; `Core::learn` records that Begin, or `Core::withdraw` takes
//!    the tick back. `Core::prepare_in` and `Core::withdraw_in` do so where a tick stands, and `Core::reserve_with` where a list does. In
//!    between no call may touch the region. `Core::touched` says what an event on a chunk may touch, and where a hold is on the chunk
//!    `Core::touched_alone` says it with no list.
//! 6. `Core::close_phase` and `Core::finish` end a phase and the history, and `Core::closing` gives all that stands at the end.
#![tactic(auto)]

mod answers;
mod closing;
mod entries;
mod loads;
mod machine;
mod marks;
mod owners;
mod phase_steps;
mod phases;
mod posts;
mod prepared;
mod quiet;
mod releases;
mod ticks;
mod undone;

pub use answers::{BeginAnswer, Close, CloseFault, Finish, Phase, Posting};
pub use fol_data::Tick;
pub use machine::Core;
