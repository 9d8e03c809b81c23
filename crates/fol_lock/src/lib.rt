//! A lock over one state, whose takers draw tickets.
//!
//! The state keeps a log, and each entry of the log names the seat that gave it (`Kept`). `Lock::new` deals numbered
//! seats. A seat takes a turn, changes the state and gives it back with entries of its own behind the log. The
//! contracts promise, for any number of threads:
//!
//! - the state that a turn lends has a log that begins with all that the seat has seen, the origin that the seats were
//!   dealt with, and of the seat itself just the entries that it gave;
//! - `Lock::close` gives a state that is so for every seat, with no entry of anyone else.
//!
//! So what each seat knows of the log holds of the one log at the end. Nothing is promised of when a turn comes. The
//! lock stands over `atomic_table`: two words and a slot under one rule (`rule.rt`), which every step keeps. It serves
//! `fol_live`, which puts one shared world behind one lock.
#![tactic(auto)]

mod kept;
mod lock;
mod rule;
mod seat;
mod turn;
mod view;

pub use kept::Kept;
pub use lock::{Lock, LockAndSeats};
pub use seat::{Seat, Seats};
pub use turn::Turn;
