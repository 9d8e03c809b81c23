//! The tests of what threads share: a lock, slots, and a small world whose readers, senders and books are used as a program has them, through
//! the calls of `fol_lock`, `fol_slots`, `fol_view`, `fol_inbox` and `fol_follow`. The world's own calls are tested in `fol_live_tests`.
//!
//! They stand in a crate of their own since the tests of a crate are proved with all of its functions once more. What may go wrong in a step is
//! looked at in a small function, so that a test itself has one way through it.
#![tactic(auto)]

#[cfg(test)]
mod compare;
#[cfg(test)]
mod follow;
#[cfg(test)]
mod inbox;
#[cfg(test)]
mod lock;
#[cfg(test)]
mod slots;
#[cfg(test)]
mod view;
#[cfg(test)]
mod world;
