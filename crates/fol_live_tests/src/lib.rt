//! The tests of `fol_live` and of `fol_offers`: a small world whose ticks are claimed without the lock, on one thread.
//!
//! They stand in a crate of their own since the tests of a crate are proved with all of its functions once more. What may go wrong in a step is
//! looked at in a small function, so that a test itself has one way through it.
#![tactic(auto)]

#[cfg(test)]
mod calls;
#[cfg(test)]
mod claims;
#[cfg(test)]
mod compare;
#[cfg(test)]
mod history;
#[cfg(test)]
mod offers;
#[cfg(test)]
mod seats;
