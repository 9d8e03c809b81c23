//! The ticks that are offered to workers: a core whose Ready regions lie in slots, so that a worker begins a tick without the lock.
//!
//! An `Offers` ties a core to the keeper's seat of some slots. The tick of a region that is offered was made by the core before its Begin is
//! recorded, and lies in a slot of its own. A worker claims it there by one compare and exchange, of which the core learns later: `call_back`
//! either gets the tick back out of its slot, untouched, or finds the worker that has it, and then records its Begin. When all tasks of the
//! tick have run, the worker gives it back to `end`.
//!
//! Contracts see the core, as if no slot were there; which tick lies in which slot is what the type keeps. It is for who keeps a shared world.
#![tactic(auto)]

ghost use Rattle.fol_offers.specs.Fit.{OfferedTickMayRun};

mod boxes;
mod ends;
mod events;
mod offer;
mod offers;
mod places;
mod quiet;
mod recalls;

pub use offer::Offer;
pub use offers::{Offers, OffersAndSeats};

/// A tick that was offered may be run, by whichever worker claims it.
pub fn offered_tick_may_run()
    ensures { OfferedTickMayRun }
{}
