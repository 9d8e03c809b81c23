//! Begins that come early, from the definitions alone.
//!
//! A worker may begin the tick of a Ready region before anybody records the Begin. Until the Begin is recorded, the machine has two worlds:
//! the one after the history, and the one where the region has begun already. The laws here say that every event that does not touch such
//! a region is allowed in both with the same answers and leads from both to worlds that differ in the same Begins alone; how one more region
//! begins early; and how the Begin of one is recorded at last.
//!
//! Each law is the contract of a function with an empty body.
#![tactic(auto)]

ghost use Rattle.fol_early_laws.specs.EarlyBegins.{BeginComesEarly, EarlyBeginIsMet, EventsMeetEarlyBegins};

/// An event that touches no region which has begun early is allowed where these have begun, with the same answers, and leads to the same
/// world.
pub fn events_meet_early_begins()
    ensures { EventsMeetEarlyBegins }
{}

/// A Ready region that owes a tick may begin early, whichever others have.
pub fn begin_comes_early()
    ensures { BeginComesEarly }
{}

/// When the Begin of a region that has begun early is recorded, the two worlds differ in the other early Begins alone.
pub fn early_begin_is_met()
    ensures { EarlyBeginIsMet }
{}
