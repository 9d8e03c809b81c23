//! What holds of each tick that a core gives out, however many are open at once.
//!
//! `fol_core` gives out a tick at a Begin and takes it back at its End; `fol_tick` runs it in between. The laws here join the two: a tick
//! that was given out, and whose End is not recorded, may be run, and when it has run it may be given back. Other entries may come in
//! between, Begins and Ends of other regions among them.
//!
//! Each law is the contract of a function with an empty body. It serves whoever runs the ticks of a core.
#![tactic(auto)]

ghost use Rattle.fol_tick_laws.specs.OpenTicks.{BegunTickIsOpen, FinishedTickIsOut, LearntTickIsOpen, OnlyATouchIsOne, OnlyItsEndClosesATick, OpenTickMayRun};
ghost use Rattle.fol_tick_laws.specs.Touching.{OwnerIsListedAlone, UnlistedIsSpared, WhatIsTouchedMayBe};

#[cfg(test)]
mod early;
#[cfg(test)]
mod tests;

/// The tick that a Begin gives out is open.
pub fn begun_tick_is_open()
    ensures { BegunTickIsOpen }
{}

/// So is the tick that was made before its Begin was recorded, once the Begin is.
pub fn learnt_tick_is_open()
    ensures { LearntTickIsOpen }
{}

/// A region stays untouched at every entry but a Stop and those that touch it.
pub fn only_a_touch_is_one()
    ensures { OnlyATouchIsOne }
{}

/// The tick stays open at every entry but the End of its region.
pub fn only_its_end_closes_a_tick()
    ensures { OnlyItsEndClosesATick }
{}

/// While it is open it may be run.
pub fn open_tick_may_run()
    ensures { OpenTickMayRun }
{}

/// When it has run, and is still open, it may be given back.
pub fn finished_tick_is_out()
    ensures { FinishedTickIsOut }
{}

/// A Ready region that a load, a post or an unload touches is one that `Core::touched` names.
pub fn what_is_touched_may_be()
    ensures { WhatIsTouchedMayBe }
{}

/// So where it names no prepared region, neither of the three touches one.
pub fn unlisted_is_spared()
    ensures { UnlistedIsSpared }
{}

/// Where a hold is on a chunk, the region that `Core::touched_alone` names is the one that `Core::touched` lists, if it is Ready; else nothing
/// is listed.
pub fn owner_is_listed_alone()
    ensures { OwnerIsListedAlone }
{}
