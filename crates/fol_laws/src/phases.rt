//! When a region owes ticks.

ghost use Rattle.fol_laws.specs.Phases.{NoneOwesOutsidePhases};

/// While no phase is open, no region owes a tick.
pub fn none_owes_outside_phases()
    ensures { NoneOwesOutsidePhases }
{}
