//! What a region keeps to itself while it ticks.

ghost use Rattle.fol_laws.specs.Ownership.{TickingKeepsItsOwn};

/// From a Begin of a region to its End no event changes its sections, its worker, recorded chunks, due tasks or counter, or a block
/// or an entity in its recorded chunks, an End of another region included.
pub fn ticking_keeps_its_own()
    ensures { TickingKeepsItsOwn }
{}
