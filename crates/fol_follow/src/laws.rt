//! What follows from the definitions: what becomes of an ask, and why a visit tells where its entities are. Each law is the contract of a
//! function with an empty body.

ghost use Rattle.fol_follow.specs.Fates.{AsksAreFollowed};
ghost use Rattle.fol_follow.specs.Follows.{TickKeepsItsEntities, VisitTellsTheEnd};

/// In every run, a queued ask is visited once, by the visit that is the `delay`-th one behind it with its entity, at the block where this has the
/// entity; or there were fewer, and it is left with the rest.
pub fn asks_are_followed()
    ensures { AsksAreFollowed }
{}

/// In every run of a world, the entities that a tick leaves in its recorded chunks are the same from the flat world at its Begin as from the one at
/// its End.
pub fn tick_keeps_its_entities()
    ensures { TickKeepsItsEntities }
{}

/// The entities that a finished tick shows, while its End is not recorded, are those that the End leaves in the recorded chunks, each at its block.
pub fn visit_tells_the_end()
    ensures { VisitTellsTheEnd }
{}
