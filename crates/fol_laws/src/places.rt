//! Where the entities are.

ghost use Rattle.fol_laws.specs.OnePlace.{EachHasOnePlace, PlacesTellWhere};

/// Each entity of the opening stands at one block or has one arrival, and there is no other entity.
pub fn each_has_one_place()
    ensures { EachHasOnePlace }
{}

/// The place of an entity is the block at which it stands, or the number of its arrival.
pub fn places_tell_where()
    ensures { PlacesTellWhere }
{}
