//! The fixed lists over which the model counts, and in whose order a report prints its rows.

ghost use Rattle.fol_laws.specs.Orders.{SectionsAreListed, ChunksAreListed, BlocksAreListed, NumbersAreListed};

/// The list of all sections has each section within the limits once, by z and then by x.
pub fn sections_are_listed()
    ensures { SectionsAreListed }
{}

/// The list of all chunks has each chunk within the limits once, by z and then by x.
pub fn chunks_are_listed()
    ensures { ChunksAreListed }
{}

/// The list of all blocks has each block within the limits once, by x, then by y, then by z.
pub fn blocks_are_listed()
    ensures { BlocksAreListed }
{}

/// The numbers below a number are just these, rising.
pub fn numbers_are_listed()
    ensures { NumbersAreListed }
{}
