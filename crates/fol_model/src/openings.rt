//! The world before its history.

use crate::{BlockPos, Entity, Grid, Sequence};
use std::marker::Model;

/// A block with a number.
#[derive(Clone, Copy, Debug, PartialEq, Eq)]
pub struct BlockAt {
    /// Where the block is.
    pub at: BlockPos,
    /// Its number.
    pub id: u16,
}

/// What a world text says: the version of its language, the grid, the blocks with a number and the entities.
///
/// Every value has version 1 or 2, blocks in order of (x, y, z) and entities in order of id, with distinct positions and ids, all
/// within the limits, and no block with number 0.
#[derive(Drop)]
pub struct Opening {
    /// The version of the language of its texts.
    pub version: u8,
    /// How chunks and sections are grouped.
    pub grid: Grid,
    /// The blocks with a number.
    pub blocks: Sequence<BlockAt>,
    /// The entities.
    pub entities: Sequence<Entity>,
}

impl Model for Opening {
    ghost use Rattle.fol_model.specs.OpeningParts.{OpeningParts, IsOpening};

    ghost Value = { OpeningParts };

    ghost view = { λ o. record { version = o.version; grid = o.grid; blocks = o.blocks; entities = o.entities } };

    ghost invariant = { λ o. IsOpening (record { version = o.version; grid = o.grid; blocks = o.blocks; entities = o.entities }) };
}
