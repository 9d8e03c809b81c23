//! The world: three towns in a row, and a courier.

use fol_model::{BlockPos, ChunkPos, Entity, Grid, Opening, SectionPos, Sequence};
use std::alloc::{AllocError, Global};

/// The entity that goes from town to town.
pub const COURIER: u32 = 1;

/// The chunk that joins the first two towns, once it is loaded.
pub const ROAD: ChunkPos = ChunkPos { x: 3, z: 0 };

/// A town: one loaded chunk, with a margin of one section round it.
#[derive(Clone, Copy, Debug, PartialEq, Eq)]
pub enum Town {
    First,
    Second,
    Third,
}

impl Town {
    ghost use Rattle.std.specs.Prelude.{IsTrue};
    ghost use Rattle.fol_model.specs.Geometry.{is_block, is_chunk};

    /// Its chunk.
    #[tactic(auto, unfolding(fol_model::specs::Geometry::is_chunk))]
    pub fn chunk(self) -> ChunkPos
        ensures { IsTrue (is_chunk result) }
    {
        match self {
            Town::First => ChunkPos { x: 0, z: 0 },
            Town::Second => ChunkPos { x: 6, z: 0 },
            Town::Third => ChunkPos { x: 12, z: 0 },
        }
    }

    /// The block where a courier stands.
    #[tactic(auto, unfolding(fol_model::specs::Geometry::is_chunk, fol_model::specs::Geometry::is_block, fol_model::specs::Geometry::chunk_of))]
    pub fn square(self) -> BlockPos
        ensures { IsTrue (is_block result) }
    {
        match self {
            Town::First => BlockPos { x: 0, y: 64, z: 0 },
            Town::Second => BlockPos { x: 96, y: 64, z: 0 },
            Town::Third => BlockPos {
                x: 192,
                y: 64,
                z: 0,
            },
        }
    }

    /// Its section: a section has one chunk.
    pub fn section(self) -> SectionPos {
        let ChunkPos { x, z } = self.chunk();
        SectionPos { x, z }
    }

    /// Where the courier goes from here.
    pub fn next(self) -> Town {
        match self {
            Town::First => Town::Second,
            Town::Second => Town::Third,
            Town::Third => Town::First,
        }
    }
}

/// An empty world in which the courier stands in the first town.
pub fn opening(alloc: Global) -> Result<Opening, AllocError> {
    let grid = Grid {
        shift: 0,
        create: 1,
        merge: 1,
        min: 2,
        num: 1,
        den: 6,
    };
    let courier = Entity {
        id: COURIER,
        at: Town::First.square(),
        vx: 0,
        vz: 0,
    };
    let entities = Vec::from_slice(alloc, &[courier])?;
    Ok(Opening {
        version: 1,
        grid,
        blocks: Sequence::new(alloc),
        entities: Sequence::of(entities),
    })
}
