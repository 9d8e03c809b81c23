//! What stands in a list in order, and lies in a chunk.

ghost use Rattle.std.specs.Prelude.{◌≡◌};

use crate::compare_blocks;
use fol_model::{BlockAt, ChunkPos, Entity, chunk_of};
use std::cmp::Ordering;

/// An element of a list in order, which lies in a chunk.
pub trait Row: Copy {
    ghost use Rattle.std.specs.declared.cmp.Ordering.{Ordering};
    ghost use Rattle.std.specs.Cmp.{IsTotalOrder};
    ghost use Rattle.fol_model.specs.declared.places.ChunkPos.{ChunkPos};

    ghost order: { Self → Self → Ordering };

    ghost place: { Self → ChunkPos };

    /// Which of two rows stands first.
    fn compare(&self, other: &Self) -> Ordering
        ensures { result ≡ order self.now other.now };

    /// The chunk in which it lies.
    fn chunk(&self) -> ChunkPos
        ensures { result ≡ place self.now };

    ghost total: { IsTotalOrder order };
}

/// Blocks stand by x, then y, then z.
impl Row for BlockAt {
    ghost use Rattle.fol_model.specs.declared.openings.BlockAt.{BlockAt};
    ghost use Rattle.fol_model.specs.Geometry.{chunk_of};
    ghost use Rattle.fol_model.specs.Universe.{block_cmp};
    ghost use Rattle.std.proofs.lemmas.Cmp.{on_total};
    ghost use Rattle.fol_model.proofs.PlaceKeys.{block_cmp_total};

    ghost order = { λ a b. block_cmp a.at b.at };

    ghost place = { λ b. chunk_of b.at };

    fn compare(&self, other: &BlockAt) -> Ordering {
        compare_blocks(self.at, other.at)
    }

    fn chunk(&self) -> ChunkPos {
        chunk_of(self.at)
    }

    ghost total = { on_total (λ (b : BlockAt). b.at) block_cmp_total };
}

/// Entities stand by id.
impl Row for Entity {
    ghost use Rattle.fol_model.specs.declared.entities.Entity.{Entity};
    ghost use Rattle.fol_model.specs.Geometry.{chunk_of};
    ghost use Rattle.std.specs.Ordering.{nat_cmp};
    ghost use Rattle.std.specs.Cmp.{nat_cmp_total};
    ghost use Rattle.std.proofs.lemmas.Cmp.{on_total};

    ghost order = { λ a b. nat_cmp a.id b.id };

    ghost place = { λ e. chunk_of e.at };

    fn compare(&self, other: &Entity) -> Ordering {
        self.id.cmp(&other.id)
    }

    fn chunk(&self) -> ChunkPos {
        chunk_of(self.at)
    }

    ghost total = { on_total (λ (e : Entity). e.id) nat_cmp_total };
}
