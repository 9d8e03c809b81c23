//! Chunks that are looked up.

ghost use Rattle.std.specs.Prelude.{◌≡◌};
ghost use Rattle.std.specs.List.Sorted.{IsStrictlySortedBy};
ghost use Rattle.fol_keyed.specs.Order.{chunk_cmp};
ghost use Rattle.fol_chunks.specs.Contents.{is_recorded};

use fol_keyed::{ChunkList, ChunkSet};
use fol_model::ChunkPos;

/// Chunks that stand by z, and then by x, of which each can be looked up.
pub trait Lookup {
    ghost use Rattle.std.specs.Prelude.{List};
    ghost use Rattle.fol_model.specs.declared.places.ChunkPos.{ChunkPos};

    ghost listed: { Self → List ChunkPos };

    /// Whether the chunk is one of them.
    fn holds(&self, c: ChunkPos) -> bool
        requires { IsStrictlySortedBy chunk_cmp (listed self.now) }
        ensures { result ≡ is_recorded (listed self.now) c };
}

/// Chunks in one list.
impl<'a> Lookup for ChunkList<'a> {
    ghost listed = { λ list. list.chunks.now };

    fn holds(&self, c: ChunkPos) -> bool {
        self.has(c)
    }
}

/// Chunks of which some may still wait.
impl Lookup for ChunkSet {
    ghost listed = { λ set. set };

    fn holds(&self, c: ChunkPos) -> bool {
        self.has(c)
    }
}
