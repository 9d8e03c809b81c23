//! The orders of places.

ghost use Rattle.std.specs.Prelude.{◌≡◌};
ghost use Rattle.fol_model.specs.Universe.{block_cmp, chunk_cmp, section_cmp};

use fol_model::{BlockPos, ChunkPos, SectionPos};
use std::cmp::Ordering;

/// By x, then by y, then by z.
#[tactic(auto, unfolding(fol_model::specs::Universe::block_cmp))]
pub fn compare_blocks(a: BlockPos, b: BlockPos) -> Ordering
    ensures { result ≡ block_cmp a b }
{
    a.cmp(&b)
}

/// By z, then by x.
#[tactic(auto, unfolding(fol_model::specs::Universe::chunk_cmp))]
pub fn compare_chunks(a: ChunkPos, b: ChunkPos) -> Ordering
    ensures { result ≡ chunk_cmp a b }
{
    a.cmp(&b)
}

/// By z, then by x.
#[tactic(auto, unfolding(fol_model::specs::Universe::section_cmp))]
pub fn compare_sections(a: SectionPos, b: SectionPos) -> Ordering
    ensures { result ≡ section_cmp a b }
{
    a.cmp(&b)
}
