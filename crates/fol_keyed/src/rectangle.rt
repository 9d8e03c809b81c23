//! Lists of chunks that are all those of a rectangle.

ghost use Rattle.std.specs.Prelude.{◌≡◌, ◌<◌, ◌-◌, ◌&&◌, true, length, slice_index_or, IfSome};
ghost use Rattle.fol_model.specs.declared.places.ChunkPos.{ChunkPos};
ghost use Rattle.fol_keyed.specs.Members.{is_listed};
ghost use Rattle.fol_keyed.specs.Rectangles.{is_between, Follows};

use fol_model::ChunkPos;

/// All chunks between two corners.
#[derive(Clone, Copy)]
pub struct Rectangle {
    /// The corner whose coordinates are the least.
    pub first: ChunkPos,
    /// The corner whose coordinates are the greatest.
    pub last: ChunkPos,
}

impl Rectangle {
    /// The rectangle of these chunks, where they stand row by row and are just the chunks of one. Looks at each of them.
    pub fn of(chunks: &[ChunkPos]) -> Option<Rectangle>
        ensures { IfSome result (λ r.
            (c : ChunkPos) → is_listed chunks.now c ≡ is_between r.first r.last c) }
    {
        if chunks.is_empty() {
            return None;
        }
        let first = chunks[0];
        let last = chunks[chunks.len() - 1];
        if !are_all_between(chunks, first, last) {
            return None;
        }
        Some(Rectangle { first, last })
    }
}

/// Whether the chunks, which begin and end by these two, stand row by row and are all those between them.
fn are_all_between(chunks: &[ChunkPos], first: ChunkPos, last: ChunkPos) -> bool
    requires some { 0 < length chunks.now }
    requires first { slice_index_or chunks.now 0 first ≡ first }
    requires last { slice_index_or chunks.now (length chunks.now - 1) last ≡ last }
    ensures { result ≡ true → (c : ChunkPos) → is_listed chunks.now c ≡ is_between first last c }
{
    if last.x < first.x {
        return false;
    }
    for i in 1..chunks.len() {
        if !is_next(chunks[i - 1], chunks[i], first.x, last.x) {
            return false;
        }
    }
    true
}

/// Whether a chunk is the next one in rows from `west` to `east`.
fn is_next(chunk: ChunkPos, next: ChunkPos, west: i32, east: i32) -> bool
    ensures { result ≡ true → Follows west east chunk next }
{
    if chunk.x < east {
        next.z == chunk.z && next.x == chunk.x + 1
    } else {
        chunk.x == east && next.x == west && chunk.z < next.z && next.z == chunk.z + 1
    }
}
