//! A list of chunks in which a chunk is searched.

ghost use Rattle.std.specs.Prelude.{◌≡◌, ◌<◌, ◌≤◌, true, length, IfSome};
ghost use Rattle.std.specs.List.{AllWithin};
ghost use Rattle.std.specs.declared.cmp.Ordering.TheVariants.{Less, Greater};
ghost use Rattle.std.specs.List.Sorted.{IsStrictlySortedBy};
ghost use Rattle.std.proofs.Props.{props};
ghost use Rattle.fol_keyed.specs.Order.{chunk_cmp};
ghost use Rattle.fol_keyed.specs.Members.{is_listed};

use crate::compare_chunks;
use fol_model::ChunkPos;
use std::cmp::Ordering;

/// Chunks by z, and then by x.
#[derive(Clone, Copy)]
pub struct ChunkList<'a> {
    chunks: &'a [ChunkPos],
    /// The first chunk, and how many chunks a row has if the list is a rectangle. They serve to guess places alone.
    corner: ChunkPos,
    width: i32,
    ghost order: { IsStrictlySortedBy chunk_cmp chunks.now } by { Prim.hlevel props },
}

impl<'a> ChunkList<'a> {
    /// The list of these chunks.
    pub fn of(chunks: &'a [ChunkPos]) -> ChunkList<'a>
        requires { IsStrictlySortedBy chunk_cmp chunks.now }
        ensures { result.chunks.now ≡ chunks.now }
    {
        let (corner, width) = match (chunks.first(), chunks.last()) {
            (Some(first), Some(last)) => (*first, last.x.wrapping_sub(first.x).wrapping_add(1)),
            _ => (ChunkPos { x: 0, z: 0 }, 0),
        };
        ChunkList {
            chunks,
            corner,
            width,
        }
    }

    /// Whether the chunk is one of the list. Where the chunks are those of a rectangle, this looks at two of them at most.
    pub fn has(&self, c: ChunkPos) -> bool
        ensures { result ≡ is_listed self.now.chunks.now c }
    {
        match self.glance(c) {
            Some(is_there) => is_there,
            None => self.search(c),
        }
    }

    /// Whether the chunk is one of the list, where a look at the place that it would have in a rectangle tells.
    fn glance(&self, c: ChunkPos) -> Option<bool>
        ensures { IfSome result (λ is_there. is_there ≡ is_listed self.now.chunks.now c) }
    {
        if self.chunks.is_empty() {
            return None;
        }
        let i = self.guess(c);
        match compare_chunks(self.chunks[i], c) {
            Ordering::Equal => Some(true),
            Ordering::Less => self.gap(i + 1, c),
            Ordering::Greater => self.gap(i, c),
        }
    }

    /// The place that the chunk would have if the list were a rectangle, or the nearest place to it.
    fn guess(&self, c: ChunkPos) -> usize
        requires { 0 < length self.now.chunks.now }
        ensures { result < length self.now.chunks.now }
    {
        let right = c.x.wrapping_sub(self.corner.x).max(-1).min(self.width);
        let down = c.z.wrapping_sub(self.corner.z);
        nearest(
            down.wrapping_mul(self.width).wrapping_add(right),
            self.chunks.len() - 1,
        )
    }

    /// `Some(false)` where the chunk would stand at this place, between two chunks of the list.
    fn gap(&self, i: usize, c: ChunkPos) -> Option<bool>
        requires { i ≤ length self.now.chunks.now }
        ensures { IfSome result (λ is_there. is_there ≡ is_listed self.now.chunks.now c) }
    {
        if is_behind(self.chunks, i, c) && is_ahead(self.chunks, i, c) {
            Some(false)
        } else {
            None
        }
    }

    /// Searches the chunk by halves.
    fn search(&self, c: ChunkPos) -> bool
        ensures { result ≡ is_listed self.now.chunks.now c }
    {
        self.chunks
            .binary_search_by(|chunk| compare_chunks(*chunk, c))
            .is_ok()
    }
}

/// The number from 0 to `last` that is nearest to this one.
fn nearest(place: i32, last: usize) -> usize
    ensures { result ≤ last }
{
    match usize::try_from(place) {
        Ok(place) => place.min(last),
        Err(_) => 0,
    }
}

/// Whether the chunks before this place stand before the chunk.
fn is_behind(chunks: &[ChunkPos], i: usize, c: ChunkPos) -> bool
    requires order { IsStrictlySortedBy chunk_cmp chunks.now }
    requires range { i ≤ length chunks.now }
    ensures { result ≡ true → AllWithin (λ x. chunk_cmp x c ≡ Less) chunks.now 0 i }
{
    i == 0 || compare_chunks(chunks[i - 1], c).is_lt()
}

/// Whether the chunks from this place on stand behind the chunk.
fn is_ahead(chunks: &[ChunkPos], i: usize, c: ChunkPos) -> bool
    requires order { IsStrictlySortedBy chunk_cmp chunks.now }
    requires range { i ≤ length chunks.now }
    ensures { result ≡ true
        → AllWithin (λ x. chunk_cmp x c ≡ Greater) chunks.now i (length chunks.now) }
{
    i == chunks.len() || compare_chunks(chunks[i], c).is_gt()
}
