//! Chunks of a list as bits, which tell in a few steps whether a chunk is one of them.

ghost use Rattle.std.specs.Prelude.{◌≡◌, ◌<◌, true, false, ◌||◌, length, IfSome, MatchOption};
ghost use Rattle.std.proofs.Props.{props};
ghost use Rattle.fol_model.specs.declared.places.ChunkPos.{ChunkPos};
ghost use Rattle.fol_model.specs.Geometry.{same_chunk};
ghost use Rattle.fol_chunks.specs.Contents.{is_recorded};
ghost use Rattle.fol_chunks.specs.Masks.{is_marked, is_near, offset as offset_of};

use crate::lookup::Lookup;
use fol_model::ChunkPos;

/// The chunks of a list that lie in a square of 64 rows and columns, each as a bit.
#[derive(Clone, Copy)]
pub struct Mask<'a> {
    chunks: &'a [ChunkPos],
    /// The chunk of the first bit of the first row.
    corner: ChunkPos,
    /// The chunks of a row by their columns, the first by the lowest bit.
    rows: [u64; 64],
    ghost exact: { (c : ChunkPos) → is_recorded chunks.now c ≡ is_marked corner rows c } by { Prim.hlevel props },
}

impl<'a> Mask<'a> {
    /// The mask of these chunks, where they stand by z and lie in such a square. Looks at each of them.
    pub fn of(chunks: &'a [ChunkPos]) -> Option<Mask<'a>>
        ensures { IfSome result (λ mask. mask.chunks.now ≡ chunks.now) }
    {
        let corner = ChunkPos {
            x: west_of(chunks)?,
            z: chunks[0].z,
        };
        let mut rows = [0; 64];
        for c in chunks {
            if !mark(&mut rows, corner, *c) {
                return None;
            }
        }
        Some(Mask {
            chunks,
            corner,
            rows,
        })
    }
}

impl<'a> Lookup for Mask<'a> {
    ghost listed = { λ mask. mask.chunks.now };

    fn holds(&self, c: ChunkPos) -> bool {
        match (offset(self.corner.x, c.x), offset(self.corner.z, c.z)) {
            (Some(column), Some(row)) => (self.rows[row as usize] >> column) & 1 == 1,
            _ => false,
        }
    }
}

/// The least x of the chunks, if there is one.
fn west_of(chunks: &[ChunkPos]) -> Option<i32>
    ensures { IfSome result (λ west. 0 < length chunks.now) }
{
    let mut west = chunks.first()?.x;
    for c in chunks {
        west = west.min(c.x);
    }
    Some(west)
}

/// Sets the bit of a chunk, if it lies in the square.
fn mark(rows: &mut [u64; 64], corner: ChunkPos, c: ChunkPos) -> bool
    ensures { result ≡ true → (q : ChunkPos) → is_marked corner rows.new q
        ≡ (is_marked corner rows.old q || same_chunk q c) }
{
    match (offset(corner.x, c.x), offset(corner.z, c.z)) {
        (Some(column), Some(row)) => {
            rows[row as usize] |= 1 << column;
            true
        }
        _ => false,
    }
}

/// How far a number stands behind the first of 64, if it is one of them.
fn offset(first: i32, x: i32) -> Option<u32>
    ensures near { MatchOption result (is_near first x ≡ false) (λ n. is_near first x ≡ true) }
    ensures offset { IfSome result (λ n. n ≡ offset_of first x) }
    ensures below { IfSome result (λ n. n < 64) }
{
    if x < first {
        return None;
    }
    let far = x.abs_diff(first);
    if far < 64 { Some(far) } else { None }
}
