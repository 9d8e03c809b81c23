//! The blocks of a rectangle of chunks, and many steps of an entity there at once.

ghost use Rattle.std.specs.Prelude.{◌≡◌, ◌+◌, ◌≤◌, ◌<◌, ◌/◌, ℕ, min, ℤ, pos, ◌+ℤ◌, ◌*ℤ◌, true, false, IfSome, FitsSigned};
ghost use Rattle.std.specs.Int.{w32};
ghost use Rattle.std.specs.Fn.{iterate};
ghost use Rattle.fol_model.specs.Geometry.{chunk_of as chunk_around};
ghost use Rattle.fol_chunks.specs.Areas.{is_from_to, is_inside, place_after, stepped_in};
ghost use Rattle.fol_chunks.specs.Contents.{is_recorded};

use fol_keyed::Rectangle;
use fol_model::{BlockPos, ChunkPos, Entity};

/// The blocks between two columns and two rows, these among them.
#[derive(Clone, Copy, PartialEq, Eq)]
pub struct Area {
    /// The column with the least `x`.
    pub west: i32,
    /// The column with the greatest `x`.
    pub east: i32,
    /// The row with the least `z`.
    pub north: i32,
    /// The row with the greatest `z`.
    pub south: i32,
}

impl Area {
    /// The area of these chunks, where they stand row by row and are just the chunks of a rectangle. Looks at each of them.
    pub fn of(chunks: &[ChunkPos]) -> Option<Area>
        ensures { IfSome result (λ area. (x z : ℤ)
            → is_recorded chunks.now (chunk_around (record { x = x; y = pos 0; z = z }))
            ≡ is_inside area x z) }
    {
        let Rectangle { first, last } = Rectangle::of(chunks)?;
        Some(Area {
            west: first_block(first.x)?,
            east: last_block(last.x)?,
            north: first_block(first.z)?,
            south: last_block(last.z)?,
        })
    }

    /// Whether the blocks with these coordinates lie inside.
    fn has(&self, x: i32, z: i32) -> bool
        ensures { result ≡ is_inside self.now x z }
    {
        is_between(self.west, self.east, x) && is_between(self.north, self.south, z)
    }

    /// The entity after so many movements inside the area, of which each takes it ahead by its speed where it is and stays inside.
    pub fn walked(&self, entity: Entity, steps: u32) -> Entity
        ensures { result ≡ iterate (stepped_in self.now) steps entity }
    {
        if !self.has(entity.at.x, entity.at.z) {
            return entity;
        }
        let steps = reach(entity.at.x, entity.vx, self.west, self.east, steps);
        let steps = reach(entity.at.z, entity.vz, self.north, self.south, steps);
        let at = BlockPos {
            x: after(entity.at.x, entity.vx, steps),
            y: entity.at.y,
            z: after(entity.at.z, entity.vz, steps),
        };
        Entity { at, ..entity }
    }
}

/// The first of the 16 blocks of a chunk, if the number is not too large.
fn first_block(chunk: i32) -> Option<i32>
    ensures { IfSome result (λ block. block ≡ pos 16 *ℤ chunk) }
{
    chunk.checked_mul(16)
}

/// The last of the 16 blocks of a chunk, if the number is not too large.
fn last_block(chunk: i32) -> Option<i32>
    ensures { IfSome result (λ block. block ≡ (pos 16 *ℤ chunk) +ℤ pos 15) }
{
    first_block(chunk)?.checked_add(15)
}

/// Whether a number is one from `low` to `high`.
fn is_between(low: i32, high: i32, number: i32) -> bool
    ensures { result ≡ is_from_to low high number }
{
    low <= number && number <= high
}

/// How many of `most` steps by this speed lead from a number to one from `low` to `high`, until one does not.
fn reach(at: i32, speed: i32, low: i32, high: i32, most: u32) -> u32
    requires { is_from_to low high at ≡ true }
    ensures bound { result ≤ most }
    ensures inside { (k : ℕ) → k ≤ result → is_from_to low high (place_after at speed k) ≡ true }
    ensures end { result < most
        → is_from_to low high (place_after at speed (result + 1)) ≡ false }
{
    if speed == 0 {
        return most;
    }
    let side = if speed < 0 { low } else { high };
    times(side.abs_diff(at), speed.unsigned_abs(), most)
}

/// How often the second number goes into the first, but at most so many times. To tell whether it goes once takes no division.
fn times(whole: u32, part: u32, most: u32) -> u32
    requires { 0 < part }
    ensures { result ≡ min most (whole / part) }
{
    if most != 1 {
        most.min(whole / part)
    } else if part <= whole {
        1
    } else {
        0
    }
}

/// A number after so many steps by this speed.
fn after(at: i32, speed: i32, steps: u32) -> i32
    requires { FitsSigned w32 (place_after at speed steps) }
    ensures { result ≡ place_after at speed steps }
{
    (at as i64 + steps as i64 * speed as i64) as i32
}
