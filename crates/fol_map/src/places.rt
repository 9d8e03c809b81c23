//! Where on the page a section, a chunk and a block stand. A section is 512 units wide, whatever it holds.

ghost use Rattle.std.specs.Prelude.{◌≡◌, ◌<◌, ◌≤◌, ◌+◌, ◌*◌, ◌^◌};
ghost use Rattle.fol_map.specs.Layouts.{cell};
ghost use Rattle.fol_map.specs.Places.{block_middle, block_side, chunk_middle, chunk_point, chunk_side, past, section_point};

use crate::layouts::{Layout, cell};
use fol_model::{BlockPos, ChunkPos, Grid, SectionPos, chunk_of, section_of};

/// The side of a section.
pub const SECTION: u128 = 512;

/// Where the first column begins.
pub const LEFT: u128 = 768;

/// Where the first row begins.
pub const TOP: u128 = 512;

/// A point of the page.
#[derive(Clone, Copy)]
pub struct Point {
    pub x: u128,
    pub y: u128,
}

/// The corner of a section.
pub fn section_point(layout: &Layout, at: SectionPos) -> Point
    ensures value { result ≡ section_point layout.now at }
    ensures small { (result.x < 2 ^ 90) × (result.y < 2 ^ 90) }
{
    Point {
        x: LEFT + SECTION * cell(layout.columns.as_slice(), at.x),
        y: TOP + SECTION * cell(layout.rows.as_slice(), at.z),
    }
}

/// How many chunks a section has on a side.
pub fn chunks_across(grid: &Grid) -> u32
    ensures value { result ≡ 2 ^ grid.now.shift }
    ensures some { 0 < result }
    ensures few { result ≤ 32 }
{
    match grid.shift {
        0 => 1,
        1 => 2,
        2 => 4,
        3 => 8,
        4 => 16,
        _ => 32,
    }
}

/// The side of a chunk.
pub fn chunk_side(grid: &Grid) -> u128
    ensures value { result ≡ chunk_side grid.now }
    ensures small { result ≤ 512 }
{
    SECTION / u128::from(1u32 << grid.shift)
}

/// How far a number is past the last one that `n` divides.
fn past(n: u32, z: i32) -> u128
    requires { (0 < n) × (n ≤ 32) }
    ensures value { result ≡ past n z }
    ensures small { result < n }
{
    u128::from(z.rem_euclid(n as i32).unsigned_abs())
}

/// The corner of a chunk.
#[tactic(auto, unfolding(crate::specs::Places::chunk_point))]
pub fn chunk_point(layout: &Layout, at: ChunkPos) -> Point
    ensures value { result ≡ chunk_point layout.now at }
    ensures small { (result.x < 2 ^ 91) × (result.y < 2 ^ 91) }
{
    let corner = section_point(layout, section_of(&layout.grid, at));
    let side = chunk_side(&layout.grid);
    let chunks = chunks_across(&layout.grid);
    Point {
        x: corner.x + side * past(chunks, at.x),
        y: corner.y + side * past(chunks, at.z),
    }
}

/// The middle of a chunk.
pub fn chunk_middle(layout: &Layout, at: ChunkPos) -> Point
    ensures { result ≡ chunk_middle layout.now at }
{
    let corner = chunk_point(layout, at);
    let half = chunk_side(&layout.grid) / 2;
    Point {
        x: corner.x + half,
        y: corner.y + half,
    }
}

/// The middle of a block, seen from above.
#[tactic(auto, unfolding(crate::specs::Places::block_middle))]
pub fn block_middle(layout: &Layout, at: BlockPos) -> Point
    ensures { result ≡ block_middle layout.now at }
{
    let corner = chunk_point(layout, chunk_of(at));
    let side = chunk_side(&layout.grid) / 16;
    Point {
        x: corner.x + side * past(16, at.x) + side / 2,
        y: corner.y + side * past(16, at.z) + side / 2,
    }
}
