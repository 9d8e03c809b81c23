//! Places of chunks, sections and blocks.

ghost use Rattle.std.specs.Prelude.{◌≡◌, ◌≤◌, pos, ◌+ℤ◌, ◌-ℤ◌, nat_abs, nat_le, int_le, ◌&&◌};
ghost use Rattle.std.proofs.Common.{rules};
ghost use Rattle.std.specs.Cmp.{partial_order_from_own_ties};
ghost use Rattle.std.specs.Cmp.Rules.{comparing};
ghost use Rattle.std.specs.Ordering.{int_cmp, on, then_cmp, as_partial_cmp};
ghost use Rattle.fol_model.specs.Geometry.{distance as distance_between, is_block, is_chunk, is_section, chunk_of as chunk_around};

use std::cmp::Ordering;

/// The most sections that may be present.
pub const MOST_SECTIONS: usize = 16_384;

/// The place of a chunk: a column of 16 by 16 blocks.
///
/// Within the limits each coordinate is -1,000,000 to 1,000,000.
#[derive(Clone, Copy, Debug, PartialEq, Eq, Hash)]
pub struct ChunkPos {
    /// The column.
    pub x: i32,
    /// The row.
    pub z: i32,
}

/// The place of a section: a square of `2^shift` by `2^shift` chunks.
///
/// Within the limits each coordinate is -1,000,008 to 1,000,008, so that the margin of every chunk within its limits is within them.
#[derive(Clone, Copy, Debug, PartialEq, Eq, Hash)]
pub struct SectionPos {
    /// The column.
    pub x: i32,
    /// The row.
    pub z: i32,
}

/// The place of a block.
///
/// Within the limits `x` and `z` are -16,000,000 to 16,000,015 and `y` is 0 to 255.
#[derive(Clone, Copy, Debug, PartialEq, Eq, Hash, PartialOrd, Ord)]
pub struct BlockPos {
    /// The column.
    pub x: i32,
    /// The height.
    pub y: i32,
    /// The row.
    pub z: i32,
}

/// Chunks stand by z, then by x.
impl Ord for ChunkPos {
    ghost cmp = { then_cmp (on (λ c. c.z) int_cmp) (on (λ c. c.x) int_cmp) };

    ghost total = { Prim.search (comparing, rules) };

    ghost matches_partial_cmp = { Prim.search (comparing, rules) };

    ghost matches_eq = { Prim.search (comparing, rules) };

    fn cmp(&self, other: &ChunkPos) -> Ordering {
        self.z.cmp(&other.z).then(self.x.cmp(&other.x))
    }
}

impl PartialOrd for ChunkPos {
    ghost partial_cmp = { as_partial_cmp (then_cmp (on (λ c. c.z) int_cmp) (on (λ c. c.x) int_cmp)) };

    ghost laws = { partial_order_from_own_ties (Prim.search (comparing, rules)) (Prim.search (comparing, rules)) };

    fn partial_cmp(&self, other: &ChunkPos) -> Option<Ordering> {
        Some(self.cmp(other))
    }
}

impl ChunkPos {
    /// Whether the place is within the limits.
    #[tactic(auto, unfolding(crate::specs::Geometry::is_chunk))]
    pub fn in_range(self) -> bool
        ensures { result ≡ is_chunk self }
    {
        is_near(self.x, 1_000_000) && is_near(self.z, 1_000_000)
    }
}

/// Sections stand by z, then by x.
impl Ord for SectionPos {
    ghost cmp = { then_cmp (on (λ s. s.z) int_cmp) (on (λ s. s.x) int_cmp) };

    ghost total = { Prim.search (comparing, rules) };

    ghost matches_partial_cmp = { Prim.search (comparing, rules) };

    ghost matches_eq = { Prim.search (comparing, rules) };

    fn cmp(&self, other: &SectionPos) -> Ordering {
        self.z.cmp(&other.z).then(self.x.cmp(&other.x))
    }
}

impl PartialOrd for SectionPos {
    ghost partial_cmp = { as_partial_cmp (then_cmp (on (λ s. s.z) int_cmp) (on (λ s. s.x) int_cmp)) };

    ghost laws = { partial_order_from_own_ties (Prim.search (comparing, rules)) (Prim.search (comparing, rules)) };

    fn partial_cmp(&self, other: &SectionPos) -> Option<Ordering> {
        Some(self.cmp(other))
    }
}

impl SectionPos {
    /// Whether the place is within the limits.
    #[tactic(auto, unfolding(crate::specs::Geometry::is_section))]
    pub fn in_range(self) -> bool
        ensures { result ≡ is_section self }
    {
        is_near(self.x, 1_000_008) && is_near(self.z, 1_000_008)
    }
}

impl BlockPos {
    /// Whether the place is within the limits.
    #[tactic(auto, unfolding(crate::specs::Geometry::is_block))]
    pub fn in_range(self) -> bool
        ensures { result ≡ is_block self }
    {
        chunk_of(self).in_range() && is_height(self.y)
    }
}

/// The chunk that the block is in.
#[tactic(auto, unfolding(crate::specs::Geometry::chunk_of))]
pub fn chunk_of(b: BlockPos) -> ChunkPos
    ensures { result ≡ chunk_around b }
{
    ChunkPos {
        x: b.x.div_euclid(16),
        z: b.z.div_euclid(16),
    }
}

/// The greater of the two coordinate differences.
#[tactic(auto, unfolding(crate::specs::Geometry::distance))]
pub fn distance(a: SectionPos, b: SectionPos) -> u32
    ensures { result ≡ distance_between a b }
{
    a.x.abs_diff(b.x).max(a.z.abs_diff(b.z))
}

/// The section with the least coordinates of those within a radius.
pub fn corner(s: SectionPos, radius: u8) -> SectionPos
    requires near { (nat_abs s.x ≤ 1000008) × (nat_abs s.z ≤ 1000008) }
    requires few { radius ≤ 12 }
    ensures { result ≡ record { x = s.x -ℤ pos radius; z = s.z -ℤ pos radius } }
{
    let reach = radius as i32;
    SectionPos {
        x: s.x - reach,
        z: s.z - reach,
    }
}

/// The section that many columns and rows behind another one.
pub fn beside(first: SectionPos, columns: u32, rows: u32) -> SectionPos
    requires near { (nat_abs first.x ≤ 1000020) × (nat_abs first.z ≤ 1000020) }
    requires few { (columns ≤ 25) × (rows ≤ 25) }
    ensures { result ≡ record { x = first.x +ℤ pos columns; z = first.z +ℤ pos rows } }
{
    SectionPos {
        x: first.x + columns as i32,
        z: first.z + rows as i32,
    }
}

/// Whether a coordinate is at most `limit` away from 0.
fn is_near(coordinate: i32, limit: u32) -> bool
    ensures { result ≡ nat_le (nat_abs coordinate) limit }
{
    coordinate.unsigned_abs() <= limit
}

/// Whether a height is one of a block.
fn is_height(y: i32) -> bool
    ensures { result ≡ (int_le (pos 0) y && int_le y (pos 255)) }
{
    0 <= y && y <= 255
}
