//! The loaded chunks of a section, in order.

ghost use Rattle.std.specs.Prelude.{◌≡◌, ◌+◌, ◌*◌, ◌≤◌, ◌^◌, ◌++◌, length, pos, ◌+ℤ◌, ◌*ℤ◌, nat_abs};
ghost use Rattle.std.specs.List.{count_by, filter};
ghost use Rattle.std.specs.Vec.{vec_capacity};
ghost use Rattle.fol_sections.specs.Kept.{is_held};
ghost use Rattle.fol_sections.specs.Rows.{chunk_at, row_of, rows_of};

use crate::places::{Numbers, number};
use fol_model::{ChunkPos, Grid, SectionPos};

/// The chunk with the least coordinates of those in a section.
fn first_chunk(s: SectionPos, shift: u8) -> ChunkPos
    requires near { (nat_abs s.x ≤ 1000008) × (nat_abs s.z ≤ 1000008) }
    requires few { shift ≤ 5 }
    ensures { result ≡ record { x = s.x *ℤ pos (2 ^ shift); z = s.z *ℤ pos (2 ^ shift) } }
{
    let side = 1i32 << shift;
    ChunkPos {
        x: s.x * side,
        z: s.z * side,
    }
}

/// The chunk that many columns and rows behind another one.
fn beside(first: ChunkPos, columns: u32, rows: u32) -> ChunkPos
    requires near { (nat_abs first.x ≤ 40000000) × (nat_abs first.z ≤ 40000000) }
    requires few { (columns ≤ 32) × (rows ≤ 32) }
    ensures { result ≡ record { x = first.x +ℤ pos columns; z = first.z +ℤ pos rows } }
{
    ChunkPos {
        x: first.x + columns as i32,
        z: first.z + rows as i32,
    }
}

/// Whether a chunk has a hold.
fn is_loaded(holds: &Numbers, c: ChunkPos) -> bool
    ensures { result ≡ is_held holds.now.entries c }
{
    number(holds, c.x, c.z).unwrap_or(0) > 0
}

/// Adds those of `n` chunks in a row that have a hold.
fn list_row(holds: &Numbers, out: &mut Vec<ChunkPos>, first: ChunkPos, row: u32, n: u32)
    requires near { (nat_abs first.x ≤ 40000000) × (nat_abs first.z ≤ 40000000) }
    requires few { (row ≤ 32) × (n ≤ 32) }
    requires room { length out.old.items
        + count_by (is_held holds.now.entries) (row_of chunk_at first.x (first.z +ℤ pos row) n)
        ≤ vec_capacity out.old }
    ensures listed { out.new.items ≡ out.old.items
        ++ filter (is_held holds.now.entries) (row_of chunk_at first.x (first.z +ℤ pos row) n) }
    ensures capacity { vec_capacity out.new ≡ vec_capacity out.old }
{
    for i in 0..n {
        let c = beside(first, i, row);
        if is_loaded(holds, c) {
            out.push_reserved(c);
        }
    }
}

/// Adds those chunks of a square that have a hold, row by row, which make the list as long as `all`. Looks at no row behind the last of
/// them.
fn list_square(holds: &Numbers, out: &mut Vec<ChunkPos>, first: ChunkPos, side: u32, all: usize)
    requires near { (nat_abs first.x ≤ 40000000) × (nat_abs first.z ≤ 40000000) }
    requires few { side ≤ 32 }
    requires all { length out.old.items
        + count_by (is_held holds.now.entries) (rows_of chunk_at first.x first.z side side) ≡ all }
    requires room { all ≤ vec_capacity out.old }
    ensures listed { out.new.items ≡ out.old.items
        ++ filter (is_held holds.now.entries) (rows_of chunk_at first.x first.z side side) }
    ensures capacity { vec_capacity out.new ≡ vec_capacity out.old }
{
    for row in 0..side {
        if out.len() == all {
            return;
        }
        list_row(holds, out, first, row, side);
    }
}

/// Adds `n` chunks in a row.
fn list_whole_row(out: &mut Vec<ChunkPos>, first: ChunkPos, row: u32, n: u32)
    requires near { (nat_abs first.x ≤ 40000000) × (nat_abs first.z ≤ 40000000) }
    requires few { (row ≤ 32) × (n ≤ 32) }
    requires room { length out.old.items + n ≤ vec_capacity out.old }
    ensures listed { out.new.items ≡ out.old.items
        ++ row_of chunk_at first.x (first.z +ℤ pos row) n }
    ensures capacity { vec_capacity out.new ≡ vec_capacity out.old }
{
    for i in 0..n {
        out.push_reserved(beside(first, i, row));
    }
}

/// Adds all chunks of a square, row by row.
fn list_whole(out: &mut Vec<ChunkPos>, first: ChunkPos, side: u32)
    requires near { (nat_abs first.x ≤ 40000000) × (nat_abs first.z ≤ 40000000) }
    requires few { side ≤ 32 }
    requires room { length out.old.items + side * side ≤ vec_capacity out.old }
    ensures listed { out.new.items ≡ out.old.items ++ rows_of chunk_at first.x first.z side side }
    ensures capacity { vec_capacity out.new ≡ vec_capacity out.old }
{
    for row in 0..side {
        list_whole_row(out, first, row, side);
    }
}

/// How many chunks are in a row of a section.
fn side_of(shift: u8) -> u32
    requires { shift ≤ 5 }
    ensures value { result ≡ 2 ^ shift }
    ensures few { result ≤ 32 }
{
    1 << shift
}

/// How many chunks are in a section.
fn area_of(shift: u8) -> u64
    requires { shift ≤ 5 }
    ensures { result ≡ 2 ^ shift * 2 ^ shift }
{
    1 << (2 * shift)
}

/// How far the chunk coordinates of a section are shifted.
fn shift_of(grid: &Grid) -> u8
    ensures value { result ≡ grid.now.shift }
    ensures few { result ≤ 5 }
{
    grid.shift
}

/// Adds those chunks of a section that have a hold, of which there are `n`, row by row.
pub fn list_section(holds: &Numbers, out: &mut Vec<ChunkPos>, grid: &Grid, s: SectionPos, n: u64)
    requires near { (nat_abs s.x ≤ 1000008) × (nat_abs s.z ≤ 1000008) }
    requires count { count_by (is_held holds.now.entries)
        (rows_of chunk_at (s.x *ℤ pos (2 ^ grid.now.shift)) (s.z *ℤ pos (2 ^ grid.now.shift))
        (2 ^ grid.now.shift) (2 ^ grid.now.shift)) ≡ n }
    requires room { length out.old.items + n ≤ vec_capacity out.old }
    ensures listed { out.new.items ≡ out.old.items
        ++ filter (is_held holds.now.entries)
        (rows_of chunk_at (s.x *ℤ pos (2 ^ grid.now.shift)) (s.z *ℤ pos (2 ^ grid.now.shift))
        (2 ^ grid.now.shift) (2 ^ grid.now.shift)) }
    ensures capacity { vec_capacity out.new ≡ vec_capacity out.old }
{
    let shift = shift_of(grid);
    let side = side_of(shift);
    let first = first_chunk(s, shift);
    if n == area_of(shift) {
        list_whole(out, first, side);
    } else {
        let all = out.len() + n as usize;
        list_square(holds, out, first, side, all);
    }
}
