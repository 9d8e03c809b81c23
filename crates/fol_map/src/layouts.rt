//! Which columns and rows of sections are drawn, and how far apart.

ghost use Rattle.std.specs.Prelude.{◌≡◌, ◌<◌, ◌≤◌, ◌^◌, map, IfOk};
ghost use Rattle.std.specs.List.Sorted.{IsStrictlySortedBy};
ghost use Rattle.std.specs.Ordering.{int_cmp};
ghost use Rattle.std.specs.BTreeSet.{IsFromIterResult};
ghost use Rattle.fol_model.specs.declared.places.SectionPos.{SectionPos};
ghost use Rattle.fol_map.specs.Holds.{holds};
ghost use Rattle.fol_map.specs.Layouts.{AreHeld, IsAxis, IsLayout, cell, drawn, step, width};

use crate::holds::loaded_chunks;
use fol_model::{ChunkPos, Closing, Grid, Place, SectionPos, Sequence, chunk_of, section_of};
use std::alloc::{AllocError, Global};
use std::collections::BTreeSet;

/// How many sections apart neighbours are drawn as far apart as they are.
const FARTHEST: u32 = 4;

/// How many sections apart farther neighbours are drawn.
const CUT: u32 = 2;

/// What is drawn of a closing, and where.
#[derive(Drop)]
pub struct Layout {
    /// How chunks and sections are grouped.
    pub grid: Grid,
    /// The columns of sections with something to draw, from the least on.
    pub columns: Sequence<i32>,
    /// The rows of sections with something to draw, from the least on.
    pub rows: Sequence<i32>,
    /// The loaded chunks, by z, and then by x.
    pub chunks: Sequence<ChunkPos>,
}

/// How far apart two neighbours are drawn, in sections.
pub fn step(a: i32, b: i32) -> u32
    ensures value { result ≡ step a b }
    ensures small { result ≤ 4 }
{
    let apart = a.abs_diff(b);
    if apart <= FARTHEST { apart } else { CUT }
}

/// How many sections from the first of these columns a column is drawn.
pub fn cell(places: &[i32], place: i32) -> u128
    ensures value { result ≡ cell places.now place }
    ensures small { result < 2 ^ 80 }
{
    let mut rest = places;
    let mut cell = 0;
    while let [a, b, ..] = rest {
        if place <= *a {
            return cell;
        }
        cell += u128::from(step(*a, *b));
        rest = &rest[1..];
    }
    cell
}

/// How many sections wide these columns are drawn.
pub fn width(places: &[i32]) -> u128
    ensures value { result ≡ width places.now }
    ensures small { result < 2 ^ 80 }
{
    let mut rest = places;
    let mut width = 0;
    while let [a, b, ..] = rest {
        width += u128::from(step(*a, *b));
        rest = &rest[1..];
    }
    width + rest.len() as u128
}

/// The sections in which something stands: those with an owner, and those of loaded chunks and of entities.
fn drawn_sections(
    alloc: Global,
    closing: &Closing,
    chunks: &[ChunkPos],
) -> Result<Vec<SectionPos>, AllocError>
    ensures { IfOk result (λ v. v.items ≡ drawn closing.now.opening.grid closing.now.owners
        chunks.now closing.now.entities) }
{
    let grid = &closing.opening.grid;
    let mut sections = Vec::new(alloc);
    for row in closing.owners.as_slice() {
        sections.push(row.at)?;
    }
    for chunk in chunks {
        sections.push(section_of(grid, *chunk))?;
    }
    for row in closing.entities.as_slice() {
        if let Place::At(at) = row.place {
            sections.push(section_of(grid, chunk_of(at)))?;
        }
    }
    Ok(sections)
}

/// The columns of some sections, as a set.
fn column_set(alloc: Global, sections: &[SectionPos]) -> Result<BTreeSet<i32>, AllocError>
    ensures { IfOk result (λ set.
        IsFromIterResult int_cmp (map (λ (s : SectionPos). s.x) sections.now) set) }
{
    sections.iter().map(|s| s.x).collect::<BTreeSet<i32>>(alloc)
}

/// The rows of some sections, as a set.
fn row_set(alloc: Global, sections: &[SectionPos]) -> Result<BTreeSet<i32>, AllocError>
    ensures { IfOk result (λ set.
        IsFromIterResult int_cmp (map (λ (s : SectionPos). s.z) sections.now) set) }
{
    sections.iter().map(|s| s.z).collect::<BTreeSet<i32>>(alloc)
}

/// The numbers of a set, from the least on.
fn in_order(alloc: Global, set: &BTreeSet<i32>) -> Result<Vec<i32>, AllocError>
    ensures keys { IfOk result (λ xs. xs.items ≡ set.now.keys) }
    ensures ordered { IsStrictlySortedBy int_cmp set.now.keys }
{
    set.iter().copied().collect(alloc)
}

/// The columns of some sections, from the least on.
fn columns_of(alloc: Global, sections: &[SectionPos]) -> Result<Vec<i32>, AllocError>
    ensures { IfOk result (λ xs. IsAxis (map (λ (s : SectionPos). s.x) sections.now) xs.items) }
{
    let set = column_set(alloc, sections)?;
    in_order(alloc, &set)
}

/// The rows of some sections, from the least on.
fn rows_of(alloc: Global, sections: &[SectionPos]) -> Result<Vec<i32>, AllocError>
    ensures { IfOk result (λ xs. IsAxis (map (λ (s : SectionPos). s.z) sections.now) xs.items) }
{
    let set = row_set(alloc, sections)?;
    in_order(alloc, &set)
}

/// The layout of a closing.
pub fn make_layout(alloc: Global, closing: &Closing) -> Result<Layout, AllocError>
    ensures { IfOk result (λ l. IsLayout closing.now l) }
{
    let chunks = loaded_chunks(alloc, closing.history.as_slice(), closing.tasks.as_slice())?;
    let sections = drawn_sections(alloc, closing, chunks.as_slice())?;
    Ok(Layout {
        grid: closing.opening.grid,
        columns: Sequence::of(columns_of(alloc, sections.as_slice())?),
        rows: Sequence::of(rows_of(alloc, sections.as_slice())?),
        chunks: Sequence::of(chunks),
    })
}
