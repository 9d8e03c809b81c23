//! The loaded chunks of the sections of a list, by stretches of it that lie in one page, for which the page is looked up once.

ghost use Rattle.std.specs.Prelude.{◌≡◌, ◌+◌, ◌≤◌, ◌++◌, flat_map, length};
ghost use Rattle.std.specs.List.{All};
ghost use Rattle.std.specs.Vec.{vec_capacity};
ghost use Rattle.fol_model.specs.declared.places.SectionPos.{SectionPos};
ghost use Rattle.fol_sections.specs.Kept.{IsListed, held_chunks};
ghost use Rattle.fol_sections.specs.Pages.{IsOnPage, chunks_at, chunks_on};

use crate::chunks::list_section;
use crate::pages::{Page, Pages, loaded_on};
use crate::places::Numbers;
use fol_model::{ChunkPos, Grid, SectionPos};
use fol_pages::{page_of, stretch_len};

/// Adds the chunks that have a hold of some sections of a page, section by section, and row by row in each.
fn list_on(page: &Page, holds: &Numbers, grid: &Grid, part: &[SectionPos], out: &mut Vec<ChunkPos>)
    requires known { All (λ s. IsListed grid.now holds.now.entries (chunks_on page.now s) s)
        part.now }
    requires room { length out.old.items
        + length (flat_map (held_chunks grid.now holds.now.entries) part.now)
        ≤ vec_capacity out.old }
    ensures listed { out.new.items
        ≡ out.old.items ++ flat_map (held_chunks grid.now holds.now.entries) part.now }
    ensures capacity { vec_capacity out.new ≡ vec_capacity out.old }
{
    for s in part {
        let n = loaded_on(page, *s);
        if n > 0 {
            list_section(holds, out, grid, *s, n);
        }
    }
}

/// Adds the chunks that have a hold of some sections, all in the page of `first`.
fn list_stretch(
    pages: &Pages,
    holds: &Numbers,
    grid: &Grid,
    first: SectionPos,
    part: &[SectionPos],
    out: &mut Vec<ChunkPos>,
)
    requires page { All (IsOnPage first) part.now }
    requires known { (s : SectionPos)
        → IsListed grid.now holds.now.entries (chunks_at pages.now.entries s) s }
    requires room { length out.old.items
        + length (flat_map (held_chunks grid.now holds.now.entries) part.now)
        ≤ vec_capacity out.old }
    ensures listed { out.new.items
        ≡ out.old.items ++ flat_map (held_chunks grid.now holds.now.entries) part.now }
    ensures capacity { vec_capacity out.new ≡ vec_capacity out.old }
{
    match pages.get(page_of(first)) {
        Some(page) => list_on(page, holds, grid, part, out),
        None => {}
    }
}

/// Adds the chunks that have a hold of the sections of a list, section by section, and row by row in each.
pub fn list_all(
    pages: &Pages,
    holds: &Numbers,
    grid: &Grid,
    list: &[SectionPos],
    out: &mut Vec<ChunkPos>,
)
    requires known { (s : SectionPos)
        → IsListed grid.now holds.now.entries (chunks_at pages.now.entries s) s }
    requires room { length out.old.items
        + length (flat_map (held_chunks grid.now holds.now.entries) list.now)
        ≤ vec_capacity out.old }
    ensures listed { out.new.items
        ≡ out.old.items ++ flat_map (held_chunks grid.now holds.now.entries) list.now }
    ensures capacity { vec_capacity out.new ≡ vec_capacity out.old }
{
    let mut rest = list;
    while !rest.is_empty() {
        let (part, after) = rest.split_at(stretch_len(rest));
        list_stretch(pages, holds, grid, part[0], part, out);
        rest = after;
    }
}
