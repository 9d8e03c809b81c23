//! The regions that an event on a chunk may touch.

ghost use Rattle.std.specs.Prelude.{◌≡◌, ◌+◌, ◌∷◌, [], IsTrue, IfOk, filter};
ghost use Rattle.fol_model.specs.Geometry.{is_chunk};
ghost use Rattle.fol_model.specs.GridNumbers.{IsGrid};
ghost use Rattle.fol_model.specs.Universe.{numbers_below};
ghost use Rattle.fol_region_tables.specs.Book.{owner_of};
ghost use Rattle.fol_regions.specs.Near.{regions_of};
ghost use Rattle.fol_regions.specs.Nearby.{StillStands};
ghost use Rattle.fol_regions.specs.Released.{IsPresence, grid_of};
ghost use Rattle.fol_regions.specs.Touched.{is_touched};

use crate::add::reach;
use crate::nearby::Nearby;
use fol_model::{ChunkPos, Grid, SectionPos, section_of};
use fol_region_tables::Tables;
use fol_sections::Sections;
use std::alloc::{AllocError, Global};

/// The regions that an event on a chunk may touch, rising. Looks where an added hold does: as far as that reaches where it makes sections
/// present, and else no further than the section of the chunk itself. What it finds near the chunk stands in `near` then.
pub fn list_touched(
    alloc: Global,
    grid: &Grid,
    sections: &Sections,
    tables: &Tables,
    near: &mut Nearby,
    c: ChunkPos,
) -> Result<Vec<u64>, AllocError>
    requires presence { IsPresence sections.now tables.now }
    requires same { grid.now ≡ sections.now.grid }
    requires numbers { IsGrid sections.now.grid }
    requires in_range { IsTrue (is_chunk c) }
    requires stands { StillStands near.old tables.now (grid.now.create + grid.now.merge) }
    ensures stands { StillStands near.new tables.now (grid.now.create + grid.now.merge) }
    ensures listed { IfOk result (λ ids. ids.items
        ≡ filter (is_touched (grid_of sections.now tables.now) c) (numbers_below tables.now.next)) }
{
    let home = section_of(grid, c);
    if sections.will_fill(c) {
        near.find(tables, home, reach(grid));
        Vec::from_slice(alloc, near.ids())
    } else {
        list_owner(alloc, tables, home)
    }
}

/// The region of a section, if it has one.
fn list_owner(alloc: Global, tables: &Tables, home: SectionPos) -> Result<Vec<u64>, AllocError>
    ensures { IfOk result (λ ids. ids.items
        ≡ regions_of (owner_of tables.now) tables.now.next (home ∷ [])) }
{
    tables.keeps_lists();
    let id = tables.owner(home);
    let mut ids = Vec::new(alloc);
    if id != 0 {
        ids.push(id)?;
    }
    Ok(ids)
}
