//! Which region owns each present section.

ghost use Rattle.std.specs.Prelude.{◌≡◌, ◌<◌, ◌++◌, not, map, flat_map, filter, All, IfOk, OnOk};
ghost use Rattle.fol_model.specs.GridState.{is_dead};
ghost use Rattle.fol_model.specs.Universe.{numbers_below};
ghost use Rattle.fol_regions.specs.Table.{grid_state};
ghost use Rattle.fol_world.specs.Closings.{owner_row, owners_in, owners_of};

use fol_model::{OwnerRow, SectionPos};
use fol_regions::Regions;
use std::alloc::{AllocError, Global};

/// The rows of the present sections, by `(z, x)`, from the regions that are not Dead.
pub fn list_owners(
    alloc: Global,
    regions: &Regions,
    live: &[u64],
) -> Result<Vec<OwnerRow>, AllocError>
    requires live { live.now ≡ filter (λ r. not (is_dead ((grid_state regions.now).state r)))
        (numbers_below (grid_state regions.now).next) }
    ensures { IfOk result (λ rows. rows.items ≡ owners_in (grid_state regions.now)) }
{
    regions.keeps_rules();
    let mut rows = Vec::new(alloc);
    add_regions(&mut rows, regions, live)?;
    // The sections of each region are in order already: of a few large regions the sort only merges runs.
    rows.sort_by_key(|row| (row.at.z, row.at.x))?;
    Ok(rows)
}

/// Adds a row for each section of each of these regions, one region behind the other.
fn add_regions(rows: &mut Vec<OwnerRow>, regions: &Regions, live: &[u64]) -> Result<(), AllocError>
    requires given { All (λ id. (0 < id) × (id < (grid_state regions.now).next)) live.now }
    ensures { OnOk result (rows.new.items
        ≡ rows.old.items ++ flat_map (owners_of (grid_state regions.now)) live.now) }
{
    for id in live {
        add_sections(rows, regions.sections(*id), *id)?;
    }
    Ok(())
}

/// Adds a row for each of these sections of one region.
fn add_sections(
    rows: &mut Vec<OwnerRow>,
    sections: &[SectionPos],
    id: u64,
) -> Result<(), AllocError>
    ensures { OnOk result (rows.new.items ≡ rows.old.items ++ map (owner_row id) sections.now) }
{
    for s in sections {
        rows.push(OwnerRow { at: *s, region: id })?;
    }
    Ok(())
}
