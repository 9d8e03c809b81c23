//! A bag that came back follows the chunks of its region that came and left while a worker had it.

ghost use Rattle.std.specs.Prelude.{◌≡◌, ◌≢◌, ℕ, ◌<◌, ◌≤◌, true, false, filter, nat_eq};
ghost use Rattle.fol_model.specs.ActionStep.{at_id};
ghost use Rattle.fol_model.specs.Geometry.{section_of as section_around};
ghost use Rattle.fol_model.specs.Universe.{all_chunks};
ghost use Rattle.fol_model.specs.Outputs.{is_chunk_of};
ghost use Rattle.fol_regions.specs.Table.{grid_state};
ghost use Rattle.fol_store.specs.Stock.{bag_of, jobs_of, next_of};
ghost use Rattle.fol_world.specs.Bags.{KeepsUp};
ghost use Rattle.fol_world.specs.CatchingUp.{AreHeld, CatchesUp, KeepsUpBut};
ghost use Rattle.fol_world.specs.Released.{IsReturned};
ghost use Rattle.fol_world.specs.Same.{SameThings};

use fol_model::{ChunkPos, Grid, section_of};
use fol_regions::Regions;
use fol_store::Store;

/// The bag of a region, which came back, is listed for the chunks that the region has now, or has to be gathered anew.
pub(crate) fn catch_up(regions: &Regions, store: &mut Store, grid: &Grid, region: u64)
    requires grid { grid.now ≡ (grid_state regions.now).grid }
    requires given { 0 < region }
    requires here { (bag_of store.old region).here ≡ true }
    requires home { (bag_of store.old region).taken ≡ false }
    requires follows { (bag_of store.old region).listed ≡ true
        → KeepsUp (bag_of store.old region)
        (filter (is_chunk_of (grid_state regions.now) region) all_chunks) }
    requires tasks { AreHeld (grid_state regions.now) (jobs_of store.old) }
    ensures own { IsReturned (grid_state regions.now) region (bag_of store.old region).tick
        (bag_of store.old region).owed (bag_of store.new region) }
    ensures bags { bag_of store.new
        ≡ at_id (bag_of store.old) region (bag_of store.new region) }
    ensures things { SameThings store.old store.new }
    ensures next { next_of store.new ≡ next_of store.old }
    ensures slots { store.old.slots ≤ store.new.slots }
{
    while let Some(c) = store.next_change(region) {
        follow_chunk(regions, store, grid, region, c);
    }
}

/// The bag of a region gets a chunk, where the region has it, and loses one that nothing holds. Where another region has the chunk, the
/// bag has to be gathered anew.
fn follow_chunk(regions: &Regions, store: &mut Store, grid: &Grid, region: u64, c: ChunkPos)
    requires grid { grid.now ≡ (grid_state regions.now).grid }
    requires given { 0 < region }
    requires here { (bag_of store.old region).here ≡ true }
    requires home { (bag_of store.old region).taken ≡ false }
    requires follows { (bag_of store.old region).listed ≡ true
        → KeepsUpBut c (bag_of store.old region)
        (filter (is_chunk_of (grid_state regions.now) region) all_chunks) }
    requires tasks { AreHeld (grid_state regions.now) (jobs_of store.old) }
    ensures own { CatchesUp (filter (is_chunk_of (grid_state regions.now) region) all_chunks)
        (bag_of store.old region) (bag_of store.new region) }
    ensures bags { bag_of store.new
        ≡ at_id (bag_of store.old) region (bag_of store.new region) }
    ensures things { SameThings store.old store.new }
    ensures next { next_of store.new ≡ next_of store.old }
    ensures slots { store.old.slots ≤ store.new.slots }
{
    regions.keeps_rules();
    if regions.holds(c) == 0 {
        store.lose(region, c);
    } else if has_section(regions, grid, region, c) {
        store.gain(region, c);
    } else {
        store.unsettle(region);
    }
}

/// Whether the region has the section of the chunk.
pub(crate) fn has_section(regions: &Regions, grid: &Grid, region: u64, c: ChunkPos) -> bool
    requires grid { grid.now ≡ (grid_state regions.now).grid }
    requires given { 0 < region }
    ensures { result
        ≡ nat_eq ((grid_state regions.now).owner (section_around (grid_state regions.now).grid c))
        region }
{
    regions.owner(section_of(grid, c)) == Some(region)
}
