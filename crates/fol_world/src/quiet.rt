//! Quiet ticks: no task is due in them, few entities walk, and their release changes nothing.

ghost use Rattle.std.specs.Prelude.{◌≡◌, ◌+◌, ◌<◌, ◌≤◌, ◌^◌, All, IsTrue};
ghost use Rattle.std.specs.List.Sorted.{IsStrictlySortedBy};
ghost use Rattle.fol_model.specs.Geometry.{is_chunk};
ghost use Rattle.fol_chunks.specs.Order.{chunk_cmp};
ghost use Rattle.fol_regions.specs.Table.{grid_state};
ghost use Rattle.fol_store.specs.Stock.{bag_of};
ghost use Rattle.fol_world.specs.Agenda.{HaveBags, IsAgenda};
ghost use Rattle.fol_world.specs.Quiet.{IsQuiet, PassesTicks};

use crate::agenda::{owes, tidy};
use crate::tables::Tables;
use fol_regions::Regions;
use fol_store::Store;

/// How many of the next ticks of a region would be quiet ones, `most` of them at most. It may be fewer than there are.
pub fn quiet_ticks(regions: &Regions, store: &Store, id: u64, most: u32) -> u32
    requires bags { HaveBags (grid_state regions.now) (bag_of store.now) }
    ensures few { result ≤ most }
    ensures quiet { 0 < result → IsQuiet (grid_state regions.now) store.now id result }
{
    regions.keeps_rules();
    if !owes(regions, store, id) {
        return 0;
    }
    let ticks = store.quiet_ticks(id, most);
    if ticks == 0 || !regions.will_rest(id) {
        return 0;
    }
    ticks
}

/// So many quiet ticks of a region pass: its entities move, and its tasks come nearer. Returns its counter before them.
pub fn pass_ticks(tables: &mut Tables, id: u64, ticks: u32) -> u64
    requires quiet { IsQuiet (grid_state tables.old.regions) tables.old.store id ticks }
    requires bags { HaveBags (grid_state tables.old.regions) (bag_of tables.old.store) }
    requires agenda { IsAgenda tables.old.agenda.items (grid_state tables.old.regions)
        (bag_of tables.old.store) }
    requires early { (bag_of tables.old.store id).tick + ticks ≤ 2 ^ 62 }
    requires order { IsStrictlySortedBy chunk_cmp (bag_of tables.old.store id).chunks }
    requires places { All (λ c. IsTrue (is_chunk c)) (bag_of tables.old.store id).chunks }
    ensures counter { result ≡ (bag_of tables.old.store id).tick }
    ensures passed { PassesTicks id ticks tables.old tables.new }
{
    let before = tables.store.tick(id);
    tables.store.pass(id, ticks);
    tidy(&mut tables.agenda, &tables.regions, &tables.store);
    before
}
