//! The rows of the tables: of regions, of sections, and of what lies on them.

ghost use Rattle.std.specs.Prelude.{ℕ, ◌≡◌, [], false, map, flat_map, find, All, IfOk, OnOk, Option};
ghost use Rattle.std.specs.BTreeMap.{IsOrdered};
ghost use Rattle.std.specs.List.Sorted.{IsStrictlySortedBy};
ghost use Rattle.std.specs.Ordering.{nat_cmp};
ghost use Rattle.fol_model.specs.declared.entities.Place.{Place};
ghost use Rattle.fol_regions.specs.Table.{grid_state};
ghost use Rattle.fol_chunks.specs.Rows.{by_id};
ghost use Rattle.fol_store.specs.Stock.{bag_of};
ghost use Rattle.fol_world.specs.Closings.{ArePlaces, AreThings, HasRow, PutsAll, arrival_entries, live_in, owners_in, place_row, places_in, row_in, standing_entry, standing_row, ticks_in};

use crate::owners::list_owners;
use crate::tables::Tables;
use fol_model::{Action, BlockAt, Entity, EntityRow, OwnerRow, Place, RegionRow, State, TaskRow};
use fol_regions::Regions;
use fol_store::{Rows, Store};
use std::alloc::{AllocError, Global};
use std::collections::BTreeMap;

/// The place of an entity by its id.
type Places = BTreeMap<u32, Place>;

/// The rows of the grid.
#[derive(Drop)]
pub struct GridRows {
    pub regions: Vec<RegionRow>,
    pub owners: Vec<OwnerRow>,
}

/// The rows of what lies on it.
#[derive(Drop)]
pub struct ThingRows {
    pub blocks: Vec<BlockAt>,
    pub entities: Vec<EntityRow>,
    pub tasks: Vec<TaskRow>,
}

/// The rows of the regions and of their sections.
pub fn grid_rows(
    alloc: Global,
    regions: &Regions,
    store: &Store,
    live: &[u64],
) -> Result<GridRows, AllocError>
    requires have { All (HasRow (grid_state regions.now) (bag_of store.now)) live.now }
    requires live { live.now ≡ live_in (grid_state regions.now) }
    ensures regions { IfOk result (λ rows. rows.regions.items
        ≡ map (row_in (grid_state regions.now) (bag_of store.now)) live.now) }
    ensures owners { IfOk result (λ rows. rows.owners.items ≡ owners_in (grid_state regions.now)) }
{
    let region_list = region_rows(alloc, regions, store, live)?;
    let owner_list = list_owners(alloc, regions, live)?;
    Ok(GridRows {
        regions: region_list,
        owners: owner_list,
    })
}

/// The store of the tables.
pub fn store_of(tables: Tables) -> Store
    ensures { result ≡ tables.store }
{
    let Tables {
        grid: _,
        regions: _,
        store,
        tickets: _,
        agenda: _,
        course: _,
    } = tables;
    store
}

/// The rows of what lies in a store.
pub fn thing_rows(alloc: Global, store: Store) -> Result<ThingRows, AllocError>
    ensures { IfOk result (λ rows. AreThings store rows.blocks.items rows.entities.items
        rows.tasks.items) }
{
    let rows = store.into_rows(alloc)?;
    let Rows {
        blocks,
        entities,
        tasks,
    } = rows;
    let entity_list = entity_rows(alloc, entities.as_slice(), tasks.as_slice())?;
    Ok(ThingRows {
        blocks,
        entities: entity_list,
        tasks,
    })
}

/// The first Ticking region of a list.
pub fn first_ticking(regions: &Regions, live: &[u64]) -> Option<u64>
    ensures { result ≡ find (ticks_in (grid_state regions.now)) live.now }
{
    live.iter().copied().find(|id| ticks(regions, *id))
}

/// Whether a region ticks.
fn ticks(regions: &Regions, id: u64) -> bool
    ensures { result ≡ ticks_in (grid_state regions.now) id }
{
    regions.keeps_rules();
    match regions.state(id) {
        Some(State::Ticking) => true,
        _ => false,
    }
}

/// The rows of these regions.
fn region_rows(
    alloc: Global,
    regions: &Regions,
    store: &Store,
    live: &[u64],
) -> Result<Vec<RegionRow>, AllocError>
    requires have { All (HasRow (grid_state regions.now) (bag_of store.now)) live.now }
    ensures { IfOk result (λ v. v.items ≡ map (row_in (grid_state regions.now) (bag_of store.now))
        live.now) }
{
    let mut rows = Vec::new(alloc);
    for id in live {
        rows.push(region_row(regions, store, *id))?;
    }
    Ok(rows)
}

/// The row of a region.
fn region_row(regions: &Regions, store: &Store, id: u64) -> RegionRow
    requires has { HasRow (grid_state regions.now) (bag_of store.now) id }
    ensures { result ≡ row_in (grid_state regions.now) (bag_of store.now) id }
{
    regions.keeps_rules();
    RegionRow {
        id,
        state: regions.state(id).unwrap(),
        tick: store.tick(id),
        owed: store.owed(id),
        sections: regions.sections(id).len() as u32,
        chunks: regions.chunk_count(id) as u32,
    }
}

/// The rows of entities that stand or that a task brings, by id. Mostly no task brings one, and those that stand come in order.
fn entity_rows(
    alloc: Global,
    entities: &[Entity],
    tasks: &[TaskRow],
) -> Result<Vec<EntityRow>, AllocError>
    requires order { IsStrictlySortedBy by_id entities.now }
    ensures { IfOk result (λ v. (f : ℕ → Option Place) → ArePlaces f entities.now tasks.now
        → v.items ≡ places_in f) }
{
    if !bring_any(tasks) {
        return standing_rows(alloc, entities);
    }
    let mut places = BTreeMap::new(alloc);
    put_standing(&mut places, entities)?;
    put_arrivals(&mut places, tasks)?;
    list_places(alloc, &places)
}

/// Whether one of the tasks brings an entity.
fn bring_any(tasks: &[TaskRow]) -> bool
    ensures { result ≡ false → flat_map arrival_entries tasks.now ≡ [] }
{
    for row in tasks {
        if let Action::Arrive(_) = &row.task.action {
            return true;
        }
    }
    false
}

/// The rows of entities that stand, in their order.
fn standing_rows(alloc: Global, entities: &[Entity]) -> Result<Vec<EntityRow>, AllocError>
    ensures { IfOk result (λ v. v.items ≡ map standing_row entities.now) }
{
    entities
        .iter()
        .map(|entity| EntityRow {
            id: entity.id,
            place: Place::At(entity.at),
        })
        .collect(alloc)
}

/// Puts where these entities stand into a map.
fn put_standing(places: &mut Places, entities: &[Entity]) -> Result<(), AllocError>
    ensures { OnOk result (PutsAll nat_cmp places.old places.new
        (map standing_entry entities.now)) }
{
    for e in entities {
        places.insert(e.id, Place::At(e.at))?;
    }
    Ok(())
}

/// Puts the entities that these tasks bring into a map.
fn put_arrivals(places: &mut Places, tasks: &[TaskRow]) -> Result<(), AllocError>
    ensures { OnOk result (PutsAll nat_cmp places.old places.new
        (flat_map arrival_entries tasks.now)) }
{
    for row in tasks {
        if let Action::Arrive(e) = &row.task.action {
            places.insert(e.id, Place::Transit(row.task.number))?;
        }
    }
    Ok(())
}

/// The rows of a map of places.
fn list_places(alloc: Global, places: &Places) -> Result<Vec<EntityRow>, AllocError>
    ensures rows { IfOk result (λ v. v.items ≡ map place_row places.now.entries) }
    ensures ordered { IsOrdered nat_cmp places.now }
{
    places
        .iter()
        .map(|(id, place)| EntityRow {
            id: *id,
            place: *place,
        })
        .collect(alloc)
}
