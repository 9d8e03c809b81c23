//! The rows of the world after a history.

ghost use Rattle.std.specs.Prelude.{◌≡◌, false, find, IfOk, OnOk, IfErr, Option};
ghost use Rattle.fol_model.specs.Counting.{some_below};
ghost use Rattle.fol_model.specs.Outputs.{Outputs};
ghost use Rattle.fol_regions.specs.Table.{grid_state};
ghost use Rattle.fol_core.specs.Meaning.{world_of};
ghost use Rattle.fol_core.specs.Ahead.{NonePrepared};
ghost use Rattle.fol_core.specs.Answers.{Faults, is_ticking_in, FindsTicking};
ghost use Rattle.fol_world.specs.Stands.{Stands};
ghost use Rattle.fol_core.specs.declared.answers.CloseFault.TheVariants as faults;
ghost use Rattle.fol_world.specs.Closings.{AreThings, live_in, ticks_in};

use crate::CloseFault;
use crate::machine::Core;
use fol_model::{Closing, Opening, PackedEntry, Sequence};
use fol_regions::Regions;
use fol_store::Store;
use fol_world::rows::{GridRows, ThingRows, first_ticking, grid_rows, store_of, thing_rows};
use fol_world::tables::Tables;
use std::alloc::Global;

impl Core {
    /// The rows of the world after the history, with the opening and the history; no region is prepared. Ticking exactly where a region
    /// ticks, with the lowest such one. All is dropped after a fault.
    pub fn closing(self, alloc: Global) -> Result<Closing, CloseFault>
        requires none { NonePrepared self }
        ensures rows { IfOk result (λ c. Outputs self.opening self.history c) }
        ensures rests { OnOk result (some_below (is_ticking_in (world_of self))
            (world_of self).grid.next ≡ false) }
        ensures fault { IfErr result (Faults (world_of self)) }
    {
        let Core {
            opening,
            history,
            tables,
            marks: _,
            room: _,
            left: _,
            alloc: _,
        } = self;
        match calm_regions(alloc, &tables.regions) {
            Ok(live) => closing_of(alloc, opening, history, tables, live.as_slice()),
            Err(fault) => {
                drop(tables);
                drop(history);
                drop(opening);
                Err(fault)
            }
        }
    }
}

/// The regions that are not Dead, rising. Ticking where one of them ticks, with the first such one.
fn calm_regions(alloc: Global, regions: &Regions) -> Result<Vec<u64>, CloseFault>
    ensures live { IfOk result (λ v. v.items ≡ live_in (grid_state regions.now)) }
    ensures calm { IfOk result (λ v.
        find (ticks_in (grid_state regions.now)) v.items ≡ Option.None) }
    ensures fault { IfErr result (FindsTicking (grid_state regions.now)) }
{
    match regions.live(alloc) {
        Ok(live) => match first_ticking(regions, live.as_slice()) {
            Some(id) => Err(CloseFault::Ticking(id)),
            None => Ok(live),
        },
        Err(_) => Err(CloseFault::NoMemory),
    }
}

/// The closing of a world in which no region ticks, from the regions that are not Dead.
fn closing_of(
    alloc: Global,
    opening: Opening,
    history: Vec<PackedEntry>,
    tables: Tables,
    live: &[u64],
) -> Result<Closing, CloseFault>
    requires stands { Stands opening history.items tables }
    requires live { live.now ≡ live_in (grid_state tables.regions) }
    requires calm { find (ticks_in (grid_state tables.regions)) live.now ≡ Option.None }
    ensures ok { IfOk result (λ c. Outputs opening history.items c) }
    ensures fault { IfErr result (λ f. f ≡ faults.NoMemory) }
{
    // A proof learns where a field is read that the opening is within its limits.
    let _version = opening.version;
    match grid_rows(alloc, &tables.regions, &tables.store, live) {
        Ok(grid) => with_things(alloc, opening, history, grid, store_of(tables)),
        Err(_) => {
            drop(tables);
            drop(history);
            drop(opening);
            Err(CloseFault::NoMemory)
        }
    }
}

/// The closing of these rows and of what lies in a store.
fn with_things(
    alloc: Global,
    opening: Opening,
    history: Vec<PackedEntry>,
    grid: GridRows,
    store: Store,
) -> Result<Closing, CloseFault>
    ensures opening { IfOk result (λ c. c.opening ≡ opening) }
    ensures history { IfOk result (λ c. c.history ≡ history.items) }
    ensures regions { IfOk result (λ c. c.regions ≡ grid.regions.items) }
    ensures owners { IfOk result (λ c. c.owners ≡ grid.owners.items) }
    ensures things { IfOk result (λ c. AreThings store c.blocks c.entities c.tasks) }
    ensures fault { IfErr result (λ f. f ≡ faults.NoMemory) }
{
    match thing_rows(alloc, store) {
        Ok(things) => Ok(put_together(opening, history, grid, things)),
        Err(_) => {
            drop(grid);
            drop(history);
            drop(opening);
            Err(CloseFault::NoMemory)
        }
    }
}

/// The closing of these rows.
fn put_together(
    opening: Opening,
    history: Vec<PackedEntry>,
    grid: GridRows,
    things: ThingRows,
) -> Closing
    ensures opening { result.opening ≡ opening }
    ensures history { result.history ≡ history.items }
    ensures regions { result.regions ≡ grid.regions.items }
    ensures owners { result.owners ≡ grid.owners.items }
    ensures tasks { result.tasks ≡ things.tasks.items }
    ensures entities { result.entities ≡ things.entities.items }
    ensures blocks { result.blocks ≡ things.blocks.items }
{
    Closing {
        opening,
        history: Sequence::of(history),
        regions: Sequence::of(grid.regions),
        owners: Sequence::of(grid.owners),
        tasks: Sequence::of(things.tasks),
        entities: Sequence::of(things.entities),
        blocks: Sequence::of(things.blocks),
    }
}
