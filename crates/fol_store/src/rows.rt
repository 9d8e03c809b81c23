//! What lies in a store, as rows.

ghost use Rattle.std.specs.Prelude.{◌≡◌, ◌≤◌, ◌++◌, map, IfOk, OnOk, All};
ghost use Rattle.std.specs.List.{flat_map};
ghost use Rattle.fol_data.specs.Rests.{IsInTime};
ghost use Rattle.fol_bags.specs.Things.{IsTimely};
ghost use Rattle.fol_store.specs.TaskRows.{row_of};
ghost use Rattle.fol_store.specs.Lists.{blocks_of, entities_of, tasks_of, IsListed};

use fol_bags::{Bags, Kept};
use fol_data::RegionData;
use fol_model::{BlockAt, Entity, TaskRow};
use fol_queues::Dated;
use std::alloc::{AllocError, Global};

/// What lies in a store, as rows.
#[derive(Drop)]
pub struct Rows {
    /// Those with a number above 0, by x, then y, then z.
    pub blocks: Vec<BlockAt>,
    /// By id.
    pub entities: Vec<Entity>,
    /// By number.
    pub tasks: Vec<TaskRow>,
}

/// The rows of what lies in these parts of a store, in no stated order.
pub fn list(
    alloc: Global,
    arrivals: Vec<Dated>,
    spots: Vec<RegionData>,
    bags: Bags,
) -> Result<Rows, AllocError>
    requires arrivals_timely { All (IsInTime 0) arrivals.items }
    requires spots_timely { All IsTimely spots.items }
    requires bags_timely { All (λ b. IsTimely b.body) bags.items }
    ensures blocks { IfOk result (λ r. r.blocks.items
        ≡ flat_map blocks_of spots.items ++ flat_map (λ b. blocks_of b.body) bags.items) }
    ensures entities { IfOk result (λ r. r.entities.items ≡ flat_map entities_of spots.items
        ++ flat_map (λ b. entities_of b.body) bags.items) }
    ensures tasks { IfOk result (λ r. r.tasks.items
        ≡ (map (row_of 0) arrivals.items ++ flat_map tasks_of spots.items)
        ++ flat_map (λ b. tasks_of b.body) bags.items) }
    ensures spots_listed { IfOk result (λ r. All IsListed spots.items) }
    ensures bags_listed { IfOk result (λ r. All (λ b. IsListed b.body) bags.items) }
{
    let mut rows = Rows {
        blocks: Vec::new(alloc),
        entities: Vec::new(alloc),
        tasks: Vec::new(alloc),
    };
    add_tasks(&mut rows.tasks, 0, arrivals)?;
    add_spots(&mut rows, spots)?;
    add_bags(&mut rows, bags.into_kept())?;
    Ok(rows)
}

/// Adds what lies in the spots.
fn add_spots(rows: &mut Rows, spots: Vec<RegionData>) -> Result<(), AllocError>
    requires { All IsTimely spots.items }
    ensures blocks { OnOk result (rows.new.blocks.items
        ≡ rows.old.blocks.items ++ flat_map blocks_of spots.items) }
    ensures entities { OnOk result (rows.new.entities.items
        ≡ rows.old.entities.items ++ flat_map entities_of spots.items) }
    ensures tasks { OnOk result (rows.new.tasks.items
        ≡ rows.old.tasks.items ++ flat_map tasks_of spots.items) }
    ensures listed { OnOk result (All IsListed spots.items) }
{
    for spot in spots {
        add_body(rows, spot)?;
    }
    Ok(())
}

/// Adds what lies in the bags.
fn add_bags(rows: &mut Rows, bags: Vec<Kept>) -> Result<(), AllocError>
    requires { All (λ b. IsTimely b.body) bags.items }
    ensures blocks { OnOk result (rows.new.blocks.items
        ≡ rows.old.blocks.items ++ flat_map (λ b. blocks_of b.body) bags.items) }
    ensures entities { OnOk result (rows.new.entities.items
        ≡ rows.old.entities.items ++ flat_map (λ b. entities_of b.body) bags.items) }
    ensures tasks { OnOk result (rows.new.tasks.items
        ≡ rows.old.tasks.items ++ flat_map (λ b. tasks_of b.body) bags.items) }
    ensures listed { OnOk result (All (λ b. IsListed b.body) bags.items) }
{
    for bag in bags {
        add_bag(rows, bag)?;
    }
    Ok(())
}

/// Adds what lies in a bag, where there is one.
fn add_bag(rows: &mut Rows, bag: Kept) -> Result<(), AllocError>
    requires { IsTimely bag.body }
    ensures blocks { OnOk result (rows.new.blocks.items
        ≡ rows.old.blocks.items ++ blocks_of bag.body) }
    ensures entities { OnOk result (rows.new.entities.items
        ≡ rows.old.entities.items ++ entities_of bag.body) }
    ensures tasks { OnOk result (rows.new.tasks.items
        ≡ rows.old.tasks.items ++ tasks_of bag.body) }
    ensures listed { OnOk result (IsListed bag.body) }
{
    match bag.into_body() {
        Some(body) => add_body(rows, body),
        None => Ok(()),
    }
}

/// Adds what lies in the data of a region.
fn add_body(rows: &mut Rows, body: RegionData) -> Result<(), AllocError>
    requires { IsTimely body }
    ensures blocks { OnOk result (rows.new.blocks.items ≡ rows.old.blocks.items ++ blocks_of body) }
    ensures entities { OnOk result (rows.new.entities.items
        ≡ rows.old.entities.items ++ entities_of body) }
    ensures tasks { OnOk result (rows.new.tasks.items ≡ rows.old.tasks.items ++ tasks_of body) }
    ensures listed { OnOk result (IsListed body) }
{
    let RegionData {
        tick,
        owed: _,
        queues,
        chunks,
    } = body;
    chunks.add_blocks_to(&mut rows.blocks)?;
    chunks.add_entities_to(&mut rows.entities)?;
    add_tasks(&mut rows.tasks, tick, queues.into_tasks())
}

/// Adds tasks of a region that has this counter.
fn add_tasks(rows: &mut Vec<TaskRow>, tick: u64, tasks: Vec<Dated>) -> Result<(), AllocError>
    requires { All (IsInTime tick) tasks.items }
    ensures { OnOk result (rows.new.items ≡ rows.old.items ++ map (row_of tick) tasks.items) }
{
    for dated in tasks {
        rows.push(row(tick, dated))?;
    }
    Ok(())
}

/// The row of a task of a region that has this counter.
fn row(tick: u64, dated: Dated) -> TaskRow
    requires { IsInTime tick dated }
    ensures { result ≡ row_of tick dated }
{
    let Dated { task, deadline } = dated;
    TaskRow {
        task,
        rest: (deadline - tick) as u32,
    }
}
