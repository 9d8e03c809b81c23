//! What a Begin takes out of the tables.

ghost use Rattle.std.specs.Prelude.{◌≡◌, ◌+◌, ◌-◌, ◌≤◌, ◌<◌, ℕ, not, true, false, [], filter, length, OnOk, vec_len, vec_capacity, IfOk};
ghost use Rattle.fol_model.specs.Universe.{all_chunks};
ghost use Rattle.fol_model.specs.Begin.{begin};
ghost use Rattle.fol_model.specs.FlatTick.{Rising};
ghost use Rattle.fol_model.specs.ActionStep.{at_id};
ghost use Rattle.fol_model.specs.Outputs.{is_chunk_of};
ghost use Rattle.fol_regions.specs.Table.{grid_state};
ghost use Rattle.fol_regions.specs.Answers.{IsGiven as IsGivenIn};
ghost use Rattle.fol_queues.specs.Waiting.{jobs_of as queued_of, task_in, option_filter};
ghost use Rattle.fol_chunks.specs.Contents.{flat_of as contents_of, is_recorded, nothing, outside, within};
ghost use Rattle.fol_store.specs.Bag.{is_whole, taken_out};
ghost use Rattle.fol_store.specs.Gathered.{AreFree};
ghost use Rattle.fol_store.specs.Stock.{bag_of, due_of, flat_of, jobs_of, next_of};
ghost use Rattle.fol_world.specs.Agenda.{Covers, HaveBags, IsAgenda, IsTop, owes as owes_tick};
ghost use Rattle.fol_world.specs.Begun.{DueRoom, Gathered, due_task, left_job};
ghost use Rattle.fol_world.specs.Same.{SameThings};

use crate::agenda::{owes, tidy_without};
use crate::bags::list_chunks;
use crate::tables::Tables;
use fol_data::{RegionData, Tick};
use fol_keyed::ChunkSet;
use fol_model::{Sequence, Task, TickLog};
use fol_regions::Regions;
use fol_store::{Store, Taken};
use std::alloc::{AllocError, Global};

/// A tick that has nothing, of no region. Takes no memory.
pub fn blank(alloc: Global) -> Tick
    ensures numbers { (result.worker ≡ 0) × (result.region ≡ 0) × (result.begun ≡ 0) }
    ensures lists { (result.chunks ≡ []) × (result.due ≡ []) }
    ensures counters { (result.body.tick ≡ 0) × (result.body.owed ≡ 0) }
    ensures tasks { result.body.queues.tasks ≡ [] }
    ensures contents { contents_of result.body.chunks ≡ nothing }
    ensures log { (result.log.ran ≡ []) × (result.log.wishes ≡ []) }
    ensures start { (result.next ≡ 0) × (result.moved ≡ false) }
{
    Tick {
        worker: 0,
        region: 0,
        begun: 0,
        chunks: ChunkSet::new(alloc),
        due: Sequence::new(alloc),
        body: RegionData::new(alloc),
        log: TickLog {
            ran: Sequence::new(alloc),
            wishes: Sequence::new(alloc),
        },
        next: 0,
        moved: false,
    }
}

/// The list, emptied, with room for the tasks that are due in the next tick of a region, where it owes one. Its bag is whole then.
pub fn due_list(
    alloc: Global,
    regions: &Regions,
    store: &mut Store,
    id: u64,
    list: Vec<Task>,
) -> Result<Vec<Task>, AllocError>
    requires given { IsGivenIn (grid_state regions.now) id }
    requires bags { HaveBags (grid_state regions.now) (bag_of store.old) }
    requires at_home { owes_tick (grid_state regions.now) (bag_of store.old) id ≡ true
        → (bag_of store.old id).taken ≡ false }
    requires free { owes_tick (grid_state regions.now) (bag_of store.old) id ≡ true
        → AreFree (bag_of store.old) (filter (is_chunk_of (grid_state regions.now) id) all_chunks) }
    ensures bags { (r : ℕ)
        → Gathered (grid_state regions.now) r (bag_of store.old r) (bag_of store.new r) }
    ensures things { SameThings store.old store.new }
    ensures next { next_of store.new ≡ next_of store.old }
    ensures room { IfOk result (λ due.
        DueRoom due store.new (owes_tick (grid_state regions.now) (bag_of store.old) id) id) }
{
    if owes(regions, store, id) {
        owed_list(alloc, regions, store, id, list)
    } else {
        let mut due = list;
        due.clear();
        Ok(due)
    }
}

/// The list, emptied, with room for the tasks that are due in the next tick of a region that owes one. Its bag is whole then.
fn owed_list(
    alloc: Global,
    regions: &Regions,
    store: &mut Store,
    id: u64,
    list: Vec<Task>,
) -> Result<Vec<Task>, AllocError>
    requires given { IsGivenIn (grid_state regions.now) id }
    requires here { (bag_of store.old id).here ≡ true }
    requires at_home { (bag_of store.old id).taken ≡ false }
    requires free { AreFree (bag_of store.old)
        (filter (is_chunk_of (grid_state regions.now) id) all_chunks) }
    ensures bags { (r : ℕ)
        → Gathered (grid_state regions.now) r (bag_of store.old r) (bag_of store.new r) }
    ensures things { SameThings store.old store.new }
    ensures next { next_of store.new ≡ next_of store.old }
    ensures room { IfOk result (λ due. DueRoom due store.new true id) }
{
    settle(alloc, regions, store, id)?;
    let mut due = list;
    due.clear();
    due.reserve(store.most_due(id) as usize)?;
    Ok(due)
}

/// Makes the bag of a region whole, where it owes a tick. If memory runs out, the bag may stay as it is.
pub fn settle_next(alloc: Global, regions: &Regions, store: &mut Store, id: u64)
    requires given { owes_tick (grid_state regions.now) (bag_of store.old) id ≡ true
        → IsGivenIn (grid_state regions.now) id }
    requires bags { HaveBags (grid_state regions.now) (bag_of store.old) }
    requires at_home { owes_tick (grid_state regions.now) (bag_of store.old) id ≡ true
        → (bag_of store.old id).taken ≡ false }
    requires free { owes_tick (grid_state regions.now) (bag_of store.old) id ≡ true
        → AreFree (bag_of store.old) (filter (is_chunk_of (grid_state regions.now) id) all_chunks) }
    ensures bags { (r : ℕ)
        → Gathered (grid_state regions.now) r (bag_of store.old r) (bag_of store.new r) }
    ensures things { SameThings store.old store.new }
    ensures next { next_of store.new ≡ next_of store.old }
{
    if owes(regions, store, id) {
        let _ = settle(alloc, regions, store, id);
    }
}

/// Makes the bag of a region whole for the region's loaded chunks. Where these are the bag's, only what came goes into it.
fn settle(alloc: Global, regions: &Regions, store: &mut Store, id: u64) -> Result<(), AllocError>
    requires given { IsGivenIn (grid_state regions.now) id }
    requires here { (bag_of store.old id).here ≡ true }
    requires at_home { (bag_of store.old id).taken ≡ false }
    requires free { AreFree (bag_of store.old)
        (filter (is_chunk_of (grid_state regions.now) id) all_chunks) }
    ensures bags { (r : ℕ)
        → Gathered (grid_state regions.now) r (bag_of store.old r) (bag_of store.new r) }
    ensures whole { OnOk result (is_whole (bag_of store.new id) ≡ true) }
    ensures things { SameThings store.old store.new }
    ensures next { next_of store.new ≡ next_of store.old }
{
    if store.is_whole(id) {
        return Ok(());
    }
    if store.is_listed(id) {
        return store.settle(id);
    }
    let chunks = list_chunks(alloc, regions, id)?;
    store.gather(id, &chunks)
}

/// Takes a Ready region that owes a tick out of the store, and makes its tick in the place of this one, whatever was in it. The caller says
/// who runs it and where its Begin stands. `room` has room for the due tasks. Takes no memory.
pub fn hand_out(alloc: Global, tables: &mut Tables, id: u64, room: Vec<Task>, tick: &mut Tick)
    requires given { IsGivenIn (grid_state tables.old.regions) id }
    requires owing { owes_tick (grid_state tables.old.regions) (bag_of tables.old.store) id ≡ true }
    requires here { (bag_of tables.old.store id).here ≡ true }
    requires whole { is_whole (bag_of tables.old.store id) ≡ true }
    requires empty { room.items ≡ [] }
    requires room { due_of tables.old.store id ≤ vec_capacity room }
    requires bags { HaveBags (begin (grid_state tables.old.regions) id)
        (at_id (bag_of tables.old.store) id (taken_out (bag_of tables.old.store id))) }
    requires covers { Covers tables.old.agenda.items (begin (grid_state tables.old.regions) id)
        (at_id (bag_of tables.old.store) id (taken_out (bag_of tables.old.store id))) }
    ensures region { tick.new.region ≡ id }
    ensures chunks { tick.new.chunks ≡ (bag_of tables.old.store id).chunks }
    ensures counter { tick.new.body.tick ≡ (bag_of tables.old.store id).tick }
    ensures owed { tick.new.body.owed ≡ (bag_of tables.old.store id).owed - 1 }
    ensures contents { contents_of tick.new.body.chunks
        ≡ within (is_recorded (bag_of tables.old.store id).chunks) (flat_of tables.old.store) }
    ensures left { queued_of tick.new.body.queues (tick.new.body.tick + 1) ≡ λ n.
        left_job (is_recorded (bag_of tables.old.store id).chunks) (jobs_of tables.old.store n) }
    ensures due { task_in tick.new.due ≡ λ n.
        due_task (is_recorded (bag_of tables.old.store id).chunks) n (jobs_of tables.old.store n) }
    ensures order { Rising tick.new.due }
    ensures spare { length tick.new.due ≤ tick.new.body.queues.spare }
    ensures ran { tick.new.log.ran ≡ [] }
    ensures wishes { tick.new.log.wishes ≡ [] }
    ensures next_task { tick.new.next ≡ 0 }
    ensures moved { tick.new.moved ≡ false }
    ensures flat { flat_of tables.new.store
        ≡ outside (is_recorded (bag_of tables.old.store id).chunks) (flat_of tables.old.store) }
    ensures jobs { jobs_of tables.new.store ≡ λ n.
        option_filter (λ j. not (is_recorded (bag_of tables.old.store id).chunks j.chunk))
        (jobs_of tables.old.store n) }
    ensures taken { bag_of tables.new.store
        ≡ at_id (bag_of tables.old.store) id (taken_out (bag_of tables.old.store id)) }
    ensures next { next_of tables.new.store ≡ next_of tables.old.store }
    ensures regions { grid_state tables.new.regions ≡ begin (grid_state tables.old.regions) id }
    ensures agenda { IsAgenda tables.new.agenda.items (grid_state tables.new.regions)
        (bag_of tables.new.store) }
    ensures len { vec_len tables.new.agenda ≤ vec_len tables.old.agenda }
    ensures capacity { vec_capacity tables.new.agenda ≡ vec_capacity tables.old.agenda }
    ensures top { IsTop tables.old.agenda.items id
        → vec_len tables.new.agenda < vec_len tables.old.agenda }
    ensures others { (tables.new.grid ≡ tables.old.grid)
        × (tables.new.tickets.entries ≡ tables.old.tickets.entries)
        × (tables.new.course ≡ tables.old.course) }
{
    let Taken { chunks, body } = tables.store.take(id);
    tables.regions.begin(id);
    tidy_without(&mut tables.agenda, &tables.regions, &tables.store, id);
    let mut due = room;
    tick.region = id;
    tick.chunks = chunks;
    tick.body = body;
    tick.body.owed -= 1;
    tick.body.queues.take_due(tick.body.tick + 1, &mut due);
    tick.due = Sequence::of(due);
    empty_log(alloc, &mut tick.log);
    tick.next = 0;
    tick.moved = false;
}

/// Empties a log. A list that is empty keeps its memory.
fn empty_log(alloc: Global, log: &mut TickLog)
    ensures ran { log.new.ran ≡ [] }
    ensures wishes { log.new.wishes ≡ [] }
{
    if !log.ran.is_empty() {
        log.ran = Sequence::new(alloc);
    }
    if !log.wishes.is_empty() {
        log.wishes = Sequence::new(alloc);
    }
}
