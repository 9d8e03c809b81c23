//! The end of a tick.

ghost use Rattle.std.specs.Prelude.{◌≡◌, ℕ, Option, ◌+◌, ◌≤◌, ◌<◌, ◌||◌, ◌++◌, true, List, [], length, IsTrue, vec_len, vec_capacity};
ghost use Rattle.std.specs.Option.{is_none, option_or, ForSome};
ghost use Rattle.fol_model.specs.declared.regions.State.TheVariants.{Ticking};
ghost use Rattle.fol_model.specs.Drop.{drop_hold as drop};
ghost use Rattle.fol_model.specs.GridState.{is_dead};
ghost use Rattle.fol_model.specs.Release.{release};
ghost use Rattle.fol_model.specs.Rules.{Rules};
ghost use Rattle.fol_end_laws.specs.DroppedHolds.{drop_each};
ghost use Rattle.fol_chunks.specs.Contents.{Apart, flat_of as contents_of, is_recorded, joined, within};
ghost use Rattle.fol_data.specs.Rests.{IsInTime, rests_of};
ghost use Rattle.fol_queues.specs.Waiting.{dated};
ghost use Rattle.fol_regions.specs.Table.{grid_state};
ghost use Rattle.fol_regions.specs.Answers.{IsGiven};
ghost use Rattle.fol_regions.specs.Changes.{release_change};
ghost use Rattle.fol_store.specs.Relisted.{IsInOrder};
ghost use Rattle.fol_store.specs.Stock.{bag_of, flat_of, jobs_of, next_of};
ghost use Rattle.fol_model.specs.declared.openings.Opening.{Opening};
ghost use Rattle.fol_model.specs.declared.events.Entry.{Entry};
ghost use Rattle.fol_model.specs.End.{ended};
ghost use Rattle.fol_model.specs.Run.{world};
ghost use Rattle.fol_world.specs.Agenda.{GrowsBy, IsAgenda};
ghost use Rattle.fol_world.specs.Bags.{AreInOrder, CanJoin, Joins};
ghost use Rattle.fol_world.specs.AtEnd.{end_event, AtEnd};
ghost use Rattle.fol_world.specs.Hands.{since};
ghost use Rattle.fol_world.specs.MayEnd.{MayEnd};
ghost use Rattle.fol_world.specs.MostParts.{parts_at_most};
ghost use Rattle.fol_world.specs.Stands.{Fits, Stands};
ghost use Rattle.fol_world.specs.Released.{BringsBack, CanComeBack, CanEnd, DropsHolds, EndsRegion, Loosens, MayRelease, Releases};
ghost use Rattle.fol_world.specs.Same.{SameStock, SameThings};

use crate::agenda::{add, tidy};
use crate::bags::join;
use crate::catching_up::catch_up;
use crate::parts::part;
use crate::tables::Tables;
use crate::wishes::accept_all;
use fol_data::{RegionData, Tick};
use fol_keyed::ChunkSet;
use fol_model::{Accept, ChunkPos, Event, Sequence, State, Task};
use fol_regions::{MergePair, Regions, Removed};
use fol_store::Store;
use std::alloc::Global;
use std::collections::VecDeque;
use std::mem;

/// Ends a finished tick: its holds are dropped, its wishes accepted, and its region released. Takes what it needs of the tick, and returns
/// the event.
pub fn end_tick(
    alloc: Global,
    tables: &mut Tables,
    tick: &mut Tick,
    mut accepts: Vec<Accept>,
) -> Event
    requires may { MayEnd tables.old tick.old }
    requires empty { accepts.items ≡ [] }
    requires room { length tick.old.log.wishes ≤ vec_capacity accepts }
    ensures event { (o : Opening) (h : List Entry) → Stands o h tables.old
        → AtEnd (world o h) (since o h) tick.old
        → result ≡ end_event (world o h) tick.old.worker tick.old.region tick.old.log.ran }
    ensures ended { (o : Opening) (h : List Entry) → Stands o h tables.old
        → AtEnd (world o h) (since o h) tick.old
        → Fits tables.new (ended (world o h) tick.old.region tick.old.log.ran) (since o h) }
    ensures course { tables.new.course.size ≡ tables.old.course.size }
    ensures stack { GrowsBy (length tick.old.log.wishes
        + parts_at_most (grid_state tables.old.regions) (length tick.old.log.wishes))
        tables.old.agenda tables.new.agenda }
{
    let worker = tick.worker;
    let region = tick.region;
    let chunks = mem::replace(&mut tick.chunks, ChunkSet::new(alloc));
    let mut body = mem::replace(&mut tick.body, RegionData::new(alloc));
    let ran = mem::replace(&mut tick.log.ran, Sequence::new(alloc));
    let wishes = mem::replace(&mut tick.log.wishes, Sequence::new(alloc));
    body.tick += 1;
    let counter = body.tick;
    let mut wishes = VecDeque::from_vec(wishes.into_vec());
    accept_all(
        tables,
        region,
        tick.due.as_slice(),
        &mut body.chunks,
        &mut wishes,
        &mut accepts,
    );
    tick.log.wishes = Sequence::of(wishes.into_vec());
    end_region(alloc, tables, region, chunks, body);
    Event::End {
        worker,
        region,
        tick: counter,
        ran,
        accepts: Sequence::of(accepts),
    }
}

/// Drops the holds of tasks that ran in a tick of the region.
pub(crate) fn drop_due(tables: &mut Tables, region: u64, due: &[Task])
    requires out { (bag_of tables.old.store region).taken ≡ true }
    requires order { IsInOrder (bag_of tables.old.store region) }
    ensures { DropsHolds tables.old tables.new region due.now }
{
    drop_holds(&mut tables.regions, &mut tables.store, region, due);
}

/// Drops the holds of the tasks that ran in a tick of the region. Where a chunk lost its last hold, the region's bag notes it.
fn drop_holds(regions: &mut Regions, store: &mut Store, region: u64, due: &[Task])
    requires out { (bag_of store.old region).taken ≡ true }
    requires order { IsInOrder (bag_of store.old region) }
    ensures regions { grid_state regions.new ≡ drop_each (grid_state regions.old) due.now }
    ensures bags { Loosens (grid_state regions.old) (grid_state regions.new) region
        (bag_of store.old) (bag_of store.new) }
    ensures things { SameThings store.old store.new }
    ensures next { next_of store.new ≡ next_of store.old }
    ensures spare { regions.new.spare ≡ regions.old.spare }
    ensures tasks { store.old.spare ≤ store.new.spare }
    ensures slots { store.old.slots ≤ store.new.slots }
{
    for task in due {
        drop_hold(regions, store, region, task.chunk);
    }
}

/// Drops one hold of a chunk.
fn drop_hold(regions: &mut Regions, store: &mut Store, region: u64, chunk: ChunkPos)
    requires out { (bag_of store.old region).taken ≡ true }
    requires order { IsInOrder (bag_of store.old region) }
    ensures order { IsInOrder (bag_of store.new region) }
    ensures regions { grid_state regions.new ≡ drop (grid_state regions.old) chunk }
    ensures bags { Loosens (grid_state regions.old) (grid_state regions.new) region
        (bag_of store.old) (bag_of store.new) }
    ensures things { SameThings store.old store.new }
    ensures next { next_of store.new ≡ next_of store.old }
    ensures spare { regions.new.spare ≡ regions.old.spare }
    ensures tasks { store.old.spare ≤ store.new.spare }
    ensures slots { store.old.slots ≤ store.new.slots }
{
    match regions.remove(chunk) {
        Removed::Gone => store.lose(region, chunk),
        Removed::Lowered => {}
        Removed::NotLoaded => {}
    }
}

/// Releases a Ticking region, whose chunks and data come back.
pub(crate) fn end_region(
    alloc: Global,
    tables: &mut Tables,
    region: u64,
    chunks: ChunkSet,
    body: RegionData,
)
    requires { CanEnd tables.old region chunks body }
    ensures { EndsRegion tables.old tables.new region body }
{
    bring_back(tables, region, chunks, body);
    release_region(alloc, tables, region);
}

/// The chunks and the data of a Ticking region come back, and its bag follows the chunks that came and left meanwhile.
pub fn bring_back(tables: &mut Tables, region: u64, chunks: ChunkSet, body: RegionData)
    requires { CanComeBack tables.old region chunks body }
    ensures { BringsBack tables.old tables.new region body }
{
    tables.regions.keeps_rules();
    tables.store.put(region, chunks, body);
    catch_up(&tables.regions, &mut tables.store, &tables.grid, region);
}

/// Releases a Ticking region whose chunks and data are back.
fn release_region(alloc: Global, tables: &mut Tables, region: u64)
    requires { MayRelease tables.old region }
    ensures { Releases tables.old tables.new region }
{
    tables.regions.keeps_rules();
    tables.regions.release(region);
    let change = tables.regions.last();
    join_waiting(&mut tables.store, change.merges());
    match state_of(&tables.regions, region) {
        State::Dead => {
            part(
                alloc,
                &tables.regions,
                &tables.grid,
                &mut tables.store,
                region,
                change.parts(),
            );
            add_all(&mut tables.agenda, change.parts());
            tidy(&mut tables.agenda, &tables.regions, &tables.store);
        }
        state => add(
            &mut tables.agenda,
            &tables.regions,
            &tables.store,
            region,
            state,
        ),
    }
}

/// The regions that waited for a released region join it. Mostly none did.
fn join_waiting(store: &mut Store, merges: &[MergePair])
    requires can { CanJoin merges.now (bag_of store.old) }
    requires order { AreInOrder (bag_of store.old) }
    ensures bags { Joins merges.now (bag_of store.old) (bag_of store.new) }
    ensures things { SameThings store.old store.new }
    ensures next { next_of store.new ≡ next_of store.old }
    ensures slots { store.old.slots ≤ store.new.slots }
{
    if !merges.is_empty() {
        join(store, merges);
    }
}

/// The state of a region that was given out.
fn state_of(regions: &Regions, region: u64) -> State
    requires given { IsGiven (grid_state regions.now) region }
    ensures { result ≡ (grid_state regions.now).state region }
{
    match regions.state(region) {
        Some(state) => state,
        None => unreachable!(),
    }
}

/// Puts the regions on the stack.
fn add_all(agenda: &mut Vec<u64>, ids: &[u64])
    requires room { vec_len agenda.old + length ids.now ≤ vec_capacity agenda.old }
    ensures items { agenda.new.items ≡ agenda.old.items ++ ids.now }
    ensures stack { GrowsBy (length ids.now) agenda.old agenda.new }
{
    for id in ids {
        agenda.push_reserved(*id);
    }
}
