//! The store.

ghost use Rattle.std.specs.Prelude.{nat_lt, nat_le, if◌then◌else◌, ◌≡◌, ◌+◌, ◌≤◌, ◌<◌, ◌^◌, not, ◌||◌, true, false, ℕ, IsTrue, IsNone, IfOk, IfSome, OnOk, OnErr, All};
ghost use Rattle.std.specs.Option.{option_or, is_none, ForSome};
ghost use Rattle.std.specs.List.Sorted.{IsStrictlySortedBy};
ghost use Rattle.std.specs.Ordering.{nat_cmp};
ghost use Rattle.fol_model.specs.Geometry.{is_chunk};
ghost use Rattle.fol_model.specs.World.{start, block_in, standing_in};
ghost use Rattle.fol_model.specs.Job.{queued};
ghost use Rattle.fol_model.specs.ActionStep.{at_id};
ghost use Rattle.fol_queues.specs.Waiting.{dated, due_count, len_of, option_filter};
ghost use Rattle.fol_chunks.specs.Contents.{flat_of as contents_of, within, outside, joined, Apart, is_recorded};
ghost use Rattle.fol_chunks.specs.Order.{chunk_cmp};
ghost use Rattle.fol_chunks.specs.Rows.{by_place, by_id};
ghost use Rattle.fol_data.specs.Rests.{rests_of, IsInTime};
ghost use Rattle.fol_store.specs.Bag.{new_bag, is_whole, taken_out, put_back};
ghost use Rattle.fol_store.specs.Gathered.{AreFree, OthersSpared, Touched};
ghost use Rattle.fol_store.specs.TaskRows.{by_number, rows_of};

mod accept;
mod calm;
mod chunks;
mod close;
mod draw;
mod gather;
mod lay;
mod part;
mod quiet;
mod settle;
mod unite;

use crate::{Rows, rows, sorting};
use fol_bags::{Bags, Places, Taken, slots};
use fol_data::RegionData;
use fol_keyed::ChunkSet;
use fol_model::{ChunkPos, Opening};
use fol_queues::{Dated, Queues};
use std::alloc::{AllocError, Global};
use std::marker::Model;

/// Up to so many tasks are not counted to know how many of them may be due.
const FEW_TASKS: u64 = 256;

/// What no worker has in its hands. Contracts see a `Stock`, whose words are `flat_of`, `jobs_of`, `bag_of` and `next_of`.
#[derive(Drop)]
pub struct Store {
    alloc: Global,
    arrivals: Vec<Dated>,
    spots: Vec<RegionData>,
    bags: Bags,
    places: Places,
}

impl Model for Store {
    ghost use Rattle.std.specs.Prelude.{◌-◌, vec_len};
    ghost use Rattle.std.specs.Vec.{vec_capacity};
    ghost use Rattle.fol_store.specs.Stock.{Stock};
    ghost use Rattle.fol_store.specs.Sound.{IsSound};

    ghost Value = { Stock };

    ghost view = { λ s. record {
      arrivals = s.arrivals.items;
      spots = s.spots.items;
      bags = s.bags.items;
      places = s.places;
      spare = vec_capacity s.arrivals - vec_len s.arrivals;
      slots = s.bags.free;
    } };

    ghost invariant = { λ s. IsSound (record {
      arrivals = s.arrivals.items;
      spots = s.spots.items;
      bags = s.bags.items;
      places = s.places;
      spare = vec_capacity s.arrivals - vec_len s.arrivals;
      slots = s.bags.free;
    }) };
}

impl Store {
    ghost use Rattle.fol_store.specs.Stock.{Stock, flat_of, jobs_of, bag_of, next_of, due_of, due_by, waiting_of};

    /// Makes `spare` at least `tasks` and `slots` at least `bags`. Takes memory; all else stays either way.
    pub fn reserve(&mut self, tasks: u64, bags: u64) -> Result<(), AllocError>
        ensures room_for_tasks { OnOk result (tasks ≤ self.new.spare) }
        ensures room_for_bags { OnOk result (bags ≤ self.new.slots) }
        ensures contents { flat_of self.new ≡ flat_of self.old }
        ensures tasks { jobs_of self.new ≡ jobs_of self.old }
        ensures bags { bag_of self.new ≡ bag_of self.old }
        ensures next { next_of self.new ≡ next_of self.old }
        ensures spare { self.old.spare ≤ self.new.spare }
        ensures slots { self.old.slots ≤ self.new.slots }
    {
        self.arrivals.reserve(tasks as usize)?;
        self.bags.reserve(self.alloc, bags as usize)
    }

    /// How many tasks it can accept without taking memory.
    pub fn spare(&self) -> u64
        ensures { result ≡ self.now.spare }
    {
        (self.arrivals.capacity() - self.arrivals.len()) as u64
    }

    /// How many bags it can open without taking memory.
    pub fn slots(&self) -> u64
        ensures { result ≡ self.now.slots }
    {
        self.bags.free() as u64
    }

    /// The counter of a region.
    pub fn tick(&self, id: u64) -> u64
        requires { (bag_of self.now id).here ≡ true }
        ensures value { result ≡ (bag_of self.now id).tick }
        ensures bound { result ≤ 2 ^ 62 }
    {
        self.bags.slot(id as usize).body.tick
    }

    /// How many ticks a region owes.
    pub fn owed(&self, id: u64) -> u32
        requires { (bag_of self.now id).here ≡ true }
        ensures { result ≡ (bag_of self.now id).owed }
    {
        self.bags.slot(id as usize).body.owed
    }

    /// Sets how many ticks a region owes.
    pub fn set_owed(&mut self, id: u64, owed: u32)
        requires here { (bag_of self.old id).here ≡ true }
        ensures bags { bag_of self.new
            ≡ at_id (bag_of self.old) id (record (bag_of self.old id) { owed = owed }) }
        ensures next { next_of self.new ≡ next_of self.old }
        ensures contents { flat_of self.new ≡ flat_of self.old }
        ensures tasks { jobs_of self.new ≡ jobs_of self.old }
        ensures spare { self.new.spare ≡ self.old.spare }
        ensures slots { self.new.slots ≡ self.old.slots }
    {
        slots::set_owed(&mut self.bags, id as usize, owed);
    }

    /// Whether the bag of a region was gathered for its chunks and was not unsettled since.
    pub fn is_listed(&self, id: u64) -> bool
        requires { (bag_of self.now id).here ≡ true }
        ensures { result ≡ (bag_of self.now id).listed }
    {
        self.bags.slot(id as usize).listed
    }

    /// The chunks of a bag that is here, as one list; `None` where changes of it wait.
    pub fn chunks(&self, id: u64) -> Option<&[ChunkPos]>
        requires { (bag_of self.now id).here ≡ true }
        ensures { IfSome result (λ chunks. chunks.now ≡ (bag_of self.now id).chunks) }
    {
        self.bags.slot(id as usize).list.as_slice()
    }

    /// Whether the bag of a region is whole: nothing outside it lies on its chunks, and nothing in it lies elsewhere.
    pub fn is_whole(&self, id: u64) -> bool
        requires { (bag_of self.now id).here ≡ true }
        ensures { result ≡ is_whole (bag_of self.now id) }
    {
        slots::is_whole(self.bags.slot(id as usize))
    }

    /// At least as many as the tasks of a bag that are due in the next tick of its region: where few tasks wait there, none is looked at, and it
    /// is the number of all; else it is the number of those that are due.
    pub fn most_due(&self, id: u64) -> u64
        requires { (bag_of self.now id).here ≡ true }
        ensures value { result ≡ (if nat_le (waiting_of self.now id) 256
            then waiting_of self.now id
            else due_of self.now id) }
        ensures most { due_of self.now id ≤ result }
    {
        let slot = self.bags.slot(id as usize);
        due_at_most(&slot.body.queues, slot.body.tick + 1)
    }

    /// Whether a task of a bag is due in the next so many ticks of its region. Costs the same however many there are.
    pub fn is_any_due(&self, id: u64, ticks: u32) -> bool
        requires { (bag_of self.now id).here ≡ true }
        ensures { result ≡ nat_lt 0 (due_by ticks self.now id) }
    {
        let slot = self.bags.slot(id as usize);
        slot.body.queues.is_any_due(slot.body.tick + ticks as u64)
    }

    /// Says that the bag of a region has to be gathered anew, since other chunks are loaded.
    pub fn unsettle(&mut self, id: u64)
        requires known { ((bag_of self.old id).here || (bag_of self.old id).taken) ≡ true }
        ensures bags { bag_of self.new
            ≡ at_id (bag_of self.old) id (record (bag_of self.old id) { listed = false }) }
        ensures next { next_of self.new ≡ next_of self.old }
        ensures contents { flat_of self.new ≡ flat_of self.old }
        ensures tasks { jobs_of self.new ≡ jobs_of self.old }
        ensures spare { self.new.spare ≡ self.old.spare }
        ensures slots { self.new.slots ≡ self.old.slots }
    {
        slots::unlist(&mut self.bags, id as usize);
    }

    /// Opens the bag of the next region, which has these numbers and no chunk. Takes no memory.
    pub fn open(&mut self, id: u64, tick: u64, owed: u32)
        requires slots { 1 ≤ self.old.slots }
        requires next { id ≡ next_of self.old }
        requires tick { tick ≤ 2 ^ 62 }
        ensures bags { bag_of self.new ≡ at_id (bag_of self.old) id (new_bag tick owed) }
        ensures next { next_of self.new ≡ id + 1 }
        ensures contents { flat_of self.new ≡ flat_of self.old }
        ensures tasks { jobs_of self.new ≡ jobs_of self.old }
        ensures spare { self.new.spare ≡ self.old.spare }
        ensures slots { self.old.slots ≤ self.new.slots + 1 }
    {
        self.bags.open(self.alloc, tick, owed);
    }

    /// Takes a whole bag out, with the tasks, blocks and entities on its chunks. Takes no memory.
    pub fn take(&mut self, id: u64) -> Taken
        requires here { (bag_of self.old id).here ≡ true }
        requires whole { is_whole (bag_of self.old id) ≡ true }
        ensures chunks { result.chunks ≡ (bag_of self.old id).chunks }
        ensures tick { result.body.tick ≡ (bag_of self.old id).tick }
        ensures owed { result.body.owed ≡ (bag_of self.old id).owed }
        ensures bound { result.body.tick ≤ 2 ^ 62 }
        ensures in_time { (n : ℕ)
            → ForSome (dated result.body.queues n) (IsInTime result.body.tick) }
        ensures moved_contents { contents_of result.body.chunks
            ≡ within (is_recorded (bag_of self.old id).chunks) (flat_of self.old) }
        ensures due { due_count (result.body.tick + 1) result.body.queues ≡ due_of self.old id }
        ensures moved_tasks { rests_of result.body ≡ λ n.
            option_filter (λ j. is_recorded (bag_of self.old id).chunks j.chunk)
            (jobs_of self.old n) }
        ensures contents { flat_of self.new
            ≡ outside (is_recorded (bag_of self.old id).chunks) (flat_of self.old) }
        ensures tasks { jobs_of self.new ≡ λ n.
            option_filter (λ j. not (is_recorded (bag_of self.old id).chunks j.chunk))
            (jobs_of self.old n) }
        ensures bags { bag_of self.new
            ≡ at_id (bag_of self.old) id (taken_out (bag_of self.old id)) }
        ensures next { next_of self.new ≡ next_of self.old }
        ensures spare { self.new.spare ≡ self.old.spare }
        ensures slots { self.new.slots ≡ self.old.slots }
    {
        slots::take_out(self.alloc, &mut self.bags, id as usize)
    }

    /// Puts back what was taken out, after a worker had it. The bag is listed where it was not unsettled
    /// meanwhile, and calm where no task came on its chunks. Takes no memory.
    pub fn put(&mut self, id: u64, chunks: ChunkSet, body: RegionData)
        requires taken { (bag_of self.old id).taken ≡ true }
        requires chunks { chunks ≡ (bag_of self.old id).chunks }
        requires bound { body.tick ≤ 2 ^ 62 }
        requires in_time { (n : ℕ) → ForSome (dated body.queues n) (IsInTime body.tick) }
        requires contents_there { contents_of body.chunks
            ≡ within (is_recorded chunks) (contents_of body.chunks) }
        requires tasks_there { (n : ℕ)
            → ForSome (rests_of body n) (λ j. is_recorded chunks j.chunk ≡ true) }
        requires contents_apart { Apart (flat_of self.old) (contents_of body.chunks) }
        requires tasks_apart { (n : ℕ)
            → IsTrue (is_none (jobs_of self.old n) || is_none (rests_of body n)) }
        ensures contents { flat_of self.new ≡ joined (flat_of self.old) (contents_of body.chunks) }
        ensures tasks { jobs_of self.new ≡ λ n. option_or (jobs_of self.old n) (rests_of body n) }
        ensures bags { bag_of self.new
            ≡ at_id (bag_of self.old) id (put_back body.tick body.owed (bag_of self.old id)) }
        ensures next { next_of self.new ≡ next_of self.old }
        ensures spare { self.new.spare ≡ self.old.spare }
        ensures slots { self.new.slots ≡ self.old.slots }
    {
        slots::put_in(&mut self.bags, id as usize, chunks, body);
    }

    /// All blocks with a number above 0 by place, all standing entities by id, and all queued tasks by number, each with its rest. What
    /// is out with a worker is not among them. Fails only when out of memory.
    pub fn into_rows(self, alloc: Global) -> Result<Rows, AllocError>
        ensures blocks { IfOk result (λ r. block_in r.blocks.items ≡ (flat_of self).blocks) }
        ensures block_order { IfOk result (λ r. IsStrictlySortedBy by_place r.blocks.items) }
        ensures none_empty { IfOk result (λ r. All (λ x. 0 < x.id) r.blocks.items) }
        ensures entities { IfOk result (λ r. standing_in r.entities.items
            ≡ (flat_of self).standing) }
        ensures entity_order { IfOk result (λ r. IsStrictlySortedBy by_id r.entities.items) }
        ensures tasks { IfOk result (λ r. rows_of r.tasks.items ≡ jobs_of self) }
        ensures task_order { IfOk result (λ r. IsStrictlySortedBy by_number r.tasks.items) }
    {
        let Store {
            alloc: _,
            arrivals,
            spots,
            bags,
            places: _,
        } = self;
        let mut rows = rows::list(alloc, arrivals, spots, bags)?;
        sorting::sort_blocks(&mut rows.blocks)?;
        sorting::sort_entities(&mut rows.entities)?;
        sorting::sort_tasks(&mut rows.tasks);
        Ok(rows)
    }
}

/// At least as many as the tasks that are due: all, where they are few, and else those that are due.
fn due_at_most(queues: &Queues, now: u64) -> u64
    ensures value { result ≡ (if nat_le (len_of queues.now) 256
        then len_of queues.now
        else due_count now queues.now) }
    ensures most { due_count now queues.now ≤ result }
{
    let all = queues.len();
    if all <= FEW_TASKS {
        all
    } else {
        queues.count_due(now)
    }
}
