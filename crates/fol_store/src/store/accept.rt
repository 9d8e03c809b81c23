//! A task comes.

ghost use Rattle.std.specs.Prelude.{◌≡◌, ◌≤◌, ◌+◌, ℕ, Some, IsNone};
ghost use Rattle.std.specs.Option.{ForSome};
ghost use Rattle.fol_model.specs.Job.{queued};
ghost use Rattle.fol_model.specs.ActionStep.{at_id};
ghost use Rattle.fol_model.specs.declared.places.ChunkPos.{ChunkPos};
ghost use Rattle.fol_bags.specs.Places.{place_at};
ghost use Rattle.fol_store.specs.Bag.{Stirred, disturbed};
ghost use Rattle.fol_store.specs.Steps.{Roomier, TakesTask};

use crate::store::Store;
use fol_bags::{Place, slots};
use fol_model::{ChunkPos, Task};
use fol_queues::Dated;

impl Store {
    ghost use Rattle.fol_store.specs.Stock.{Stock, flat_of, jobs_of, bag_of, next_of, place};

    /// Queues a task that is due in the `delay`-th tick that its chunk's region begins from now on. It goes into the bag that has the
    /// chunk, where that is here and memory is found for it there; else it waits until that bag is settled or gathered, and where the
    /// bag is listed, it is calm no more.
    pub fn accept(&mut self, task: Task, delay: u32)
        requires spare { 1 ≤ self.old.spare }
        requires fresh { IsNone (jobs_of self.old task.number) }
        requires delay_low { 1 ≤ delay }
        requires delay_high { delay ≤ 1000000 }
        ensures tasks { jobs_of self.new
            ≡ at_id (jobs_of self.old) task.number (Some (queued task.chunk delay task.action)) }
        ensures contents { flat_of self.new ≡ flat_of self.old }
        ensures bags { (id : ℕ) → Stirred task.chunk (bag_of self.old id) (bag_of self.new id) }
        ensures next { next_of self.new ≡ next_of self.old }
        ensures spare { self.old.spare ≤ self.new.spare + 1 }
        ensures slots { self.old.slots ≤ self.new.slots }
    {
        let place = self.places.at(task.chunk);
        match self.room_at(place, task.chunk) {
            Some(id) => self.queue_in(id, task, delay),
            None => self.hold_back(place, task, delay),
        }
    }

    /// The bag that has the chunk, where it is here and has room for one task more; memory is taken for that.
    pub(super) fn bag_with_room(&mut self, c: ChunkPos) -> Option<usize>
        ensures found { ForSome result (TakesTask self.new c) }
        ensures same { Roomier self.old self.new }
    {
        let place = self.places.at(c);
        self.room_at(place, c)
    }

    /// The bag at the place of the chunk, where it is here and has room for one task more; memory is taken for that.
    fn room_at(&mut self, place: Place, c: ChunkPos) -> Option<usize>
        requires there { place ≡ place_at self.old.places c }
        ensures found { ForSome result (TakesTask self.new c) }
        ensures same { Roomier self.old self.new }
    {
        match place.bag {
            Some(id) => self.make_room(id, c),
            None => None,
        }
    }

    /// The bag that has the chunk, where it is here and memory is found for one task more.
    pub(super) fn make_room(&mut self, id: usize, c: ChunkPos) -> Option<usize>
        requires home { (place self.old c).bag ≡ Some id }
        ensures found { ForSome result (TakesTask self.new c) }
        ensures same { Roomier self.old self.new }
    {
        if slots::make_room(&mut self.bags, id) {
            Some(id)
        } else {
            None
        }
    }

    /// Queues a task in the bag that has its chunk and has room for it.
    fn queue_in(&mut self, id: usize, task: Task, delay: u32)
        requires takes { TakesTask self.old task.chunk id }
        requires fresh { IsNone (jobs_of self.old task.number) }
        requires delay_low { 1 ≤ delay }
        requires delay_high { delay ≤ 1000000 }
        ensures tasks { jobs_of self.new
            ≡ at_id (jobs_of self.old) task.number (Some (queued task.chunk delay task.action)) }
        ensures contents { flat_of self.new ≡ flat_of self.old }
        ensures bags { bag_of self.new ≡ bag_of self.old }
        ensures next { next_of self.new ≡ next_of self.old }
        ensures spare { self.new.spare ≡ self.old.spare }
        ensures slots { self.new.slots ≡ self.old.slots }
    {
        let deadline = delay as u64;
        slots::queue(&mut self.bags, id, Dated { task, deadline });
    }

    /// Queues a task in no bag so far. A listed bag at the place of its chunk is calm no more.
    fn hold_back(&mut self, place: Place, task: Task, delay: u32)
        requires there { place ≡ place_at self.old.places task.chunk }
        requires spare { 1 ≤ self.old.spare }
        requires fresh { IsNone (jobs_of self.old task.number) }
        requires delay_low { 1 ≤ delay }
        requires delay_high { delay ≤ 1000000 }
        ensures tasks { jobs_of self.new
            ≡ at_id (jobs_of self.old) task.number (Some (queued task.chunk delay task.action)) }
        ensures contents { flat_of self.new ≡ flat_of self.old }
        ensures bags { bag_of self.new ≡ λ id. disturbed task.chunk (bag_of self.old id) }
        ensures next { next_of self.new ≡ next_of self.old }
        ensures spare { self.old.spare ≤ self.new.spare + 1 }
        ensures slots { self.old.slots ≤ self.new.slots }
    {
        self.arrivals.push_reserved(Dated {
            task,
            deadline: delay as u64,
        });
        slots::disturb(&mut self.bags, place);
    }
}
