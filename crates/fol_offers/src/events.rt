//! What is not of a tick: loads, unloads, posts, phases, and the end of a history.

ghost use Rattle.std.specs.Prelude.{◌≡◌, ◌+◌, ◌≤◌, IfErr, IfOk, IsTrue, OnErr};
ghost use Rattle.fol_model.specs.Geometry.{is_chunk};
ghost use Rattle.fol_model.specs.Limits.{is_action, is_delay, may_post};
ghost use Rattle.fol_slots.specs.Table.{slots_id};
ghost use Rattle.fol_core.specs.Answers.{CloseRecords, FinishRecords, PhaseRecords, close_result, finish_result, phase_result};
ghost use Rattle.fol_core.specs.Meaning.{Stays, world_of};
ghost use Rattle.fol_offers.specs.Shown.{Loads, Posts, Stops, Unloads};

use crate::offer::Offer;
use crate::offers::Offers;
use fol_core::{Close, Finish, Phase, Posting};
use fol_model::{Action, ChunkPos, Loaded, Unloaded};
use fol_slots::Slots;
use std::alloc::AllocError;

impl Offers {
    /// Adds a ticket to a chunk, as `Core::load`, once each offered tick of a region that this may touch was called back. The regions that
    /// were called back and still owe a tick are for `offer_next` then. If memory runs out, nothing is recorded but Begins that were learnt.
    pub fn load(&mut self, slots: &Slots<Offer>, by: u32, c: ChunkPos) -> Result<Loaded, AllocError>
        requires own { self.old.slots ≡ slots_id slots.now }
        requires in_range { IsTrue (is_chunk c) }
        ensures { Loads self.old self.new by c result }
    {
        self.clear(slots, by, c)?;
        let _entries = self.core.history();
        self.core.load(by, c)
    }

    /// Takes a ticket from a chunk, as `Core::unload`, in the way of `load`.
    pub fn unload(
        &mut self,
        slots: &Slots<Offer>,
        by: u32,
        c: ChunkPos,
    ) -> Result<Unloaded, AllocError>
        requires own { self.old.slots ≡ slots_id slots.now }
        requires in_range { IsTrue (is_chunk c) }
        ensures { Unloads self.old self.new by c result }
    {
        self.clear(slots, by, c)?;
        let _entries = self.core.history();
        self.core.unload(by, c)
    }

    /// Asks for a task on a chunk, as `Core::post`, in the way of `load`. Out of memory hands the action back.
    pub fn post(
        &mut self,
        slots: &Slots<Offer>,
        by: u32,
        c: ChunkPos,
        delay: u32,
        action: Action,
    ) -> Result<Posting, Action>
        requires own { self.old.slots ≡ slots_id slots.now }
        requires in_range { IsTrue (is_chunk c) }
        requires delay { IsTrue (is_delay delay) }
        requires action { IsTrue (is_action action) }
        requires may_be_posted { IsTrue (may_post action) }
        ensures posted { Posts self.old self.new by c delay action result }
        ensures back { IfErr result (λ a. a ≡ action) }
    {
        match self.clear(slots, by, c) {
            Ok(()) => {
                let _entries = self.core.history();
                self.core.post(by, c, delay, action)
            }
            Err(_) => Err(action),
        }
    }

    /// Opens a phase of `n` ticks, as `Core::open_phase`. Its regions are for `offer_next` then.
    pub fn open_phase(&mut self, by: u32, n: u32) -> Result<Phase, AllocError>
        requires some { 1 ≤ n }
        requires within { (world_of self.old.core).sum + n ≤ 10000 }
        ensures slots { self.new.slots ≡ self.old.slots }
        ensures workers { self.new.workers ≡ self.old.workers }
        ensures answer { IfOk result (λ a. a ≡ phase_result (world_of self.old.core)) }
        ensures recorded { IfOk result (PhaseRecords self.old.core self.new.core by n) }
        ensures refused { OnErr result (Stays self.old.core self.new.core) }
    {
        self.core.open_phase(by, n)
    }

    /// Closes the phase, as `Core::close_phase`. Where it is Closed no tick is offered, since no region owes one.
    pub fn close_phase(&mut self, by: u32) -> Result<Close, AllocError>
        ensures slots { self.new.slots ≡ self.old.slots }
        ensures workers { self.new.workers ≡ self.old.workers }
        ensures answer { IfOk result (λ a. a ≡ close_result (world_of self.old.core)) }
        ensures recorded { IfOk result (λ a. CloseRecords self.old.core self.new.core by a) }
        ensures refused { OnErr result (Stays self.old.core self.new.core) }
    {
        self.core.close_phase(by)
    }

    /// Finishes the history, as `Core::finish`. Where it is Finished no tick is offered, since no region owes one outside phases.
    pub fn finish(&mut self, by: u32) -> Result<Finish, AllocError>
        ensures slots { self.new.slots ≡ self.old.slots }
        ensures workers { self.new.workers ≡ self.old.workers }
        ensures answer { IfOk result (λ a. a ≡ finish_result (world_of self.old.core)) }
        ensures recorded { IfOk result (λ a. FinishRecords self.old.core self.new.core by a) }
        ensures refused { OnErr result (Stays self.old.core self.new.core) }
    {
        let _entries = self.core.history();
        self.core.finish(by)
    }

    /// Gives up: records a Stop by this seat, once each offered tick was called back, unless the history is over. Takes no memory.
    pub fn stop(&mut self, slots: &Slots<Offer>, by: u32)
        requires own { self.old.slots ≡ slots_id slots.now }
        ensures { Stops self.old self.new by }
    {
        self.recall(slots, by);
        self.core.stop(by);
    }
}
