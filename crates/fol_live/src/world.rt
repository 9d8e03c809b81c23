//! The state behind the lock.

ghost use Rattle.std.specs.Prelude.{◌≡◌, ◌+◌, ◌≤◌, ◌<◌, [], IfOk, IfErr, IsTrue};
ghost use Rattle.fol_model.specs.Geometry.{is_chunk};
ghost use Rattle.fol_model.specs.Limits.{is_action, is_delay, may_post};
ghost use Rattle.fol_model.specs.Outputs.{owner_rows};
ghost use Rattle.fol_slots.specs.Shown.{AreNew};
ghost use Rattle.fol_slots.specs.Table.{slot_count, slots_id};
ghost use Rattle.fol_core.specs.Ahead.{NonePrepared};
ghost use Rattle.fol_core.specs.Answers.{is_over as over};
ghost use Rattle.fol_core.specs.Meaning.{world_of};
ghost use Rattle.fol_live.specs.Kept.{IsKept};
ghost use Rattle.fol_live.specs.Shown.{first, meaning_of};
ghost use Rattle.fol_live.specs.Sights.{IsSight, NoneOwing};
ghost use Rattle.fol_live.specs.Turns.{Closes, Finishes, Learns, Loads, Opens, Posts, SameWorld, Stops, Unloads};

use crate::answers::LivePhase;
use crate::origin::Origin;
use crate::sight::Sight;
use fol_core::{Close, Core, Finish, Phase, Posting};
use fol_lock::Kept;
use fol_model::{Action, ChunkPos, Entry, Loaded, Opening, OwnerRow, Unloaded};
use fol_offers::{Offer, Offers, OffersAndSeats};
use fol_slots::{Slots, WorkerSeat, WorkerSeats};
use std::alloc::{AllocError, Global};
use std::marker::Model;

/// How many slots there are: one for each region that can be Ready or Ticking at once.
pub(crate) const SLOTS: u32 = 1820;

/// How many ticks all phases may have together.
const MOST_TICKS: u32 = 10_000;

/// A core whose ticks are offered in slots, with a history that keeps what every history of seats keeps. Each Ready region that owes a tick
/// is offered, or a worker has claimed its tick, unless memory was not found for that; the next call then tries it again. It is boxed, so that
/// a turn of the lock moves a pointer.
#[derive(Drop)]
pub struct World {
    pub(crate) offers: Box<Offers>,
    /// Whether there may be a tick that is owed and not offered.
    pub(crate) is_short: bool,
    pub(crate) alloc: Global,
}

/// What `World::start` makes.
pub struct WorldAndSeats {
    pub world: World,
    pub slots: Slots<Offer>,
    /// The workers' seats, in order of their numbers.
    pub seats: WorkerSeats<Offer>,
}

impl Model for World {
    ghost use Rattle.std.specs.Prelude.{◌≡◌, false};
    ghost use Rattle.fol_offers.specs.Shown.{NoneFree};
    ghost use Rattle.fol_live.specs.Kept.{IsKept};
    ghost use Rattle.fol_live.specs.Shown.{Shown, shown};

    ghost Value = { Shown };

    ghost view = { λ w. shown w.offers.value };

    ghost invariant = { λ w. IsKept (shown w.offers.value)
        × (w.is_short ≡ false → NoneFree w.offers.value.core) };
}

impl Kept for World {
    type Origin = Origin;

    type Entry = Entry;

    ghost origin = { λ w. record { opening = w.opening; slots = w.slots; workers = w.workers } };

    ghost log = { λ w. w.history };

    ghost by = { λ e. e.by };
}

impl World {
    /// The world of an opening, before any event, with its slots, and seats for so many workers. Fails only when out of memory.
    pub fn start(alloc: Global, opening: Opening, workers: u32) -> Result<WorldAndSeats, AllocError>
        requires workers { workers ≤ 64 }
        ensures world { IfOk result (λ made.
            made.world ≡ first opening (slots_id made.slots) workers) }
        ensures count { IfOk result (λ made. slot_count made.slots ≡ 1820) }
        ensures seats { IfOk result (λ made. AreNew (slots_id made.slots) workers made.seats) }
    {
        // A proof learns where a field is read that the numbers of the grid are within their limits.
        let _grid = opening.grid;
        let core = Core::start(alloc, opening)?;
        let OffersAndSeats {
            offers,
            slots,
            seats,
        } = Offers::start(alloc, core, SLOTS, workers)?;
        let offers = Box::new(alloc, offers)?;
        let world = World {
            offers,
            is_short: true,
            alloc,
        };
        Ok(WorldAndSeats {
            world,
            slots,
            seats,
        })
    }

    /// The history keeps what every history of seats keeps.
    pub fn keeps(&self)
        ensures { IsKept self.now }
    {
        let _offers = &self.offers;
    }

    /// What a seat keeps that has seen the whole history, and did not look whether a tick is owed.
    pub fn sight(&self) -> Sight
        ensures { IsSight self.now.opening self.now.history result }
    {
        Sight {
            front: self.offers.front(),
            none_owing: false,
        }
    }

    /// What a seat keeps that has seen the whole history, and looked whether a tick is owed.
    pub fn sight_of_ticks(&self) -> Sight
        ensures { IsSight self.now.opening self.now.history result }
    {
        Sight {
            front: self.offers.front(),
            none_owing: self.has_none_owing(),
        }
    }

    /// Whether it is known that no region that is Ready owes a tick: none is offered, and none is left to be offered. Where the history is over,
    /// nothing is known of it.
    fn has_none_owing(&self) -> bool
        ensures { IsTrue result → NoneOwing (world_of (meaning_of self.now)) }
    {
        if self.offers.offered_count() > 0 || self.is_short {
            return false;
        }
        !self.offers.is_over()
    }

    /// Whether Finish or Stop stands in the history.
    pub fn is_over(&self) -> bool
        ensures { result ≡ over (world_of (meaning_of self.now)) }
    {
        self.offers.is_over()
    }

    /// Whether a phase is open.
    pub fn in_phase(&self) -> bool
        ensures { result ≡ (world_of (meaning_of self.now)).in_phase }
    {
        self.offers.in_phase()
    }

    /// The ticks of all phases so far.
    pub fn phase_ticks(&self) -> u32
        ensures { result ≡ (world_of (meaning_of self.now)).sum }
    {
        self.offers.phase_ticks()
    }

    /// Which region owns each present section, by `(z, x)`. Fails only when out of memory.
    pub fn owner_rows(&self) -> Result<Vec<OwnerRow>, AllocError>
        ensures { IfOk result (λ rows. rows.items ≡ owner_rows (world_of (meaning_of self.now))) }
    {
        self.offers.owner_rows()
    }

    /// Asks for a ticket to a chunk, by the seat of this number. Over exactly where Finish stands in the history; only Over is not
    /// recorded.
    pub fn load(&mut self, slots: &Slots<Offer>, by: u32, c: ChunkPos) -> Result<Loaded, AllocError>
        requires own { self.old.slots ≡ slots_id slots.now }
        requires in_range { IsTrue (is_chunk c) }
        ensures { Loads self.old self.new by c result }
    {
        self.is_short = true;
        let answer = self.offers.load(slots, by, c);
        self.offers.keeps();
        self.offer_rest(slots);
        answer
    }

    /// Takes a ticket from a chunk, in the way of `load`.
    pub fn unload(
        &mut self,
        slots: &Slots<Offer>,
        by: u32,
        c: ChunkPos,
    ) -> Result<Unloaded, AllocError>
        requires own { self.old.slots ≡ slots_id slots.now }
        requires in_range { IsTrue (is_chunk c) }
        ensures { Unloads self.old self.new by c result }
    {
        self.is_short = true;
        let answer = self.offers.unload(slots, by, c);
        self.offers.keeps();
        self.offer_rest(slots);
        answer
    }

    /// Asks for a task on a chunk, in the way of `load`. Over and out of memory hand the action back.
    pub fn post(
        &mut self,
        slots: &Slots<Offer>,
        by: u32,
        c: ChunkPos,
        delay: u32,
        action: Action,
    ) -> Result<Posting, Action>
        requires own { self.old.slots ≡ slots_id slots.now }
        requires in_range { IsTrue (is_chunk c) }
        requires delay { IsTrue (is_delay delay) }
        requires action { IsTrue (is_action action) }
        requires may_be_posted { IsTrue (may_post action) }
        ensures posted { Posts self.old self.new by c delay action result }
        ensures back { IfErr result (λ a. a ≡ action) }
    {
        self.is_short = true;
        let answer = self.offers.post(slots, by, c, delay, action);
        self.offers.keeps();
        self.offer_rest(slots);
        answer
    }

    /// Opens a phase of any number of ticks. Over exactly where Finish or Stop stands in the history, else InPhase exactly where a phase is
    /// open, else TooMany. Only Opened is recorded.
    pub fn open_phase(
        &mut self,
        slots: &Slots<Offer>,
        by: u32,
        n: u32,
    ) -> Result<LivePhase, AllocError>
        requires own { self.old.slots ≡ slots_id slots.now }
        ensures { Opens self.old self.new by n result }
    {
        if self.offers.is_over() {
            return Ok(LivePhase::Over);
        }
        if self.offers.in_phase() {
            return Ok(LivePhase::InPhase);
        }
        let so_far = self.offers.phase_ticks();
        if n == 0 || n > MOST_TICKS || so_far > MOST_TICKS - n {
            return Ok(LivePhase::TooMany(so_far));
        }
        self.is_short = true;
        match self.offers.open_phase(by, n)? {
            Phase::Opened => {
                self.offers.keeps();
                self.offer_rest(slots);
                Ok(LivePhase::Opened)
            }
            Phase::InPhase => unreachable!(),
            Phase::Over => unreachable!(),
        }
    }

    /// Closes the phase. Over exactly where Finish or Stop stands in the history, else NoPhase exactly where none is open, else NotYet
    /// exactly where a region ticks, or is Ready and owes a tick, with the lowest such id. Only Closed is recorded. NotYet is given only
    /// where each tick that is owed is offered: where memory was not found for that, the call fails.
    pub fn close_phase(&mut self, slots: &Slots<Offer>, by: u32) -> Result<Close, AllocError>
        requires own { self.old.slots ≡ slots_id slots.now }
        ensures { Closes self.old self.new by result }
    {
        self.is_short = true;
        match self.offers.close_phase(by)? {
            Close::NotYet(region) => {
                self.offers.offer_all(self.alloc, slots)?;
                self.offers.keeps();
                self.is_short = false;
                Ok(Close::NotYet(region))
            }
            answer => {
                self.offers.keeps();
                self.offer_rest(slots);
                Ok(answer)
            }
        }
    }

    /// Finishes the history. Over exactly where Finish or Stop stands in it, else InPhase exactly where a phase is open. Only Finished is
    /// recorded.
    pub fn finish(&mut self, slots: &Slots<Offer>, by: u32) -> Result<Finish, AllocError>
        requires own { self.old.slots ≡ slots_id slots.now }
        ensures { Finishes self.old self.new by result }
    {
        self.is_short = true;
        let answer = self.offers.finish(by);
        self.offers.keeps();
        self.offer_rest(slots);
        answer
    }

    /// Gives up: records a Stop by this seat, once each offered tick was called back, unless the history is over. Takes no memory.
    pub fn stop(&mut self, slots: &Slots<Offer>, by: u32)
        requires own { self.old.slots ≡ slots_id slots.now }
        ensures { Stops self.old self.new by }
    {
        self.is_short = true;
        self.offers.stop(slots, by);
        self.offers.keeps();
    }

    /// Offers each tick that is owed and not offered, as far as memory is found.
    pub(crate) fn offer_rest(&mut self, slots: &Slots<Offer>)
        requires own { self.old.slots ≡ slots_id slots.now }
        ensures { self.new ≡ self.old }
    {
        self.is_short = true;
        if self.offers.offer_all(self.alloc, slots).is_ok() {
            self.is_short = false;
        }
    }

    /// The core itself, once each offered tick was called back: Begins that are learnt so are recorded by this seat. Takes no memory.
    pub fn into_core(self, slots: &Slots<Offer>, by: u32) -> Core
        requires own { self.slots ≡ slots_id slots.now }
        ensures learns { Learns self (record self { history = result.history }) by }
        ensures opening { result.opening ≡ self.opening }
        ensures none { NonePrepared result }
    {
        let World {
            offers,
            is_short: _,
            alloc: _,
        } = self;
        Box::into_inner(offers).into_core(slots, by)
    }
}
