//! A core and the slots in which the ticks of its regions are offered.

ghost use Rattle.std.specs.Prelude.{◌≡◌, ◌≤◌, ◌<◌, true, false, All, IfOk, IfSome, OnOk, OnErr, length, vec_len};
ghost use Rattle.fol_model.specs.GridNumbers.{IsGrid};
ghost use Rattle.fol_model.specs.Outputs.{owner_rows};
ghost use Rattle.fol_model.specs.Run.{Run};
ghost use Rattle.fol_slots.specs.Shown.{AreNew};
ghost use Rattle.fol_slots.specs.Table.{slots_id, slot_count};
ghost use Rattle.fol_core.specs.Ahead.{NonePrepared, Prepares};
ghost use Rattle.fol_core.specs.Answers.{is_free, is_over};
ghost use Rattle.fol_core.specs.Meaning.{Stays, is_prepared, mark_count, world_of};
ghost use Rattle.fol_offers.specs.InTurn.{InTurn, TakeTurns};
ghost use Rattle.fol_offers.specs.Offered.{nothing};
ghost use Rattle.fol_offers.specs.Shown.{NoneFree, OffersMore, OffersNext};
ghost use Rattle.fol_offers.specs.Starts.{AreNewSlots, NoneTicks};

use crate::boxes::Boxes;
use crate::offer::Offer;
use crate::places::Places;
use fol_core::Core;
use fol_model::{OwnerRow, PackedEntry};
use fol_slots::{KeeperSeat, Slots, SlotsAndSeats, WorkerSeats};
use std::alloc::{AllocError, Global};
use std::marker::Model;

/// A core, and the keeper's seat of the slots in which ticks of its regions are offered. The tick of each prepared region lies in a slot of
/// its own, or a worker has claimed it there. A worker has claimed the tick of each region that ticks, whose Begin was learnt from its slot.
#[derive(Drop)]
pub struct Offers {
    pub(crate) core: Core,
    pub(crate) keeper: KeeperSeat<Offer>,
    pub(crate) places: Places,
    pub(crate) boxes: Boxes,
}

/// What `Offers::start` makes.
pub struct OffersAndSeats {
    pub offers: Offers,
    pub slots: Slots<Offer>,
    /// The workers' seats, in order of their numbers.
    pub seats: WorkerSeats<Offer>,
}

impl Model for Offers {
    ghost use Rattle.fol_offers.specs.Shown.{Shown};
    ghost use Rattle.fol_offers.specs.Tied.{Tied};

    ghost Value = { Shown };

    ghost view = { λ o. record { core = o.core; slots = o.keeper.slots; workers = o.keeper.workers } };

    ghost invariant = { λ o. Tied o.core o.keeper o.places };
}

impl Offers {
    /// Slots of this core, of which nothing is offered yet and in which no region ticks: so many of them, and seats for so many workers.
    /// Whoever began ticks so far is one of these workers, and had none open then; a core without entries will do. Fails only when out of
    /// memory.
    pub fn start(
        alloc: Global,
        core: Core,
        count: u32,
        workers: u32,
    ) -> Result<OffersAndSeats, AllocError>
        requires grid { IsGrid core.opening.grid }
        requires none { NonePrepared core }
        requires idle { NoneTicks (world_of core) }
        requires turns { TakeTurns workers core.history }
        requires count { (0 < count) × (count < 65536) }
        requires workers { workers ≤ 64 }
        ensures core { IfOk result (λ made. made.offers.core ≡ core) }
        ensures slots { IfOk result (λ made. made.offers.slots ≡ slots_id made.slots) }
        ensures workers { IfOk result (λ made. made.offers.workers ≡ workers) }
        ensures count { IfOk result (λ made. slot_count made.slots ≡ count) }
        ensures seats { IfOk result (λ made. AreNew (slots_id made.slots) workers made.seats) }
    {
        match new_slots(alloc, count, workers) {
            Ok((slots, places)) => {
                let SlotsAndSeats {
                    slots,
                    keeper,
                    seats,
                } = slots;
                let offers = Offers {
                    core,
                    keeper,
                    places,
                    boxes: Boxes::new(alloc),
                };
                Ok(OffersAndSeats {
                    offers,
                    slots,
                    seats,
                })
            }
            Err(_) => {
                drop(core);
                Err(AllocError)
            }
        }
    }

    /// The history is a run, and whoever began a tick is one of the workers that have seats, and had no open tick then.
    pub fn keeps(&self)
        ensures grid { IsGrid self.now.core.opening.grid }
        ensures run { Run self.now.core.opening self.now.core.history }
        ensures in_turn { InTurn self.now }
    {
        let _entries = self.core.history();
    }

    /// The ticks of all phases so far.
    pub fn phase_ticks(&self) -> u32
        ensures { result ≡ (world_of self.now.core).sum }
    {
        self.core.phase_ticks()
    }

    /// The entries of the core so far.
    pub fn history(&self) -> &[PackedEntry]
        ensures { result.now ≡ self.now.core.history }
    {
        self.core.history()
    }

    /// How many entries there are.
    pub fn front(&self) -> u64
        ensures { result ≡ length self.now.core.history }
    {
        self.core.history().len() as u64
    }

    /// Whether Finish or Stop stands in the history.
    pub fn is_over(&self) -> bool
        ensures { result ≡ is_over (world_of self.now.core) }
    {
        self.core.is_over()
    }

    /// Whether a phase is open.
    pub fn in_phase(&self) -> bool
        ensures { result ≡ (world_of self.now.core).in_phase }
    {
        self.core.in_phase()
    }

    /// A row for each present section, as `Core::owner_rows`. Fails only when out of memory.
    pub fn owner_rows(&self) -> Result<Vec<OwnerRow>, AllocError>
        ensures { IfOk result (λ rows. rows.items ≡ owner_rows (world_of self.now.core)) }
    {
        self.core.owner_rows()
    }

    /// Whether the tick of a region is offered, as far as is known: a worker may have claimed it.
    pub fn is_offered(&self, region: u64) -> bool
        ensures { result ≡ is_prepared self.now.core region }
    {
        self.core.is_prepared(region)
    }

    /// How many regions' ticks are offered, as far as is known: workers may have claimed some of them. Where it is 0, none is.
    pub fn offered_count(&self) -> u64
        ensures count { result ≡ mark_count self.now.core.prepared }
        ensures none { result ≡ 0 → NonePrepared self.now.core }
    {
        self.core.prepared_count()
    }

    /// Offers the tick of a Ready region that owes one and is not offered yet, and returns which one; `None` exactly where the history is
    /// over or there is no such region. If memory runs out, or each slot is in use, nothing has changed.
    pub fn offer_next(
        &mut self,
        alloc: Global,
        slots: &Slots<Offer>,
    ) -> Result<Option<u64>, AllocError>
        requires own { self.old.slots ≡ slots_id slots.now }
        ensures slots { self.new.slots ≡ self.old.slots }
        ensures workers { self.new.workers ≡ self.old.workers }
        ensures given { IfOk result (λ o. IfSome o (λ r.
            r < (world_of self.old.core).grid.next)) }
        ensures offered { IfOk result (OffersNext self.old.core self.new.core) }
        ensures refused { OnErr result (Stays self.old.core self.new.core) }
    {
        let _entries = self.core.history();
        if self.core.is_over() {
            return Ok(None);
        }
        let Some(region) = self.core.next_owing(0) else {
            return Ok(None);
        };
        self.offer(alloc, slots, region)?;
        Ok(Some(region))
    }

    /// Offers the tick of each Ready region that owes one and is not offered yet. If memory runs out, or each slot is in use, some of them
    /// may be offered then, and some not. Goes over the regions that it offers alone.
    pub fn offer_all(&mut self, alloc: Global, slots: &Slots<Offer>) -> Result<(), AllocError>
        requires own { self.old.slots ≡ slots_id slots.now }
        ensures offered { OffersMore self.old self.new }
        ensures all { OnOk result (NoneFree self.new.core) }
    {
        'regions: while let Some(_region) = self.offer_next(alloc, slots)? {}
        Ok(())
    }

    /// Offers the tick of a Ready region that owes one and is not offered yet. Then the region is prepared. If memory runs out, or each slot
    /// is in use, it is not, and nothing has changed.
    fn offer(&mut self, alloc: Global, slots: &Slots<Offer>, region: u64) -> Result<(), AllocError>
        requires own { self.old.slots ≡ slots_id slots.now }
        requires on { is_over (world_of self.old.core) ≡ false }
        requires free { is_free self.old.core region ≡ true }
        ensures slots { self.new.slots ≡ self.old.slots }
        ensures workers { self.new.workers ≡ self.old.workers }
        ensures offered { OnOk result (Prepares self.old.core self.new.core region) }
        ensures refused { OnErr result (Stays self.old.core self.new.core) }
    {
        let _entries = self.core.history();
        let list = self.boxes.take_list();
        self.core.reserve_with(alloc, region, list)?;
        let mut boxed = self.boxes.take()?;
        match self.places.put(region) {
            Ok(i) => {
                self.core.prepare_in(region, &mut *boxed);
                let offer = Offer::of(boxed);
                let _nothing = slots.body(&mut self.keeper, i, offer);
                slots.offer(&mut self.keeper, i);
                Ok(())
            }
            Err(_) => {
                self.boxes.put(boxed);
                Err(AllocError)
            }
        }
    }
}

/// So many bodies without a tick.
fn no_offers(alloc: Global, count: u32) -> Result<Vec<Offer>, AllocError>
    ensures count { IfOk result (λ bodies. vec_len bodies ≡ count) }
    ensures nothing { IfOk result (λ bodies. All (λ b. b ≡ nothing) bodies.items) }
{
    let mut bodies = Vec::with_capacity(alloc, count as usize)?;
    for _ in 0..count {
        bodies.push_reserved(Offer::nothing());
    }
    Ok(bodies)
}

/// So many slots in which nothing lies, with all their seats, and that none is in use.
fn new_slots(
    alloc: Global,
    count: u32,
    workers: u32,
) -> Result<(SlotsAndSeats<Offer>, Places), AllocError>
    requires count { (0 < count) × (count < 65536) }
    requires workers { workers ≤ 64 }
    ensures { IfOk result (AreNewSlots count workers) }
{
    let places = Places::new(alloc, count)?;
    match no_offers(alloc, count) {
        Ok(bodies) => match Slots::new(alloc, bodies, workers) {
            Ok(slots) => Ok((slots, places)),
            Err(_) => {
                drop(places);
                Err(AllocError)
            }
        },
        Err(_) => {
            drop(places);
            Err(AllocError)
        }
    }
}
