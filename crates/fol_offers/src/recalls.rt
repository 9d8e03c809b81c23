//! Offered ticks are called back.

ghost use Rattle.std.specs.Prelude.{◌≡◌, ◌≤◌, ◌<◌, ℕ, true, false, IfSome, IfNone, IsTrue, OnErr, OnOk, length, nat_eq};
ghost use Rattle.fol_model.specs.Geometry.{is_chunk};
ghost use Rattle.fol_model.specs.GridNumbers.{IsGrid};
ghost use Rattle.fol_model.specs.Run.{Run};
ghost use Rattle.fol_slots.specs.Table.{slots_id};
ghost use Rattle.fol_core.specs.Ahead.{NonePrepared, may_touch};
ghost use Rattle.fol_core.specs.Meaning.{is_prepared, world_of};
ghost use Rattle.fol_tick_laws.specs.Touching.{lists};
ghost use Rattle.fol_offers.specs.InTurn.{TakeTurns};
ghost use Rattle.fol_offers.specs.Places.{region_at};
ghost use Rattle.fol_offers.specs.Shown.{CallsBack, every};

use crate::offer::Offer;
use crate::offers::Offers;
use fol_core::Core;
use fol_model::ChunkPos;
use fol_slots::{Keep, Slots};
use std::alloc::AllocError;

impl Offers {
    /// Gets the tick of a prepared region back, which then is offered no more. Where a worker has claimed it, its Begin is recorded
    /// instead, by this seat. Takes no memory.
    fn call_back(&mut self, slots: &Slots<Offer>, by: u32, region: u64)
        requires own { self.old.slots ≡ slots_id slots.now }
        requires prepared { is_prepared self.old.core region ≡ true }
        ensures { CallsBack self.old self.new by (nat_eq region) }
    {
        let _entries = self.core.history();
        let Some(i) = self.places.slot_of(region) else {
            unreachable!()
        };
        match slots.try_keep(&mut self.keeper, i) {
            Keep::Kept => {
                let mut boxed = slots
                    .body(&mut self.keeper, i, Offer::nothing())
                    .into_tick();
                self.core.withdraw_in(&mut *boxed);
                self.boxes.put(boxed);
                self.places.clear(i);
            }
            Keep::Busy(worker) => self.core.learn(by, worker, region),
        }
    }

    /// Calls each of these regions back whose tick is offered, once.
    fn call_all_back(&mut self, slots: &Slots<Offer>, by: u32, regions: &[u64])
        requires own { self.old.slots ≡ slots_id slots.now }
        ensures { CallsBack self.old self.new by (lists regions.now) }
    {
        for region in regions {
            self.call_back_one(slots, by, *region);
        }
    }

    /// Calls a region back, if its tick is offered.
    pub(crate) fn call_back_one(&mut self, slots: &Slots<Offer>, by: u32, region: u64)
        requires own { self.old.slots ≡ slots_id slots.now }
        ensures { CallsBack self.old self.new by (nat_eq region) }
    {
        if self.core.is_prepared(region) {
            self.call_back(slots, by, region);
        }
    }

    /// Calls back each region whose tick is offered. Goes over the slots twice at most.
    pub(crate) fn recall(&mut self, slots: &Slots<Offer>, by: u32)
        requires own { self.old.slots ≡ slots_id slots.now }
        ensures back { CallsBack self.old self.new by every }
        ensures none { NonePrepared self.new.core }
    {
        let mut from = 0;
        while let Some((i, region)) = self.offered_from(from) {
            self.call_back(slots, by, region);
            from = i;
        }
    }

    /// Calls back each region whose tick is offered, and gives the core. The seats of the workers are of no use then. Takes no memory.
    pub fn into_core(self, slots: &Slots<Offer>, by: u32) -> Core
        requires own { self.slots ≡ slots_id slots.now }
        ensures back { CallsBack self (record self { core = result }) by every }
        ensures none { NonePrepared result }
        ensures grid { IsGrid result.opening.grid }
        ensures run { Run result.opening result.history }
        ensures turns { TakeTurns self.workers result.history }
    {
        let mut offers = self;
        offers.recall(slots, by);
        let Offers {
            core,
            keeper: _,
            places: _,
            boxes: _,
        } = offers;
        let _entries = core.history();
        core
    }

    /// A slot with the region whose tick is offered there: the first one from this slot on, or else the first one before it.
    fn offered_from(&self, from: usize) -> Option<(usize, u64)>
        ensures some { IfSome result (λ o. is_prepared self.now.core o.1 ≡ true) }
        ensures given { IfSome result (λ o. o.1 < (world_of self.now.core).grid.next) }
        ensures none { IfNone result (NonePrepared self.now.core) }
    {
        let _entries = self.core.history();
        let regions = self.places.regions();
        let from = from.min(regions.len());
        let found = match first_prepared(&self.core, regions, from, regions.len()) {
            Some(i) => Some(i),
            None => first_prepared(&self.core, regions, 0, from),
        };
        match found {
            Some(i) => Some((i, regions[i])),
            None => None,
        }
    }

    /// Calls back what an event on this chunk may touch, which is not looked at where no tick is offered. Takes memory only where no hold is
    /// on the chunk. Fails only when out of memory; then nothing has changed.
    pub(crate) fn clear(
        &mut self,
        slots: &Slots<Offer>,
        by: u32,
        c: ChunkPos,
    ) -> Result<(), AllocError>
        requires own { self.old.slots ≡ slots_id slots.now }
        requires in_range { IsTrue (is_chunk c) }
        ensures ok { OnOk result (CallsBack self.old self.new by (may_touch (world_of self.old.core) c)) }
        ensures err { OnErr result (self.new ≡ self.old) }
    {
        if self.core.prepared_count() == 0 {
            return Ok(());
        }
        if let Some(region) = self.core.touched_alone(c) {
            self.call_back_one(slots, by, region);
            return Ok(());
        }
        let touched = self.core.touched(c)?;
        self.call_all_back(slots, by, touched.as_slice());
        Ok(())
    }
}

/// The first slot of these whose region is prepared.
fn first_prepared(core: &Core, regions: &[u64], from: usize, to: usize) -> Option<usize>
    requires { to ≤ length regions.now }
    ensures some { IfSome result (λ i. (i < to)
        × (is_prepared core.now (region_at regions.now i) ≡ true)) }
    ensures none { IfNone result ((i : ℕ) → from ≤ i → i < to
        → is_prepared core.now (region_at regions.now i) ≡ false) }
{
    for i in from..to {
        if core.is_prepared(regions[i]) {
            return Some(i);
        }
    }
    None
}
