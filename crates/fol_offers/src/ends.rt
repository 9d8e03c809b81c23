//! A worker gives its tick back.

ghost use Rattle.std.specs.Prelude.{◌≡◌, false, All, IfErr, IfOk, IsTrue, OnErr, OnOk, Some, length};
ghost use Rattle.fol_model.specs.Geometry.{is_chunk};
ghost use Rattle.fol_data.specs.declared.tick.Tick.{Tick};
ghost use Rattle.fol_slots.specs.Shown.{freed};
ghost use Rattle.fol_slots.specs.Table.{slots_id};
ghost use Rattle.fol_core.specs.Ahead.{Spares};
ghost use Rattle.fol_world.specs.AtEnd.{end_event};
ghost use Rattle.fol_core.specs.Meaning.{Records, Stays, is_prepared, world_of};
ghost use Rattle.fol_core.specs.Ticks.{SameTick};
ghost use Rattle.fol_tick_laws.specs.OpenTicks.{IsOpen};
ghost use Rattle.fol_offers.specs.Ends.{ClearsWishes, Ends, GivesBack, Has, Meets, wishes_may_touch};
ghost use Rattle.fol_offers.specs.InTurn.{IsFree};
ghost use Rattle.fol_offers.specs.Offered.{of_tick};
ghost use Rattle.fol_offers.specs.Shown.{NoneFree};

use crate::offer::Offer;
use crate::offers::Offers;
use fol_data::Tick;
use fol_model::{ChunkPos, Wish};
use fol_slots::{Slots, WorkerSeat};
use std::alloc::{AllocError, Global};

impl Offers {
    /// Meets a worker that claimed the tick of this region. The Begin is recorded by the worker itself, unless it was learnt before, and
    /// the tick is open then. Whatever a worker records while it has a tick comes after this. Where no tick was left to be offered, none is
    /// left. Takes no memory.
    pub fn meet(
        &mut self,
        slots: &Slots<Offer>,
        seat: WorkerSeat<Offer>,
        region: u64,
    ) -> WorkerSeat<Offer>
        requires own { self.old.slots ≡ slots_id slots.now }
        requires seat { seat.slots ≡ slots_id slots.now }
        requires has { Has seat region }
        ensures met { Meets self.old self.new seat.number region }
        ensures open { (t : Tick) → seat.claimed ≡ Some (of_tick t)
            → IsOpen self.new.core (record t { worker = seat.number }) }
        ensures none { NoneFree self.old.core → NoneFree self.new.core }
        ensures seat { result ≡ seat }
    {
        let _entries = self.core.history();
        let worker = seat.number();
        let seat = slots.meet(seat, &mut self.keeper);
        if self.core.is_prepared(region) {
            self.core.learn(worker, worker, region);
        }
        seat
    }

    /// Ends the tick that a worker claimed, once all of its tasks ran: the Begin is recorded where it was not learnt before, each offered
    /// tick that the wishes may touch is called back, and then the End is recorded. Returns the new length of the history, with the seat,
    /// which holds no slot any more. If memory runs out, no End is recorded, and the worker has its tick still, which is the same.
    pub fn end(
        &mut self,
        alloc: Global,
        slots: &Slots<Offer>,
        seat: WorkerSeat<Offer>,
        tick: Box<Tick>,
    ) -> (WorkerSeat<Offer>, Result<u64, Box<Tick>>)
        requires own { self.old.slots ≡ slots_id slots.now }
        requires seat { seat.slots ≡ slots_id slots.now }
        requires ran { GivesBack seat tick.value }
        ensures ends { Ends self.old self.new tick.value result.1 }
        ensures free { OnOk result.1
            (IsFree self.new.workers self.new.core.history tick.value.worker) }
        ensures freed { OnOk result.1 (result.0 ≡ freed seat) }
        ensures kept { OnErr result.1 (result.0 ≡ seat) }
        ensures back { IfErr result.1 (λ t. SameTick tick.value t.value) }
    {
        let mut tick = tick;
        let (seat, answer) = self.end_in_place(alloc, slots, seat, &mut *tick);
        match answer {
            Ok(length) => {
                self.boxes.put(tick);
                (seat, Ok(length))
            }
            Err(_) => (seat, Err(tick)),
        }
    }

    /// The same where the tick stands. Once its End is recorded, nothing is left in it that is worth keeping.
    fn end_in_place(
        &mut self,
        alloc: Global,
        slots: &Slots<Offer>,
        seat: WorkerSeat<Offer>,
        tick: &mut Tick,
    ) -> (WorkerSeat<Offer>, Result<u64, AllocError>)
        requires own { self.old.slots ≡ slots_id slots.now }
        requires seat { seat.slots ≡ slots_id slots.now }
        requires ran { GivesBack seat tick.old }
        ensures ends { Ends self.old self.new tick.old result.1 }
        ensures free { OnOk result.1
            (IsFree self.new.workers self.new.core.history tick.old.worker) }
        ensures freed { OnOk result.1 (result.0 ≡ freed seat) }
        ensures kept { OnErr result.1 (result.0 ≡ seat) }
        ensures same { OnErr result.1 (SameTick tick.old tick.new) }
    {
        let by = tick.worker;
        let seat = self.meet(slots, seat, tick.region);
        let _entries = self.core.history();
        match self.clear_wishes(slots, by, tick.log.wishes.as_slice()) {
            Ok(()) => self.take_back(alloc, slots, seat, tick),
            Err(_) => (seat, Err(AllocError)),
        }
    }

    /// Calls back what these wishes may touch. A wish for the chunk of the first one or of the last one that was looked at is passed over: what that
    /// chunk may touch came back, and nothing was offered since. Fails only when out of memory; then what the first of them may touch was called back.
    fn clear_wishes(
        &mut self,
        slots: &Slots<Offer>,
        by: u32,
        wishes: &[Wish],
    ) -> Result<(), AllocError>
        requires own { self.old.slots ≡ slots_id slots.now }
        requires in_range { All (λ x. IsTrue (is_chunk x.chunk)) wishes.now }
        ensures { ClearsWishes self.old self.new by wishes.now result }
    {
        let mut first: Option<ChunkPos> = None;
        let mut last: Option<ChunkPos> = None;
        for wish in wishes {
            let chunk = Some(wish.chunk);
            if last == chunk || first == chunk {
                continue;
            }
            self.clear(slots, by, wish.chunk)?;
            last = chunk;
            first = first.or(chunk);
        }
        Ok(())
    }

    /// Ends the tick of a worker that was met, once what its wishes may touch was called back, and frees its slot. If memory runs out,
    /// nothing has changed.
    fn take_back(
        &mut self,
        alloc: Global,
        slots: &Slots<Offer>,
        seat: WorkerSeat<Offer>,
        tick: &mut Tick,
    ) -> (WorkerSeat<Offer>, Result<u64, AllocError>)
        requires own { self.old.slots ≡ slots_id slots.now }
        requires seat { seat.slots ≡ slots_id slots.now }
        requires ran { GivesBack seat tick.old }
        requires open { (t : Tick) → seat.claimed ≡ Some (of_tick t)
            → IsOpen self.old.core (record t { worker = seat.number }) }
        requires known { is_prepared self.old.core tick.old.region ≡ false }
        requires cleared { Spares self.old.core
            (wishes_may_touch (world_of self.old.core) tick.old.log.wishes) }
        ensures slots { self.new.slots ≡ self.old.slots }
        ensures workers { self.new.workers ≡ self.old.workers }
        ensures length { IfOk result.1 (λ n. n ≡ length self.new.core.history) }
        ensures recorded { OnOk result.1 (Records self.old.core self.new.core tick.old.worker
            (end_event (world_of self.old.core) tick.old.worker tick.old.region tick.old.log.ran)) }
        ensures free { OnOk result.1
            (IsFree self.new.workers self.new.core.history tick.old.worker) }
        ensures freed { OnOk result.1 (result.0 ≡ freed seat) }
        ensures kept { OnErr result.1 (result.0 ≡ seat) }
        ensures refused { OnErr result.1 (Stays self.old.core self.new.core) }
        ensures same { OnErr result.1 (SameTick tick.old tick.new) }
    {
        let _entries = self.core.history();
        let region = tick.region;
        match self.core.end(alloc, tick) {
            Err(_) => (seat, Err(AllocError)),
            Ok(length) => {
                let seat = slots.take_in(seat, &mut self.keeper, Offer::nothing());
                let Some(i) = self.places.slot_of(region) else {
                    unreachable!()
                };
                self.places.clear(i);
                (seat, Ok(length))
            }
        }
    }
}
