//! What a world does for the ticks of its workers.

ghost use Rattle.std.specs.Prelude.{◌≡◌, IfErr, OnErr, OnOk};
ghost use Rattle.fol_slots.specs.Shown.{freed};
ghost use Rattle.fol_slots.specs.Table.{slots_id};
ghost use Rattle.fol_core.specs.Ticks.{SameTick};
ghost use Rattle.fol_offers.specs.Ends.{GivesBack, Has};
ghost use Rattle.fol_offers.specs.InTurn.{IsFree};
ghost use Rattle.fol_live.specs.Turns.{Ends, EndsAndPasses, HasOpen, Learns, PassesOn};

use crate::world::World;
use fol_data::Tick;
use fol_offers::Offer;
use fol_slots::{Slots, WorkerSeat};

impl World {
    /// Meets a worker that claimed the tick of this region: the worker records its Begin, unless it was learnt before. Whatever a worker
    /// records while it has a tick comes after this. Takes no memory.
    pub fn meet(
        &mut self,
        slots: &Slots<Offer>,
        seat: WorkerSeat<Offer>,
        region: u64,
    ) -> WorkerSeat<Offer>
        requires own { self.old.slots ≡ slots_id slots.now }
        requires seat { seat.slots ≡ slots_id slots.now }
        requires has { Has seat region }
        ensures learns { Learns self.old self.new seat.number }
        ensures open { HasOpen self.new seat }
        ensures seat { result ≡ seat }
    {
        let seat = self.offers.meet(slots, seat, region);
        self.offers.keeps();
        if self.is_short {
            self.offer_rest(slots);
        }
        seat
    }

    /// Ends the tick that a worker claimed, once all of its tasks ran, and passes over at most `most` quiet ticks behind it, of any region that
    /// owes one and is not offered, that of the tick first. Then it offers what is owed. Returns the length of the history with the End, with
    /// the seat, which holds no slot any more. If memory runs out, no End is recorded, and the worker has its tick still, which is the same.
    pub fn end(
        &mut self,
        slots: &Slots<Offer>,
        seat: WorkerSeat<Offer>,
        tick: Box<Tick>,
        most: u32,
    ) -> (WorkerSeat<Offer>, Result<u64, Box<Tick>>)
        requires own { self.old.slots ≡ slots_id slots.now }
        requires seat { seat.slots ≡ slots_id slots.now }
        requires ran { GivesBack seat tick.value }
        ensures ends { EndsAndPasses self.old self.new tick.value most result.1 }
        ensures freed { OnOk result.1 (result.0 ≡ freed seat) }
        ensures kept { OnErr result.1 (result.0 ≡ seat) }
        ensures back { IfErr result.1 (λ t. SameTick tick.value t.value) }
    {
        let by = tick.worker;
        let region = tick.region;
        let (seat, answer) = self.end_tick(slots, seat, tick);
        match answer {
            Ok(length) => {
                self.pass(slots, by, region, most);
                self.offer_rest(slots);
                (seat, Ok(length))
            }
            Err(tick) => {
                self.offer_rest(slots);
                (seat, Err(tick))
            }
        }
    }

    /// The End alone. Behind it the worker has no tick open.
    fn end_tick(
        &mut self,
        slots: &Slots<Offer>,
        seat: WorkerSeat<Offer>,
        tick: Box<Tick>,
    ) -> (WorkerSeat<Offer>, Result<u64, Box<Tick>>)
        requires own { self.old.slots ≡ slots_id slots.now }
        requires seat { seat.slots ≡ slots_id slots.now }
        requires ran { GivesBack seat tick.value }
        ensures ends { Ends self.old self.new tick.value result.1 }
        ensures free { OnOk result.1
            (IsFree self.new.workers self.new.history tick.value.worker) }
        ensures freed { OnOk result.1 (result.0 ≡ freed seat) }
        ensures kept { OnErr result.1 (result.0 ≡ seat) }
        ensures back { IfErr result.1 (λ t. SameTick tick.value t.value) }
    {
        self.is_short = true;
        let (seat, answer) = self.offers.end(self.alloc, slots, seat, tick);
        self.offers.keeps();
        (seat, answer)
    }

    /// Begins and ends quiet ticks of any regions, of this one first, by a worker that has no tick open: at most `most`.
    fn pass(&mut self, slots: &Slots<Offer>, by: u32, region: u64, most: u32)
        requires own { self.old.slots ≡ slots_id slots.now }
        requires free { IsFree self.old.workers self.old.history by }
        ensures { PassesOn self.old self.new by most }
    {
        self.is_short = true;
        let _passed = self.offers.pass(slots, by, region, most);
        self.offers.keeps();
    }
}
