//! What a worker has of the slots.

ghost use Rattle.std.specs.Prelude.{◌≡◌, ◌≤◌, None, IfErr, IfNone, IfSome, OnErr, OnOk};
ghost use Rattle.fol_core.specs.Ticks.{SameTick};
ghost use Rattle.fol_live.specs.Turns.{EndsAndPasses, HasOpen, Learns};
ghost use Rattle.fol_slots.specs.Shown.{freed};
ghost use Rattle.fol_slots.specs.Table.{slots_id};
ghost use Rattle.fol_live.specs.Hands.{ClaimsOne, GivesUp, MissesAll, MissesThese, tick_in};
ghost use Rattle.fol_live.specs.Rounds.{numbers_from};

use crate::world::{SLOTS, World};
use fol_data::Tick;
use fol_offers::Offer;
use fol_slots::{Claim, Slots, WorkerSeat};
use std::marker::Model;

/// A worker's seat at the slots, and which region's tick it claimed.
#[derive(Drop)]
pub struct Hand {
    worker: WorkerSeat<Offer>,
    /// The slot at which it found the last tick: the next is looked for from there on.
    from: u32,
    /// The region whose tick it holds.
    region: Option<u64>,
}

impl Model for Hand {
    ghost use Rattle.fol_slots.specs.Shown.{Worker};
    ghost use Rattle.fol_offers.specs.Offered.{Offered};
    ghost use Rattle.fol_live.specs.Hands.{IsHand};

    ghost Value = { Worker Offered };

    ghost view = { λ h. h.worker };

    ghost invariant = { λ h. IsHand h.region h.worker };
}

impl Hand {
    /// The hand of a worker that holds nothing.
    pub fn of(worker: WorkerSeat<Offer>) -> Hand
        requires slot { worker.slot ≡ None }
        requires claimed { worker.claimed ≡ None }
        ensures { result ≡ worker }
    {
        Hand {
            worker,
            region: None,
            from: 0,
        }
    }

    /// If the worker holds a tick, its Begin is recorded by it, unless it was learnt before. Whatever a worker records comes after this. Takes
    /// no memory.
    pub fn meet(self, slots: &Slots<Offer>, world: &mut World) -> Hand
        requires own { world.old.slots ≡ slots_id slots.now }
        requires seat { self.slots ≡ slots_id slots.now }
        ensures learns { Learns world.old world.new self.number }
        ensures open { HasOpen world.new self }
        ensures same { result ≡ self }
    {
        let Hand {
            worker,
            region,
            from,
        } = self;
        let worker = match region {
            Some(region) => world.meet(slots, worker, region),
            None => {
                world.keeps();
                worker
            }
        };
        Hand {
            worker,
            region,
            from,
        }
    }

    /// Ends the tick that the worker holds, once all of its tasks ran, as `World::end` does.
    pub fn end(
        self,
        slots: &Slots<Offer>,
        world: &mut World,
        tick: Box<Tick>,
        most: u32,
    ) -> (Hand, Result<u64, Box<Tick>>)
        requires own { world.old.slots ≡ slots_id slots.now }
        requires seat { self.slots ≡ slots_id slots.now }
        requires ran { GivesUp self tick.value }
        ensures ends { EndsAndPasses world.old world.new tick.value most result.1 }
        ensures freed { OnOk result.1 (result.0 ≡ freed self) }
        ensures kept { OnErr result.1 (result.0 ≡ self) }
        ensures back { IfErr result.1 (λ t. SameTick tick.value t.value) }
    {
        let Hand {
            worker,
            region,
            from,
        } = self;
        let (worker, answer) = world.end(slots, worker, tick, most);
        match answer {
            Ok(length) => {
                let hand = Hand {
                    worker,
                    region: None,
                    from,
                };
                (hand, Ok(length))
            }
            Err(tick) => {
                let hand = Hand {
                    worker,
                    region,
                    from,
                };
                (hand, Err(tick))
            }
        }
    }

    /// Claims the first tick that it finds, from the slot on at which it found the last one, and round. The tick was made by worker 0, and
    /// is run by this one. Takes no memory and does not wait.
    pub fn claim(&mut self, slots: &Slots<Offer>) -> Option<Box<Tick>>
        requires seat { self.old.slots ≡ slots_id slots.now }
        requires free { tick_in self.old.claimed ≡ None }
        requires count { self.old.slots.slots ≡ 1820 }
        ensures some { IfSome result (λ t. ClaimsOne self.old self.new t.value) }
        ensures none { IfNone result (MissesAll self.old self.new) }
    {
        let from = self.from.min(SLOTS);
        match self.claim_within(slots, from, SLOTS) {
            Some(tick) => Some(tick),
            None => self.claim_within(slots, 0, from),
        }
    }

    /// Claims the first tick that it finds in these slots.
    fn claim_within(&mut self, slots: &Slots<Offer>, first: u32, end: u32) -> Option<Box<Tick>>
        requires seat { self.old.slots ≡ slots_id slots.now }
        requires free { self.old.slot ≡ None }
        requires range { (first ≤ end) × (end ≤ self.old.slots.slots) }
        ensures some { IfSome result (λ t. ClaimsOne self.old self.new t.value) }
        ensures none { IfNone result (MissesThese self.old self.new (numbers_from first end)) }
    {
        for i in first..end {
            match slots.try_claim(&mut self.worker, i) {
                Claim::Claimed(offer) => {
                    let tick = offer.into_tick();
                    self.region = Some(tick.region);
                    self.from = i;
                    return Some(tick);
                }
                Claim::Taken(_) => {}
            }
        }
        None
    }
}
