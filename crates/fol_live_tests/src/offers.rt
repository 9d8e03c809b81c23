//! Two regions are offered: a worker claims one, and then a chunk between them is loaded.

ghost use Rattle.std.specs.Prelude.{◌≡◌, ◌<◌, None, All};
ghost use Rattle.fol_slots.specs.Table.{slots_id, slot_count};

use fol_core::{Close, Core, Finish, Phase};
use fol_model::{ChunkPos, EventRef, Grid, Loaded, Opening, PackedEntry, Sequence};
use fol_offers::{Offer, Offers, OffersAndSeats};
use fol_slots::{Claim, Slots, WorkerSeat};
use std::alloc::Global;
use std::process::Abort;
use std::test::Fail;

/// The chunk of region 1.
const ORIGIN: ChunkPos = ChunkPos { x: 0, z: 0 };

/// The chunk of region 2.
const AWAY: ChunkPos = ChunkPos { x: 6, z: 0 };

/// The chunk between both, which is near to each.
const BETWEEN: ChunkPos = ChunkPos { x: 3, z: 0 };

/// Nothing but sections of one chunk, with a create radius and a merge radius of 1; three slots, and seats for two workers.
fn start(rt: &impl Abort, alloc: Global) -> OffersAndSeats
    ensures slots { result.offers.slots ≡ slots_id result.slots }
    ensures count { slot_count result.slots ≡ 3 }
    ensures seats { All (λ s. (s.slots ≡ slots_id result.slots) × (s.slot ≡ None)) result.seats }
{
    let grid = Grid::of(0, 1, 1, 2, 1, 6).expect(rt, "the grid is within the limits");
    let opening = Opening {
        version: 1,
        grid,
        blocks: Sequence::new(alloc),
        entities: Sequence::new(alloc),
    };
    // A proof learns where a field is read that the numbers of the grid are within their limits.
    let _grid = opening.grid;
    let core = Core::start(alloc, opening).expect(rt, "memory");
    Offers::start(alloc, core, 3, 2).expect(rt, "memory")
}

/// Adds a ticket to a chunk.
fn load(rt: &impl Abort, offers: &mut Offers, slots: &Slots<Offer>, c: ChunkPos)
    requires own { offers.old.slots ≡ slots_id slots.now }
    ensures own { offers.new.slots ≡ offers.old.slots }
{
    assert!(rt; c.in_range());
    match offers.load(slots, 0, c) {
        Ok(answer) => assert_eq!(rt; answer, Loaded::Counted),
        Err(_) => panic!(rt; "memory"),
    }
}

/// Whether there was a region to be offered, which is then.
fn offers_one(rt: &impl Abort, alloc: Global, offers: &mut Offers, slots: &Slots<Offer>) -> bool
    requires own { offers.old.slots ≡ slots_id slots.now }
    ensures own { offers.new.slots ≡ offers.old.slots }
{
    offers
        .offer_next(alloc, slots)
        .expect(rt, "memory")
        .is_some()
}

/// Both regions owe a tick, and are offered.
fn offer_both(rt: &impl Abort, alloc: Global, offers: &mut Offers, slots: &Slots<Offer>)
    requires own { offers.old.slots ≡ slots_id slots.now }
    ensures own { offers.new.slots ≡ offers.old.slots }
{
    assert_eq!(rt; offers.phase_ticks(), 0);
    match offers.open_phase(0, 1) {
        Ok(Phase::Opened) => {}
        _ => panic!(rt; "the phase is opened"),
    }
    assert!(rt; offers_one(rt, alloc, offers, slots));
    assert!(rt; offers_one(rt, alloc, offers, slots));
    assert!(rt; !offers_one(rt, alloc, offers, slots));
    assert!(rt; offers.is_offered(1) && offers.is_offered(2));
}

/// The region whose tick the worker claims in slot 0.
fn claim(rt: &impl Abort, slots: &Slots<Offer>, seat: &mut WorkerSeat<Offer>) -> u64
    requires own { seat.old.slots ≡ slots_id slots.now }
    requires free { seat.old.slot ≡ None }
    requires some { 0 < slot_count slots.now }
{
    match slots.try_claim(seat, 0) {
        Claim::Claimed(offer) => offer.into_tick().region,
        _ => panic!(rt; "a tick is claimed"),
    }
}

/// Whether the entry is the Begin of worker 2 in this region, which this seat recorded.
fn is_begin(entry: &PackedEntry, by: u32, region: u64) -> bool {
    match entry.event() {
        EventRef::Begin { worker, region: at } => entry.by() == by && worker == 2 && at == region,
        _ => false,
    }
}

#[test]
fn a_stop_calls_back_what_nobody_claimed(rt: HostRuntime) -> Result<(), Fail> {
    let alloc = rt.alloc();
    let OffersAndSeats {
        mut offers,
        slots,
        seats: _,
    } = start(&rt, alloc);
    load(&rt, &mut offers, &slots, ORIGIN);
    load(&rt, &mut offers, &slots, AWAY);
    offer_both(&rt, alloc, &mut offers, &slots);
    offers.stop(&slots, 0);
    assert!(&rt; !offers.is_offered(1) && !offers.is_offered(2));
    assert_eq!(&rt; offers.history().len(), 4);
    assert!(&rt; !offers_one(&rt, alloc, &mut offers, &slots));
    Ok(())
}

#[test]
fn the_tick_that_was_claimed_is_learnt(rt: HostRuntime) -> Result<(), Fail> {
    let alloc = rt.alloc();
    let OffersAndSeats {
        mut offers,
        slots,
        seats,
    } = start(&rt, alloc);
    load(&rt, &mut offers, &slots, ORIGIN);
    load(&rt, &mut offers, &slots, AWAY);
    offer_both(&rt, alloc, &mut offers, &slots);
    let mut seats = seats.into_vec();
    let mut seat = seats.pop().expect(&rt, "two seats");
    let claimed = claim(&rt, &slots, &mut seat);
    load(&rt, &mut offers, &slots, BETWEEN);
    assert!(&rt; !offers.is_offered(1) && !offers.is_offered(2));
    let history = offers.history();
    assert_eq!(&rt; history.len(), 5);
    assert!(&rt; is_begin(&history[3], 0, claimed));
    // The other region came back, and waits for the claimed one now: it owes its tick, and can't be offered.
    assert!(&rt; !offers_one(&rt, alloc, &mut offers, &slots));
    offers.stop(&slots, 0);
    offers.stop(&slots, 0);
    assert_eq!(&rt; offers.history().len(), 6);
    Ok(())
}

#[test]
fn a_phase_in_which_nobody_ticks_is_closed(rt: HostRuntime) -> Result<(), Fail> {
    let alloc = rt.alloc();
    let OffersAndSeats {
        mut offers,
        slots: _,
        seats: _,
    } = start(&rt, alloc);
    assert_eq!(&rt; offers.phase_ticks(), 0);
    assert!(&rt; matches!(offers.open_phase(0, 1), Ok(Phase::Opened)));
    assert!(&rt; matches!(offers.finish(0), Ok(Finish::InPhase)));
    assert!(&rt; matches!(offers.close_phase(0), Ok(Close::Closed)));
    assert!(&rt; matches!(offers.finish(0), Ok(Finish::Finished)));
    Ok(())
}
