//! A small world with numbered seats, and calls of it that are answered as a test wants them.

ghost use Rattle.std.specs.Prelude.{◌≡◌, ◌≢◌, ◌<◌, ◌≤◌, ◌⊎◌, pos, All, None};
ghost use Rattle.fol_lock.specs.Lock.{seat_count};
ghost use Rattle.fol_live.specs.Held.{HoldsRun, HoldsTick};
ghost use Rattle.fol_live.specs.Lives.{live_id};
ghost use Rattle.fol_live.specs.Seat.{held};

use crate::compare::same;
use fol_data::Tick;
use fol_live::{Close, Finish, Live, LiveAndSeats, LiveHost, LivePhase, Seat, TryBegin};
use fol_model::{BlockPos, ChunkPos, Entity, Grid, Loaded, Opening, Sequence};
use fol_tick::run_tick;
use std::alloc::{AllocError, Global};
use std::process::Abort;
use std::sync::Wait;

/// Where the entity stands at first.
pub const HOME: BlockPos = BlockPos { x: 0, y: 64, z: 0 };

/// Entity 1, which walks by this much along x, over sections of one chunk, with a create radius and a merge radius of 1.
pub fn opening(alloc: Global, vx: i32) -> Result<Opening, AllocError>
    requires { vx ≡ pos 0 ⊎ vx ≡ pos 1 }
{
    let grid = Grid {
        shift: 0,
        create: 1,
        merge: 1,
        min: 2,
        num: 1,
        den: 6,
    };
    let walker = Entity {
        id: 1,
        at: HOME,
        vx,
        vz: 0,
    };
    let entities = Vec::from_slice(alloc, &[walker])?;
    Ok(Opening {
        version: 1,
        grid,
        blocks: Sequence::new(alloc),
        entities: Sequence::of(entities),
    })
}

/// The world of an opening, with so many seats.
pub fn start(rt: &impl Abort, alloc: Global, opening: Opening, seats: u32) -> LiveAndSeats
    requires count { (0 < seats) × (seats ≤ 65) }
    ensures count { seat_count result.live.lock ≡ seats }
    ensures free { All (λ s. (s.lock ≡ live_id result.live) × (held s ≡ None))
        result.seats.items }
{
    Live::start(alloc, opening, seats).expect(rt, "memory")
}

/// The world in which entity 1 stands, with so many seats.
pub fn start_standing(rt: &impl Abort, alloc: Global, seats: u32) -> LiveAndSeats
    requires count { (0 < seats) × (seats ≤ 65) }
    ensures count { seat_count result.live.lock ≡ seats }
    ensures free { All (λ s. (s.lock ≡ live_id result.live) × (held s ≡ None))
        result.seats.items }
{
    let opening = opening(alloc, 0).expect(rt, "memory");
    start(rt, alloc, opening, seats)
}

/// The seat with the highest number that is left, which is this one.
pub fn last(rt: &impl Abort, live: &Live, seats: &mut Vec<Seat>, number: u32) -> Seat
    requires free { All (λ s. (s.lock ≡ live_id live.now) × (held s ≡ None)) seats.old.items }
    ensures rest { All (λ s. (s.lock ≡ live_id live.now) × (held s ≡ None)) seats.new.items }
    ensures own { result.lock ≡ live_id live.now }
    ensures free { held result ≡ None }
    ensures number { result.number ≡ number }
{
    let Some(seat) = seats.pop() else {
        panic!(rt; "a seat is left");
    };
    assert_eq!(rt; seat.number(), number);
    seat
}

/// Asks for a ticket to a chunk of the row z = 0, and is answered this.
pub fn load<R: Abort + Wait>(rt: &R, live: &Live, seat: &mut Seat, x: i32, wanted: Loaded)
    requires own { seat.old.lock ≡ live_id live.now }
    ensures own { seat.new.lock ≡ live_id live.now }
    ensures number { seat.new.number ≡ seat.old.number }
{
    let chunk = ChunkPos { x, z: 0 };
    assert!(rt; chunk.in_range());
    same(rt, &live.load(rt, seat, chunk), &Ok(wanted));
}

/// Asks for a phase of so many ticks, and is answered this.
pub fn open_phase<R: Abort + Wait>(rt: &R, live: &Live, seat: &mut Seat, n: u32, wanted: LivePhase)
    requires own { seat.old.lock ≡ live_id live.now }
    ensures own { seat.new.lock ≡ live_id live.now }
    ensures number { seat.new.number ≡ seat.old.number }
{
    same(rt, &live.open_phase(rt, seat, n), &Ok(wanted));
}

/// Asks for the end of the phase, and is answered this.
pub fn close_phase<R: Abort + Wait>(rt: &R, live: &Live, seat: &mut Seat, wanted: Close)
    requires own { seat.old.lock ≡ live_id live.now }
    ensures own { seat.new.lock ≡ live_id live.now }
    ensures number { seat.new.number ≡ seat.old.number }
{
    same(rt, &live.close_phase(rt, seat), &Ok(wanted));
}

/// Asks for the end of the history, and is answered this.
pub fn finish<R: Abort + Wait>(rt: &R, live: &Live, seat: &mut Seat, wanted: Finish)
    requires own { seat.old.lock ≡ live_id live.now }
    ensures own { seat.new.lock ≡ live_id live.now }
    ensures number { seat.new.number ≡ seat.old.number }
{
    same(rt, &live.finish(rt, seat), &Ok(wanted));
}

/// Claims a tick, which is offered.
pub fn claim(rt: &impl Abort, live: &Live, seat: &mut Seat) -> Box<Tick>
    requires own { seat.old.lock ≡ live_id live.now }
    requires worker { seat.old.number ≢ 0 }
    requires free { held seat.old ≡ None }
    ensures own { seat.new.lock ≡ live_id live.now }
    ensures number { seat.new.number ≡ seat.old.number }
    ensures holds { HoldsTick seat.new result.value }
{
    match live.try_begin(seat) {
        TryBegin::Got(tick) => tick,
        TryBegin::Idle => panic!(rt; "a tick is offered"),
    }
}

/// Runs a tick with its seat as the host.
pub fn run<R: Abort + Wait>(rt: &R, alloc: Global, live: &Live, seat: Seat, tick: &mut Tick) -> Seat
    requires own { seat.lock ≡ live_id live.now }
    requires holds { HoldsTick seat tick.old }
    ensures own { result.lock ≡ live_id live.now }
    ensures number { result.number ≡ seat.number }
    ensures holds { HoldsRun result tick.new }
{
    let mut host = LiveHost::of(rt, live, seat);
    match run_tick(alloc, tick, &mut host) {
        Ok(()) => host.into_seat(),
        Err(_) => panic!(rt; "memory"),
    }
}

/// Ends a tick that has run.
pub fn release<R: Abort + Wait>(rt: &R, live: &Live, seat: &mut Seat, tick: Box<Tick>)
    requires own { seat.old.lock ≡ live_id live.now }
    requires holds { HoldsRun seat.old tick.value }
    ensures own { seat.new.lock ≡ live_id live.now }
    ensures free { held seat.new ≡ None }
    ensures number { seat.new.number ≡ seat.old.number }
{
    match live.release(rt, seat, tick, 0) {
        Ok(length) => same(rt, &length, &seat.front()),
        Err(_) => panic!(rt; "memory"),
    }
}

/// Two ticks are of two regions.
pub fn are_of_two_regions(rt: &impl Abort, tick: &Tick, other: &Tick) {
    assert!(rt; tick.region != other.region);
}
