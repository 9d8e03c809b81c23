//! The shared world.

ghost use Rattle.std.specs.Prelude.{◌≡◌, ◌≢◌, ◌-◌, ◌<◌, ◌≤◌, List, None, All, IfOk, IfErr, IsTrue};
ghost use Rattle.fol_model.specs.declared.closings.OwnerRow.{OwnerRow};
ghost use Rattle.fol_model.specs.Geometry.{is_chunk};
ghost use Rattle.fol_model.specs.Limits.{is_action, is_delay, may_post};
ghost use Rattle.fol_lock.specs.Lock.{seat_count};

use crate::answers::{LivePhase, Owners, TryBegin};
use crate::deal::deal;
use crate::seat::Seat;
use crate::turn::{end, meet};
use crate::world::{World, WorldAndSeats};
use fol_core::{Close, CloseFault, Finish, Posting};
use fol_data::Tick;
use fol_lock::{Lock, LockAndSeats};
use fol_model::{Action, ChunkPos, Closing, Loaded, Opening, OwnerRow, Unloaded};
use fol_offers::Offer;
use fol_slots::Slots;
use std::alloc::{AllocError, Global};
use std::sync::Wait;

/// One world, changed by one seat at a time, whose ticks are claimed without waiting for anybody.
///
/// Each call with a seat but `try_begin` waits for the seat's turn, and nothing is promised of when it returns. Its answer is that of a core
/// at this turn. The seat's number and opening stay; what it has seen goes on to the whole history, which is a run of the opening; and its own
/// entries grow by the Begins of other workers that it learns of, and then by the one event of the call, last in what it has seen, or by none.
/// If the seat holds a tick whose Begin nobody has learnt of, it records that first. Out of memory records no event.
#[derive(Drop)]
pub struct Live {
    pub(crate) lock: Lock<World>,
    pub(crate) slots: Slots<Offer>,
}

/// What `Live::start` makes.
pub struct LiveAndSeats {
    pub live: Live,

    /// Numbered from 0, in order. Seat 0 claims no ticks, and each other one is a worker's.
    pub seats: Vec<Seat>,
}

impl Live {
    ghost use Rattle.fol_live.specs.Calls.{AsksForEnd, Closes, Finishes, ListsOwners, Loads, Opens, Posts, Releases, Stops, TriesToBegin, Unloads};
    ghost use Rattle.fol_live.specs.Held.{HoldsRun};
    ghost use Rattle.fol_live.specs.Lives.{live_id};
    ghost use Rattle.fol_live.specs.Seat.{held};
    ghost use Rattle.fol_live.specs.Seats.{AreAllSeats, AreNewSeats, ClosesAll, ClosingFault};

    /// The world of an opening before any event, with 1 to 65 seats. Fails only when out of memory.
    pub fn start(alloc: Global, opening: Opening, callers: u32) -> Result<LiveAndSeats, AllocError>
        requires count { (0 < callers) × (callers ≤ 65) }
        ensures count { IfOk result (λ made. seat_count made.live.lock ≡ callers) }
        ensures seats { IfOk result (λ made.
            AreNewSeats (live_id made.live) opening callers made.seats.items) }
    {
        let WorldAndSeats {
            world,
            slots,
            seats: workers,
        } = World::start(alloc, opening, callers - 1)?;
        let LockAndSeats { lock, seats } = Lock::new(alloc, world, callers)?;
        let seats = deal(alloc, seats.into_vec(), workers.into_vec())?;
        Ok(LiveAndSeats {
            live: Live { lock, slots },
            seats,
        })
    }

    /// Ends the world, given all its seats. The closing's opening is theirs, its history begins with what each has seen and has of
    /// each just its own entries, and no others, and its rows are those after that history. Returns Ticking exactly where a region
    /// ticks, with the lowest such id, or out of memory; all is then dropped. A tick that is held by a seat still makes its region tick, even
    /// where nobody had learnt of it.
    pub fn close(self, alloc: Global, seats: Vec<Seat>) -> Result<Closing, CloseFault>
        requires own { All (λ seat. seat.lock ≡ live_id self) seats.items }
        requires all { AreAllSeats (seat_count self.lock) seats.items }
        ensures closing { IfOk result (λ c. ClosesAll (seat_count self.lock - 1) seats.items c) }
        ensures fault { IfErr result (λ f. ClosingFault (seat_count self.lock - 1) seats.items f) }
    {
        let Ok(mut inner) = Vec::with_capacity(alloc, seats.len()) else {
            return Err(CloseFault::NoMemory);
        };
        for seat in seats {
            let Seat {
                seat,
                hand: _,
                sight: _,
            } = seat;
            inner.push_reserved(seat);
        }
        let Live { lock, slots } = self;
        let world = lock.close(inner);
        world.into_core(&slots, 0).closing(alloc)
    }

    /// How many seats have their turn or wait for it, as a hint: it may have changed when it is read. Takes no turn and no memory.
    pub fn crowd(&self) -> u64 {
        self.lock.crowd()
    }

    /// Which region owns each present section, after the whole history as the seat then has seen it. Records nothing.
    pub fn owner_rows<R: Wait>(&self, rt: &R, seat: &mut Seat) -> Result<Owners, AllocError>
        requires own { seat.old.lock ≡ live_id self.now }
        ensures { ListsOwners seat.old seat.new result }
    {
        let mut turn = self.lock.take(rt, &mut seat.seat);
        let world = turn.state();
        seat.hand = meet(world, &self.slots, seat.hand.take());
        let answer = world.owner_rows();
        let sight = world.sight();
        seat.sight = sight;
        self.lock.give(&mut seat.seat, turn);
        owners_after(sight.front, answer)
    }

    /// Asks for a ticket to a chunk, with the seat's number as the caller. Over exactly where Finish stands in the history; only
    /// Over is not recorded.
    pub fn load<R: Wait>(&self, rt: &R, seat: &mut Seat, c: ChunkPos) -> Result<Loaded, AllocError>
        requires own { seat.old.lock ≡ live_id self.now }
        requires in_range { IsTrue (is_chunk c) }
        ensures { Loads seat.old seat.new c result }
    {
        let by = seat.seat.number();
        let mut turn = self.lock.take(rt, &mut seat.seat);
        let world = turn.state();
        seat.hand = meet(world, &self.slots, seat.hand.take());
        let answer = world.load(&self.slots, by, c);
        seat.sight = world.sight();
        self.lock.give(&mut seat.seat, turn);
        answer
    }

    /// Takes a ticket from a chunk, with the seat's number as the caller. Over exactly where Finish stands in the history; only
    /// Over is not recorded.
    pub fn unload<R: Wait>(
        &self,
        rt: &R,
        seat: &mut Seat,
        c: ChunkPos,
    ) -> Result<Unloaded, AllocError>
        requires own { seat.old.lock ≡ live_id self.now }
        requires in_range { IsTrue (is_chunk c) }
        ensures { Unloads seat.old seat.new c result }
    {
        let by = seat.seat.number();
        let mut turn = self.lock.take(rt, &mut seat.seat);
        let world = turn.state();
        seat.hand = meet(world, &self.slots, seat.hand.take());
        let answer = world.unload(&self.slots, by, c);
        seat.sight = world.sight();
        self.lock.give(&mut seat.seat, turn);
        answer
    }

    /// Asks for a task on a chunk, with the seat's number as the caller. Over, which hands the action back, exactly where Finish
    /// stands in the history; only Over is not recorded. Out of memory hands the action back too.
    pub fn post<R: Wait>(
        &self,
        rt: &R,
        seat: &mut Seat,
        c: ChunkPos,
        delay: u32,
        action: Action,
    ) -> Result<Posting, Action>
        requires own { seat.old.lock ≡ live_id self.now }
        requires in_range { IsTrue (is_chunk c) }
        requires delay { IsTrue (is_delay delay) }
        requires action { IsTrue (is_action action) }
        requires may_be_posted { IsTrue (may_post action) }
        ensures { Posts seat.old seat.new c delay action result }
    {
        let by = seat.seat.number();
        let mut turn = self.lock.take(rt, &mut seat.seat);
        let world = turn.state();
        seat.hand = meet(world, &self.slots, seat.hand.take());
        let answer = world.post(&self.slots, by, c, delay, action);
        seat.sight = world.sight();
        self.lock.give(&mut seat.seat, turn);
        answer
    }

    /// Opens a phase of any number of ticks. Over exactly where Finish or Stop stands in the history, else InPhase exactly where a
    /// phase is open, else TooMany. Only Opened is recorded.
    pub fn open_phase<R: Wait>(
        &self,
        rt: &R,
        seat: &mut Seat,
        n: u32,
    ) -> Result<LivePhase, AllocError>
        requires own { seat.old.lock ≡ live_id self.now }
        ensures { Opens seat.old seat.new n result }
    {
        let by = seat.seat.number();
        let mut turn = self.lock.take(rt, &mut seat.seat);
        let world = turn.state();
        seat.hand = meet(world, &self.slots, seat.hand.take());
        let answer = world.open_phase(&self.slots, by, n);
        seat.sight = world.sight();
        self.lock.give(&mut seat.seat, turn);
        answer
    }

    /// Closes the phase. Over exactly where Finish or Stop stands in the history, else NoPhase exactly where none is open, else NotYet
    /// exactly where a region ticks, or is Ready and owes a tick, with the lowest such id. Only Closed is recorded.
    pub fn close_phase<R: Wait>(&self, rt: &R, seat: &mut Seat) -> Result<Close, AllocError>
        requires own { seat.old.lock ≡ live_id self.now }
        ensures { Closes seat.old seat.new result }
    {
        let by = seat.seat.number();
        let mut turn = self.lock.take(rt, &mut seat.seat);
        let world = turn.state();
        seat.hand = meet(world, &self.slots, seat.hand.take());
        let answer = world.close_phase(&self.slots, by);
        seat.sight = world.sight();
        self.lock.give(&mut seat.seat, turn);
        answer
    }

    /// Finishes the history. Over exactly where Finish or Stop stands in it, else InPhase exactly where a phase is open. Only
    /// Finished is recorded.
    pub fn finish<R: Wait>(&self, rt: &R, seat: &mut Seat) -> Result<Finish, AllocError>
        requires own { seat.old.lock ≡ live_id self.now }
        ensures { Finishes seat.old seat.new result }
    {
        let by = seat.seat.number();
        let mut turn = self.lock.take(rt, &mut seat.seat);
        let world = turn.state();
        seat.hand = meet(world, &self.slots, seat.hand.take());
        let answer = world.finish(&self.slots, by);
        seat.sight = world.sight();
        self.lock.give(&mut seat.seat, turn);
        answer
    }

    /// Gives up: records a Stop with the seat's number as the caller, unless Finish or Stop stands in the history. Takes no memory.
    pub fn stop<R: Wait>(&self, rt: &R, seat: &mut Seat)
        requires own { seat.old.lock ≡ live_id self.now }
        ensures { Stops seat.old seat.new }
    {
        let by = seat.seat.number();
        let mut turn = self.lock.take(rt, &mut seat.seat);
        let world = turn.state();
        seat.hand = meet(world, &self.slots, seat.hand.take());
        world.stop(&self.slots, by);
        seat.sight = world.sight();
        self.lock.give(&mut seat.seat, turn);
    }

    /// Whether Finish or Stop stands in the history. Records nothing but Begins that the seat learns of.
    pub fn ended<R: Wait>(&self, rt: &R, seat: &mut Seat) -> bool
        requires own { seat.old.lock ≡ live_id self.now }
        ensures { AsksForEnd seat.old seat.new result }
    {
        let mut turn = self.lock.take(rt, &mut seat.seat);
        let world = turn.state();
        seat.hand = meet(world, &self.slots, seat.hand.take());
        let answer = world.is_over();
        seat.sight = world.sight();
        self.lock.give(&mut seat.seat, turn);
        answer
    }

    /// Looks for a tick that is offered, and claims it for the seat, which is a worker's and holds none. It takes no memory and does not wait.
    /// The slots are gone over once, from the one on at which the seat found its last tick, and round; Idle is returned only where each
    /// slot had no tick when it was looked at. The tick was made at a history of length `begun`, where its Begin was allowed; the Begin stands
    /// there or later, with nothing between that touches its region, and whoever learns of it first records it, at the latest this
    /// seat at its next call.
    pub fn try_begin(&self, seat: &mut Seat) -> TryBegin
        requires own { seat.old.lock ≡ live_id self.now }
        requires worker { seat.old.number ≢ 0 }
        requires free { held seat.old ≡ None }
        ensures { TriesToBegin seat.old seat.new result }
    {
        let number = seat.seat.number();
        match &mut seat.hand {
            Some(hand) => match hand.claim(&self.slots) {
                Some(mut tick) => {
                    tick.worker = number;
                    TryBegin::Got(tick)
                }
                None => TryBegin::Idle,
            },
            None => unreachable!(),
        }
    }

    /// Ends the tick that the seat holds, once all of its tasks ran. Returns the length of the history with the End, or out of memory with the
    /// tick, which is the same, and which the seat holds still. It also works after a Stop.
    ///
    /// Behind the End the seat may begin and end further quiet ticks, at most `most`, of any region that owes one and is not offered, that of
    /// the tick first: where no task is due in them, few entities have a speed, which are moved then and there, and their release changes
    /// nothing. How many of these ticks it leaves to `try_begin` is free. `Seat::saw_none_owing` then tells, where it is true, that no tick is
    /// left to look for.
    pub fn release<R: Wait>(
        &self,
        rt: &R,
        seat: &mut Seat,
        tick: Box<Tick>,
        most: u32,
    ) -> Result<u64, Box<Tick>>
        requires own { seat.old.lock ≡ live_id self.now }
        requires ran { HoldsRun seat.old tick.value }
        ensures { Releases seat.old seat.new tick.value most result }
    {
        let mut turn = self.lock.take(rt, &mut seat.seat);
        let world = turn.state();
        let hand = meet(world, &self.slots, seat.hand.take());
        let (hand, answer) = end(world, &self.slots, hand, tick, most);
        seat.hand = hand;
        seat.sight = world.sight_of_ticks();
        self.lock.give(&mut seat.seat, turn);
        answer
    }
}

/// These owners after so much of the history, or out of memory.
fn owners_after(front: u64, answer: Result<Vec<OwnerRow>, AllocError>) -> Result<Owners, AllocError>
    ensures front { IfOk result (λ o. o.front ≡ front) }
    ensures rows { (list : List OwnerRow) → IfOk answer (λ v. v.items ≡ list)
        → IfOk result (λ o. o.rows.items ≡ list) }
{
    match answer {
        Ok(rows) => Ok(Owners { front, rows }),
        Err(_) => Err(AllocError),
    }
}
