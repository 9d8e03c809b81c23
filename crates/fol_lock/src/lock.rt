//! A lock that serves its seats in the order in which they drew a ticket.

ghost use Rattle.std.specs.Prelude.{◌≡◌, ℕ, ◌<◌, ◌≤◌, false, true, [], List, ◌++◌, All, Contains, Some, IfOk, vec_len, vec_capacity};
ghost use Rattle.fol_lock.specs.Log.{Extends};
ghost use Rattle.fol_lock.specs.Seat.{AreNew, AreAll, IsIdle, Continues, at_turn, numbers_of};
ghost use Rattle.fol_lock.specs.Turn.{state_of};
ghost use Rattle.fol_lock.specs.View.{first_view};
ghost use Rattle.fol_lock.specs.Steps.{HasTicket, GotTurn};
ghost use Rattle.fol_lock.specs.Pass.{HasClaim, Gathers};

use crate::kept::Kept;
use crate::rule::{Deal, Draw, Founding, Gather, LockRule, Look, PassOn};
use crate::seat::{Seat, Seats};
use crate::turn::Turn;
use crate::view::View;
use atomic_table::{Refused, Table};
use std::alloc::{AllocError, Global};
use std::hint::spin_loop;
use std::snapshot::Snapshot;
use std::sync::Wait;
use std::thread::yield_now;

/// The word with the next ticket.
const NEXT: usize = 0;

/// The word with the ticket that is served.
const SERVING: usize = 1;

/// The slot in which the state lies while nobody has the turn.
const HOME: usize = 0;

/// How often a seat that waits looks before it lets other threads run.
const LOOKS: u32 = 100;

type Pass<S> = atomic_table::Seat<Option<S>, View<<S as Kept>::Origin, <S as Kept>::Entry>>;

/// One state, changed by one seat at a time.
#[derive(Drop)]
pub struct Lock<S: Kept> {
    table: Table<Option<S>, View<S::Origin, S::Entry>, Founding<S>, LockRule, Global>,
    ghost sized: { (table.shared.table_id.words ≡ 2) × (table.shared.table_id.slots ≡ 1) },
    ghost some_seat: { 0 < table.shared.key.count },
}

/// What `Lock::new` makes.
pub struct LockAndSeats<S: Kept> {
    /// The lock.
    pub lock: Lock<S>,

    /// Numbered from 0, in order.
    pub seats: Seats<S>,
}

impl<S: Kept> Lock<S> {
    ghost use Rattle.fol_lock.specs.Lock.{lock_id, seat_count, lock_origin};

    /// A lock over the state, with 1 to 65,535 seats numbered from 0. The state's log is empty.
    /// The only error is out of memory; the state is then dropped.
    pub fn new(alloc: Global, state: S, seats: u32) -> Result<LockAndSeats<S>, AllocError>
        requires count { (0 < seats) × (seats < 65536) }
        requires empty { S.log state ≡ [] }
        ensures count { IfOk result (λ made. seat_count made.lock ≡ seats) }
        ensures seats { IfOk result (λ made.
            AreNew (lock_id made.lock) (S.origin state) seats made.seats) }
    {
        let dealt = Vec::with_capacity(alloc, seats as usize)?;
        let mut slots = Vec::with_capacity(alloc, 1)?;
        let founding = Founding {
            count: seats,
            state: Snapshot::of(&state),
        };
        slots.push_reserved(Some(state));
        let (table, first) = match Table::new(alloc, &[0, 0], slots, &founding) {
            Ok(made) => made,
            Err(Refused { slots: _ }) => return Err(AllocError),
        };
        let lock = Lock { table };
        let dealt = lock.deal(first, seats, dealt);
        Ok(LockAndSeats {
            lock,
            seats: Seats::of(dealt),
        })
    }

    // A seat for each number: the first pass deals the others, and keeps the last number.
    fn deal(&self, mut first: Pass<S>, count: u32, mut seats: Vec<Seat<S>>) -> Vec<Seat<S>>
        requires first { (first.table_id ≡ lock_id self.now)
            × (first.me ≡ (first_view (lock_origin S.origin self.now), [])) }
        requires count { count ≡ seat_count self.now }
        requires room { (seats.items ≡ []) × (count ≤ vec_capacity seats) }
        ensures { AreNew (lock_id self.now) (lock_origin S.origin self.now) count result.items }
    {
        let last = count - 1;
        for number in 0..last {
            let pass = self.table.shared.split_seat::<Deal>(&mut first);
            seats.push_reserved(Seat { number, pass });
        }
        seats.push_reserved(Seat {
            number: last,
            pass: first,
        });
        seats
    }

    /// How many seats have their turn or wait for it. Other threads go on meanwhile, so this is a hint for a caller that can as well do
    /// something else first, and nothing is promised of it. It takes no memory and doesn't wait.
    pub fn crowd(&self) -> u64 {
        let shared = &self.table.shared;
        let serving = shared.peek(SERVING);
        shared.peek(NEXT).wrapping_sub(serving)
    }

    /// Waits for the seat's turn. What the seat knows holds of the state, and the seat has then seen the whole log.
    /// It takes no memory. Nothing is promised of when it returns.
    pub fn take<R: Wait>(&self, rt: &R, seat: &mut Seat<S>) -> Turn<S>
        requires { IsIdle (lock_id self.now) seat.old }
        ensures state { Continues S.log S.origin S.by seat.old (state_of result) }
        ensures seat { seat.new ≡ at_turn seat.old (S.log (state_of result)) }
    {
        let ticket = self.table.shared.fetch_add::<Draw>(&mut seat.pass, NEXT, 1);
        self.wait(rt, &mut seat.pass, ticket);
        let state = self
            .table
            .shared
            .exchange(&mut seat.pass, HOME, None)
            .unwrap();
        Turn { state }
    }

    // Until the ticket is served: looks a while, and then lets other threads run.
    fn wait<R: Wait>(&self, rt: &R, pass: &mut Pass<S>, ticket: u64)
        requires { (pass.old.table_id ≡ lock_id self.now) × HasTicket ticket pass.old.me }
        ensures table { pass.new.table_id ≡ pass.old.table_id }
        ensures turn { GotTurn S.log S.origin S.by pass.old.me pass.new.me }
    {
        for _ in rt.forever() {
            for _ in 0..LOOKS {
                if self.table.shared.load::<Look>(pass, SERVING) == ticket {
                    return;
                }
                spin_loop();
            }
            yield_now();
        }
        unreachable!()
    }

    /// Gives the state back, with entries of this seat behind the log or with none, and ends the turn.
    /// It takes no memory and doesn't wait.
    pub fn give(&self, seat: &mut Seat<S>, turn: Turn<S>)
        requires seat { (seat.old.lock ≡ lock_id self.now) × (seat.old.has_turn ≡ true) }
        requires origin { seat.old.origin ≡ Some (S.origin (state_of turn)) }
        requires log { Extends S.by seat.old.number seat.old.seen (S.log (state_of turn)) }
        ensures idle { IsIdle (lock_id self.now) seat.new }
        ensures number { seat.new.number ≡ seat.old.number }
        ensures origin { seat.new.origin ≡ seat.old.origin }
        ensures seen { seat.new.seen ≡ S.log (state_of turn) }
        ensures mine { (added : List S.Entry) → S.log (state_of turn) ≡ seat.old.seen ++ added
            → seat.new.mine ≡ seat.old.mine ++ added }
    {
        let Turn { state } = turn;
        let shared = &self.table.shared;
        drop(shared.exchange(&mut seat.pass, HOME, Some(state)));
        shared.fetch_add::<PassOn>(&mut seat.pass, SERVING, 1);
    }

    /// Ends the lock, given all its seats. What each seat knows holds of the state, and every entry is of one of these
    /// seats. It takes no memory and doesn't wait.
    pub fn close(self, seats: Vec<Seat<S>>) -> S
        requires idle { All (IsIdle (lock_id self)) seats.items }
        requires all { AreAll (seat_count self) seats.items }
        ensures seats { All (λ seat. Continues S.log S.origin S.by seat result) seats.items }
        ensures others { All (λ e. Contains (numbers_of seats.items) (S.by e)) (S.log result) }
    {
        let gathered = self.gather(seats);
        let Lock { table } = self;
        let mut closed = table.close_with(gathered);
        let state = closed.take(HOME).unwrap();
        closed.free();
        state
    }

    // One pass, with the claims of all seats.
    fn gather(&self, mut seats: Vec<Seat<S>>) -> Pass<S>
        requires some { 0 < vec_len seats }
        requires idle { All (IsIdle (lock_id self.now)) seats.items }
        ensures table { result.table_id ≡ lock_id self.now }
        ensures gathers { Gathers result.me }
        ensures claims { All (HasClaim result.me.0) seats.items }
    {
        let Some(last) = seats.pop() else {
            unreachable!()
        };
        let Seat {
            number: _,
            pass: mut gathered,
        } = last;
        while let Some(seat) = seats.pop() {
            let Seat { number: _, pass } = seat;
            self.table.shared.join_seat::<Gather>(&mut gathered, pass);
        }
        gathered
    }
}
