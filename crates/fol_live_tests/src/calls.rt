//! Calls that take a turn, answered as a test wants them.

ghost use Rattle.std.specs.Prelude.{◌≡◌};
ghost use Rattle.fol_live.specs.Lives.{live_id};
ghost use Rattle.fol_live_tests.specs.FreeSeats.{IsFree};

use crate::compare::same;
use fol_live::{Close, Finish, Live, LivePhase, Posting, Seat};
use fol_model::{Action, ChunkPos, Loaded, OwnerRow, SectionPos, Unloaded};
use std::process::Abort;
use std::sync::Wait;

/// Asks for a ticket to a chunk of the row z = 0, and is answered this.
pub fn load<R: Abort + Wait>(rt: &R, live: &Live, seat: &mut Seat, x: i32, wanted: Loaded)
    requires own { seat.old.lock ≡ live_id live.now }
    ensures own { seat.new.lock ≡ live_id live.now }
    ensures number { seat.new.number ≡ seat.old.number }
{
    let chunk = ChunkPos { x, z: 0 };
    assert!(rt; chunk.in_range());
    same(rt, &live.load(rt, seat, chunk), &Ok(wanted));
}

/// Takes a ticket from a chunk of the row z = 0, and is answered this.
pub fn unload<R: Abort + Wait>(rt: &R, live: &Live, seat: &mut Seat, x: i32, wanted: Unloaded)
    requires own { seat.old.lock ≡ live_id live.now }
    ensures own { seat.new.lock ≡ live_id live.now }
    ensures number { seat.new.number ≡ seat.old.number }
{
    let chunk = ChunkPos { x, z: 0 };
    assert!(rt; chunk.in_range());
    same(rt, &live.unload(rt, seat, chunk), &Ok(wanted));
}

/// Posts a task on chunk (0, 0), which gets this number.
#[tactic(auto, unfolding(fol_model::specs::Geometry::is_chunk, fol_model::specs::Limits::is_delay, fol_model::specs::Limits::is_action, fol_model::specs::Limits::may_post))]
pub fn post<R: Abort + Wait>(rt: &R, live: &Live, seat: &mut Seat, number: u64)
    requires own { seat.old.lock ≡ live_id live.now }
    ensures own { seat.new.lock ≡ live_id live.now }
    ensures number { seat.new.number ≡ seat.old.number }
{
    let chunk = ChunkPos { x: 0, z: 0 };
    match live.post(rt, seat, chunk, 1, Action::Unload(chunk)) {
        Ok(Posting::Posted(found)) => same(rt, &found, &number),
        _ => panic!(rt; "the task is accepted"),
    }
}

/// Asks for a phase of so many ticks, and is answered this.
pub fn open_phase<R: Abort + Wait>(rt: &R, live: &Live, seat: &mut Seat, n: u32, wanted: LivePhase)
    requires own { seat.old.lock ≡ live_id live.now }
    ensures own { seat.new.lock ≡ live_id live.now }
    ensures number { seat.new.number ≡ seat.old.number }
{
    same(rt, &live.open_phase(rt, seat, n), &Ok(wanted));
}

/// Asks for the end of the phase, and is answered this.
pub fn close_phase<R: Abort + Wait>(rt: &R, live: &Live, seat: &mut Seat, wanted: Close)
    requires own { seat.old.lock ≡ live_id live.now }
    ensures own { seat.new.lock ≡ live_id live.now }
    ensures number { seat.new.number ≡ seat.old.number }
{
    same(rt, &live.close_phase(rt, seat), &Ok(wanted));
}

/// Asks for the end of the history, and is answered this.
pub fn finish<R: Abort + Wait>(rt: &R, live: &Live, seat: &mut Seat, wanted: Finish)
    requires own { seat.old.lock ≡ live_id live.now }
    ensures own { seat.new.lock ≡ live_id live.now }
    ensures number { seat.new.number ≡ seat.old.number }
{
    same(rt, &live.finish(rt, seat), &Ok(wanted));
}

/// Asks whether the history is over, and is answered this.
pub fn ended<R: Abort + Wait>(rt: &R, live: &Live, seat: &mut Seat, wanted: bool)
    requires free { IsFree (live_id live.now) seat.old }
    ensures free { IsFree (live_id live.now) seat.new }
    ensures number { seat.new.number ≡ seat.old.number }
{
    same(rt, &live.ended(rt, seat), &wanted);
}

/// So many sections are present, after so much of the history, and section (3, 0) is of this region.
pub fn owner_rows<R: Abort + Wait>(
    rt: &R,
    live: &Live,
    seat: &mut Seat,
    rows: usize,
    front: u64,
    owner: u64,
)
    requires own { seat.old.lock ≡ live_id live.now }
    ensures own { seat.new.lock ≡ live_id live.now }
    ensures number { seat.new.number ≡ seat.old.number }
{
    match live.owner_rows(rt, seat) {
        Ok(owners) => {
            let found = owner_of(owners.rows.as_slice(), SectionPos { x: 3, z: 0 });
            same(rt, &(owners.rows.len(), owners.front), &(rows, front));
            same(rt, &found, &Some(owner));
        }
        Err(_) => panic!(rt; "memory"),
    }
}

/// The region that owns a section.
fn owner_of(rows: &[OwnerRow], section: SectionPos) -> Option<u64> {
    for row in rows {
        if row.at == section {
            return Some(row.region);
        }
    }
    None
}
