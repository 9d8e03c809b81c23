//! Who opens and closes the days.

ghost use Rattle.std.specs.Prelude.{◌≡◌, ◌≤◌, IsTrue, OnOk};
ghost use Rattle.fol_model.specs.Geometry.{is_chunk};
ghost use Rattle.fol_server.specs.Crew.{IsFree, IsLeadOf, IsSameLead};

use crate::server::Server;
use crate::towns::{COURIER, ROAD, Town};
use crate::worker::{Tried, Worker, rest, tick};
use fol_follow::BookSeat;
use fol_inbox::{Drained, Drainer};
use fol_live::{Close, Finish, LivePhase, Posting, Seat};
use fol_model::{Action, ChunkPos, Loaded};
use fol_view::OwnerWriter;
use std::alloc::{AllocError, Global};
use std::sync::Wait;

/// How often each region ticks in a day.
const TICKS: u32 = 4;

/// How many letters are posted at most between two looks for a tick, and at most in the last morning.
const FEW_LETTERS: u32 = 8;

const ALL_LETTERS: u32 = 65_536;

/// Memory was not found, or another thread stopped the world.
#[derive(Clone, Copy, Debug, PartialEq, Eq)]
pub struct GivesUp;

impl From<AllocError> for GivesUp {
    fn from(_error: AllocError) -> GivesUp {
        GivesUp
    }
}

/// The lead has a seat in the world and one at the book, posts what comes into the inbox, and publishes who owns what. While a day lasts, it
/// ticks with a worker of its own, so that the day ends even where no thread can be had.
pub struct Lead {
    pub caller: Seat,
    pub pages: BookSeat,
    pub worker: Worker,
    pub drainer: Drainer,
    pub writer: OwnerWriter,
}

/// Founds the towns, and leads through three days, on each of which the courier goes on to the next town.
pub fn first_days<R: Wait>(
    rt: &R,
    alloc: Global,
    server: &Server,
    lead: &mut Lead,
) -> Result<(), GivesUp>
    requires of { IsLeadOf server.now lead.old }
    requires free { IsFree lead.old.worker }
    ensures same { IsSameLead lead.old lead.new }
    ensures free { OnOk result (IsFree lead.new.worker) }
{
    load(rt, alloc, server, lead, Town::First.chunk())?;
    load(rt, alloc, server, lead, Town::Second.chunk())?;
    load(rt, alloc, server, lead, Town::Third.chunk())?;
    travel(rt, alloc, server, lead, Town::First)?;
    travel(rt, alloc, server, lead, Town::Second)?;
    travel(rt, alloc, server, lead, Town::Third)
}

/// The last day, when no more letters are sent: posts those that are left, builds the road, which makes one region of the first two towns,
/// and finishes the history in the evening. The workers then find it over.
#[tactic(auto, unfolding(fol_model::specs::Geometry::is_chunk))]
pub fn last_day<R: Wait>(
    rt: &R,
    alloc: Global,
    server: &Server,
    lead: &mut Lead,
) -> Result<(), GivesUp>
    requires of { IsLeadOf server.now lead.old }
    requires free { IsFree lead.old.worker }
    ensures same { IsSameLead lead.old lead.new }
{
    post_letters(rt, server, lead, ALL_LETTERS)?;
    load(rt, alloc, server, lead, ROAD)?;
    run_day(rt, alloc, server, lead)?;
    match server.live.finish(rt, &mut lead.caller) {
        Ok(Finish::Finished) => Ok(()),
        Ok(Finish::InPhase | Finish::Over) | Err(_) => Err(GivesUp),
    }
}

/// Loads a chunk, and publishes who then owns which section.
fn load<R: Wait>(
    rt: &R,
    alloc: Global,
    server: &Server,
    lead: &mut Lead,
    chunk: ChunkPos,
) -> Result<(), GivesUp>
    requires of { IsLeadOf server.now lead.old }
    requires in_range { IsTrue (is_chunk chunk) }
    ensures same { IsSameLead lead.old lead.new }
    ensures worker { lead.new.worker ≡ lead.old.worker }
{
    match server.live.load(rt, &mut lead.caller, chunk) {
        Ok(Loaded::Counted) => {}
        Ok(Loaded::Full { .. } | Loaded::Over) | Err(_) => return Err(GivesUp),
    }
    match lead.writer.refresh(rt, alloc, &server.live) {
        Ok(_front) => Ok(()),
        Err(_) => Err(GivesUp),
    }
}

/// A day on which the courier leaves this town.
///
/// It is sent on in the second tick of the town's region. The book is asked for its place in the second tick from now that has it: the
/// first is the next one here, and the second is where it comes, whichever region and worker that will be.
#[tactic(auto, unfolding(fol_model::specs::Limits::is_delay, fol_model::specs::Limits::is_action, fol_model::specs::Limits::may_post))]
fn travel<R: Wait>(
    rt: &R,
    alloc: Global,
    server: &Server,
    lead: &mut Lead,
    town: Town,
) -> Result<(), GivesUp>
    requires of { IsLeadOf server.now lead.old }
    requires free { IsFree lead.old.worker }
    ensures same { IsSameLead lead.old lead.new }
    ensures free { OnOk result (IsFree lead.new.worker) }
{
    let action = Action::Send {
        entity: COURIER,
        to: town.next().square(),
    };
    match server
        .live
        .post(rt, &mut lead.caller, town.chunk(), 2, action)
    {
        Ok(Posting::Posted(_)) => {}
        Ok(Posting::Full { .. } | Posting::Over(_)) | Err(_) => return Err(GivesUp),
    }
    if server.book.ask(rt, &mut lead.pages, COURIER, 2).is_err() {
        return Err(GivesUp);
    }
    run_day(rt, alloc, server, lead)
}

/// One day: opens it, ticks until each region has had all its ticks, and closes it.
fn run_day<R: Wait>(rt: &R, alloc: Global, server: &Server, lead: &mut Lead) -> Result<(), GivesUp>
    requires of { IsLeadOf server.now lead.old }
    requires free { IsFree lead.old.worker }
    ensures same { IsSameLead lead.old lead.new }
    ensures free { OnOk result (IsFree lead.new.worker) }
{
    match server.live.open_phase(rt, &mut lead.caller, TICKS) {
        Ok(LivePhase::Opened) => {}
        Ok(LivePhase::InPhase | LivePhase::TooMany(_) | LivePhase::Over) | Err(_) => {
            return Err(GivesUp);
        }
    }
    for _turn in rt.forever() {
        match tick(rt, alloc, server, &mut lead.worker) {
            Tried::Done => {}
            Tried::GaveUp => return Err(GivesUp),
            Tried::Idle => {
                if close_day(rt, server, lead)? {
                    return Ok(());
                }
                rest(rt);
            }
        }
    }
    unreachable!()
}

/// Posts some letters, and closes the day where no region ticks or owes a tick. Tells whether it is closed.
fn close_day<R: Wait>(rt: &R, server: &Server, lead: &mut Lead) -> Result<bool, GivesUp>
    requires of { IsLeadOf server.now lead.old }
    ensures same { IsSameLead lead.old lead.new }
    ensures worker { lead.new.worker ≡ lead.old.worker }
{
    post_letters(rt, server, lead, FEW_LETTERS)?;
    match server.live.close_phase(rt, &mut lead.caller) {
        Ok(Close::Closed) => Ok(true),
        Ok(Close::NotYet(_)) => Ok(false),
        Ok(Close::NoPhase | Close::Over) | Err(_) => Err(GivesUp),
    }
}

/// Posts at most so many letters of the inbox.
fn post_letters<R: Wait>(rt: &R, server: &Server, lead: &mut Lead, most: u32) -> Result<(), GivesUp>
    requires of { IsLeadOf server.now lead.old }
    requires most { (1 ≤ most) × (most ≤ 65536) }
    ensures same { IsSameLead lead.old lead.new }
    ensures worker { lead.new.worker ≡ lead.old.worker }
{
    match server
        .inbox
        .drain(rt, &mut lead.drainer, &server.live, most)
    {
        Ok(Drained::Moved(_) | Drained::Empty(_)) => Ok(()),
        Ok(Drained::Over(_)) | Err(_) => Err(GivesUp),
    }
}
