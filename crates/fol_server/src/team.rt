//! Which thread does what.
//!
//! `join_mut` calls its first closure on a new thread and its second one on this thread, and returns when both have returned. Where no thread
//! can be had, it calls the first one last; so the second one of each pair here never waits for the first.

ghost use Rattle.std.specs.Prelude.{◌≡◌, OnOk};
ghost use Rattle.fol_inbox.specs.Ids.{inbox_id};
ghost use Rattle.fol_server.specs.Crew.{AreFree, IsCrewOf, IsFree, IsLeadOf, IsSameCrew, IsSameLead, IsSameReader, IsSameSender, IsSameWorker, IsWorkerOf};

use crate::builder::build;
use crate::lead::{GivesUp, Lead, first_days, last_day};
use crate::server::Server;
use crate::watcher::{Watched, watch};
use crate::worker::{Worker, work};
use fol_inbox::Sender;
use fol_view::OwnerReader;
use std::alloc::Global;
use std::sync::Wait;
use std::thread::{Threads, join_mut};

/// Everyone, each with what is theirs.
pub struct Crew {
    pub lead: Lead,
    pub second: Worker,
    pub third: Worker,
    pub sender: Sender,
    pub reader: OwnerReader,
}

/// What they came to.
#[derive(Clone, Copy)]
pub struct Outcome {
    /// How many letters were sent, where the history was finished.
    pub sent: Result<u32, GivesUp>,
    pub watched: Watched,
}

/// All of them at once, until the history is over and all threads are back.
pub fn run<R: Threads + Wait + Sync>(
    rt: &R,
    alloc: Global,
    server: &Server,
    crew: &mut Crew,
) -> Outcome
    requires of { IsCrewOf server.now crew.old }
    requires free { AreFree crew.old }
    ensures same { IsSameCrew crew.old crew.new }
{
    let Crew {
        lead,
        second,
        third,
        sender,
        reader,
    } = crew;
    let mut watch = || -> Watched
        ensures { IsSameReader reader.entry.now reader.exit.now }
    { watch(rt, reader) };
    let mut play = || -> Result<u32, GivesUp>
        requires { IsWorkerOf server.now second.now × IsWorkerOf server.now third.now
            × IsLeadOf server.now lead.now × (sender.now.inbox ≡ inbox_id server.now.inbox)
            × IsFree second.now × IsFree third.now × IsFree lead.now.worker }
        ensures second { IsSameWorker second.entry.now second.exit.now }
        ensures third { IsSameWorker third.entry.now third.exit.now }
        ensures lead { IsSameLead lead.entry.now lead.exit.now }
        ensures sender { IsSameSender sender.entry.now sender.exit.now }
    { play(rt, alloc, server, second, third, lead, sender) };
    let (watched, sent) = join_mut(rt, &mut watch, &mut play);
    Outcome { sent, watched }
}

/// Two workers tick, while the lead goes through the days.
fn play<R: Threads + Wait + Sync>(
    rt: &R,
    alloc: Global,
    server: &Server,
    second: &mut Worker,
    third: &mut Worker,
    lead: &mut Lead,
    sender: &mut Sender,
) -> Result<u32, GivesUp>
    requires second { IsWorkerOf server.now second.old }
    requires third { IsWorkerOf server.now third.old }
    requires lead { IsLeadOf server.now lead.old }
    requires sender { sender.old.inbox ≡ inbox_id server.now.inbox }
    requires free { IsFree second.old × IsFree third.old × IsFree lead.old.worker }
    ensures second { IsSameWorker second.old second.new }
    ensures third { IsSameWorker third.old third.new }
    ensures lead { IsSameLead lead.old lead.new }
    ensures sender { IsSameSender sender.old sender.new }
{
    let mut work = ||
        requires { IsWorkerOf server.now second.now × IsWorkerOf server.now third.now
            × IsFree second.now × IsFree third.now }
        ensures second { IsSameWorker second.entry.now second.exit.now }
        ensures third { IsSameWorker third.entry.now third.exit.now }
    { work_both(rt, alloc, server, second, third) };
    let mut go = || -> Result<u32, GivesUp>
        requires { IsLeadOf server.now lead.now × (sender.now.inbox ≡ inbox_id server.now.inbox)
            × IsFree lead.now.worker }
        ensures lead { IsSameLead lead.entry.now lead.exit.now }
        ensures sender { IsSameSender sender.entry.now sender.exit.now }
    { lead_and_build(rt, alloc, server, lead, sender) };
    join_mut(rt, &mut work, &mut go).1
}

/// Both workers tick.
fn work_both<R: Threads + Wait + Sync>(
    rt: &R,
    alloc: Global,
    server: &Server,
    second: &mut Worker,
    third: &mut Worker,
)
    requires second { IsWorkerOf server.now second.old }
    requires third { IsWorkerOf server.now third.old }
    requires free { IsFree second.old × IsFree third.old }
    ensures second { IsSameWorker second.old second.new }
    ensures third { IsSameWorker third.old third.new }
{
    let mut one = ||
        requires { IsWorkerOf server.now second.now × IsFree second.now }
        ensures { IsSameWorker second.entry.now second.exit.now }
    { work(rt, alloc, server, second) };
    let mut other = ||
        requires { IsWorkerOf server.now third.now × IsFree third.now }
        ensures { IsSameWorker third.entry.now third.exit.now }
    { work(rt, alloc, server, third) };
    join_mut(rt, &mut one, &mut other);
}

/// The first days, with the builder at work, and then the last one. Where a day fails, the world is stopped, so that the workers end. Tells how
/// many letters were sent.
fn lead_and_build<R: Threads + Wait + Sync>(
    rt: &R,
    alloc: Global,
    server: &Server,
    lead: &mut Lead,
    sender: &mut Sender,
) -> Result<u32, GivesUp>
    requires lead { IsLeadOf server.now lead.old }
    requires sender { sender.old.inbox ≡ inbox_id server.now.inbox }
    requires free { IsFree lead.old.worker }
    ensures lead { IsSameLead lead.old lead.new }
    ensures sender { IsSameSender sender.old sender.new }
{
    let (sent, days) = build_beside(rt, alloc, server, lead, sender);
    let ended = match days {
        Ok(()) => last_day(rt, alloc, server, lead),
        Err(GivesUp) => Err(GivesUp),
    };
    match ended {
        Ok(()) => Ok(sent),
        Err(GivesUp) => {
            server.live.stop(rt, &mut lead.caller);
            Err(GivesUp)
        }
    }
}

/// The builder sends letters while the lead goes through the first days.
fn build_beside<R: Threads + Wait + Sync>(
    rt: &R,
    alloc: Global,
    server: &Server,
    lead: &mut Lead,
    sender: &mut Sender,
) -> (u32, Result<(), GivesUp>)
    requires lead { IsLeadOf server.now lead.old }
    requires sender { sender.old.inbox ≡ inbox_id server.now.inbox }
    requires free { IsFree lead.old.worker }
    ensures lead { IsSameLead lead.old lead.new }
    ensures free { OnOk result.1 (IsFree lead.new.worker) }
    ensures sender { IsSameSender sender.old sender.new }
{
    let mut build = || -> u32
        requires { sender.now.inbox ≡ inbox_id server.now.inbox }
        ensures { IsSameSender sender.entry.now sender.exit.now }
    { build(rt, server, sender) };
    let mut days = || -> Result<(), GivesUp>
        requires { IsLeadOf server.now lead.now × IsFree lead.now.worker }
        ensures lead { IsSameLead lead.entry.now lead.exit.now }
        ensures free { OnOk result (IsFree lead.exit.now.worker) }
    { first_days(rt, alloc, server, lead) };
    join_mut(rt, &mut build, &mut days)
}
