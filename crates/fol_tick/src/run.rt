//! A whole tick.

ghost use Rattle.std.specs.Prelude.{◌≡◌, ◌+◌, ◌-◌, ◌≤◌, ◌<◌, ◌⊎◌, List, [], ◌∷◌, drop, length, map, IsTrue, OnErr, OnOk, vec_len};
ghost use Rattle.std.specs.List.{sum_by};
ghost use Rattle.std.specs.Vec.{vec_capacity};
ghost use Rattle.fol_tick.specs.Calls.{HostCall};
ghost use Rattle.fol_tick.specs.MostAsked.{most_asked};
ghost use Rattle.fol_tick.specs.Prepared.{IsStockOf, prepared_of};
ghost use Rattle.fol_tick.specs.Runs.{MayRun, Runs, Finishes, StopsAtHost, next_task};
ghost use Rattle.fol_tick.specs.Logs.{with_log};

use crate::asked::most_asked;
use crate::host::Host;
use crate::log::{OpenLog, open};
use crate::prepared::{Prepared, Stock, prepare, prepared_for};
use crate::step::run_task;
use fol_data::Tick;
use std::alloc::{AllocError, Global};

/// Runs what is left of a tick: the rest of its due tasks in order of number, and then the movement of the entities.
///
/// Takes all memory that it needs itself before the first of these tasks. If memory runs out, either nothing but spare room has
/// changed, or it was the host that found none, for the task at `next`: the tasks before it have run, and another call goes on there.
pub fn run_tick<H: Host>(alloc: Global, tick: &mut Tick, host: &mut H) -> Result<(), AllocError>
    requires { MayRun tick.old }
    ensures ok { OnOk result ((calls : List HostCall) × H.reaches host.old calls host.new
        × Finishes tick.old tick.new calls) }
    ensures err { OnErr result ((calls : List HostCall) × H.reaches host.old calls host.new
        × Runs tick.old tick.new calls) }
    ensures stop { OnErr result ((tick.new.next ≡ tick.old.next) ⊎ StopsAtHost tick.new) }
    ensures again { OnErr result (MayRun tick.new) }
{
    run_due(alloc, tick, host)?;
    tick.chunks.settle_for(tick.body.chunks.walkers());
    tick.body.chunks.step_entities(&tick.chunks, 1);
    tick.moved = true;
    Ok(())
}

/// Runs the rest of the due tasks. Most ticks have none, and need no memory then.
fn run_due<H: Host>(alloc: Global, tick: &mut Tick, host: &mut H) -> Result<(), AllocError>
    requires { MayRun tick.old }
    ensures runs { (calls : List HostCall) × H.reaches host.old calls host.new
        × Runs tick.old tick.new calls }
    ensures may_run { MayRun tick.new }
    ensures ok { OnOk result (tick.new.next ≡ length tick.new.due) }
    ensures stop { OnErr result ((tick.new.next ≡ tick.old.next) ⊎ StopsAtHost tick.new) }
{
    if tick.next as usize == tick.due.as_slice().len() {
        return Ok(());
    }
    run_left(alloc, tick, host)
}

/// Takes the memory that the rest of the due tasks needs, and runs them. Mostly there is one, and then no list is made of what is taken.
#[inline(never)]
fn run_left<H: Host>(alloc: Global, tick: &mut Tick, host: &mut H) -> Result<(), AllocError>
    requires may_run { MayRun tick.old }
    requires some { tick.old.next < length tick.old.due }
    ensures runs { (calls : List HostCall) × H.reaches host.old calls host.new
        × Runs tick.old tick.new calls }
    ensures may_run { MayRun tick.new }
    ensures ok { OnOk result (tick.new.next ≡ length tick.new.due) }
    ensures stop { OnErr result ((tick.new.next ≡ tick.old.next) ⊎ StopsAtHost tick.new) }
{
    let left = &tick.due.as_slice()[tick.next as usize..];
    let count = left.len();
    let asked = most_asked(left);
    let first = prepared_for(&left[0])?;
    let mut stock = prepare(alloc, &left[1..])?;
    tick.body.chunks.reserve(count as u64)?;
    let mut log = open(alloc, &mut tick.log, count, asked)?;
    let answer = run_all(alloc, tick, first, &mut stock, &mut log, host);
    tick.log = log.close();
    answer
}

/// Runs the next task and those behind it, for which the stock was taken.
fn run_all<H: Host>(
    alloc: Global,
    tick: &mut Tick,
    first: Prepared,
    stock: &mut Stock,
    log: &mut OpenLog,
    host: &mut H,
) -> Result<(), AllocError>
    requires may_run { MayRun tick.old }
    requires first { first ∷ [] ≡ map prepared_of (next_task tick.old) }
    requires stock { IsStockOf (drop 1 (drop tick.old.next tick.old.due)) stock.old }
    requires spare { length tick.old.due - tick.old.next ≤ tick.old.body.chunks.spare }
    requires room_for_ran { vec_len log.old.ran + (length tick.old.due - tick.old.next)
        ≤ vec_capacity log.old.ran }
    requires room_for_wishes { vec_len log.old.wishes
        + sum_by most_asked (drop tick.old.next tick.old.due) ≤ vec_capacity log.old.wishes }
    ensures runs { (calls : List HostCall) × H.reaches host.old calls host.new
        × Runs (with_log tick.old log.old) (with_log tick.new log.new) calls }
    ensures may_run { MayRun tick.new }
    ensures ok { OnOk result (tick.new.next ≡ length tick.new.due) }
    ensures stop { OnErr result (StopsAtHost tick.new) }
{
    run_next(alloc, tick, first, log, host)?;
    run_tasks(alloc, tick, stock, log, host)
}

/// Runs the rest of the tasks, for which the stock was taken.
fn run_tasks<H: Host>(
    alloc: Global,
    tick: &mut Tick,
    stock: &mut Stock,
    log: &mut OpenLog,
    host: &mut H,
) -> Result<(), AllocError>
    requires may_run { MayRun tick.old }
    requires stock { IsStockOf (drop tick.old.next tick.old.due) stock.old }
    requires spare { length tick.old.due - tick.old.next ≤ tick.old.body.chunks.spare }
    requires room_for_ran { vec_len log.old.ran + (length tick.old.due - tick.old.next)
        ≤ vec_capacity log.old.ran }
    requires room_for_wishes { vec_len log.old.wishes
        + sum_by most_asked (drop tick.old.next tick.old.due) ≤ vec_capacity log.old.wishes }
    ensures runs { (calls : List HostCall) × H.reaches host.old calls host.new
        × Runs (with_log tick.old log.old) (with_log tick.new log.new) calls }
    ensures may_run { MayRun tick.new }
    ensures ok { OnOk result (tick.new.next ≡ length tick.new.due) }
    ensures stop { OnErr result (StopsAtHost tick.new) }
{
    while (tick.next as usize) < tick.due.as_slice().len() {
        run_from(alloc, tick, stock, log, host)?;
    }
    Ok(())
}

/// Runs the next task, for which and for those behind it the stock was taken. What was taken for that one goes from the stock.
#[inline(always)]
fn run_from<H: Host>(
    alloc: Global,
    tick: &mut Tick,
    stock: &mut Stock,
    log: &mut OpenLog,
    host: &mut H,
) -> Result<(), AllocError>
    requires may_run { MayRun tick.old }
    requires some { tick.old.next < length tick.old.due }
    requires stock { IsStockOf (drop tick.old.next tick.old.due) stock.old }
    requires spare { 1 ≤ tick.old.body.chunks.spare }
    requires room_for_ran { vec_len log.old.ran < vec_capacity log.old.ran }
    requires room_for_wishes { vec_len log.old.wishes + sum_by most_asked (next_task tick.old)
        ≤ vec_capacity log.old.wishes }
    ensures runs { (calls : List HostCall) × H.reaches host.old calls host.new
        × Runs (with_log tick.old log.old) (with_log tick.new log.new) calls }
    ensures may_run { MayRun tick.new }
    ensures ok { OnOk result (tick.new.next ≡ tick.old.next + 1) }
    ensures stock { IsStockOf (drop (tick.old.next + 1) tick.old.due) stock.new }
    ensures stop { OnErr result (StopsAtHost tick.new) }
    ensures spare { tick.old.body.chunks.spare ≤ tick.new.body.chunks.spare + 1 }
    ensures ran_len { vec_len log.new.ran ≤ vec_len log.old.ran + 1 }
    ensures ran_capacity { vec_capacity log.new.ran ≡ vec_capacity log.old.ran }
    ensures wishes_len { vec_len log.new.wishes
        ≤ vec_len log.old.wishes + sum_by most_asked (next_task tick.old) }
    ensures wishes_capacity { vec_capacity log.new.wishes ≡ vec_capacity log.old.wishes }
{
    let prepared = stock.take(&tick.due.as_slice()[tick.next as usize]);
    run_next(alloc, tick, prepared, log, host)
}

/// Runs the next task, whose wishes are prepared.
#[inline(always)]
fn run_next<H: Host>(
    alloc: Global,
    tick: &mut Tick,
    prepared: Prepared,
    log: &mut OpenLog,
    host: &mut H,
) -> Result<(), AllocError>
    requires may_run { MayRun tick.old }
    requires prepared { prepared ∷ [] ≡ map prepared_of (next_task tick.old) }
    requires spare { 1 ≤ tick.old.body.chunks.spare }
    requires room_for_ran { vec_len log.old.ran < vec_capacity log.old.ran }
    requires room_for_wishes { vec_len log.old.wishes + sum_by most_asked (next_task tick.old)
        ≤ vec_capacity log.old.wishes }
    ensures runs { (calls : List HostCall) × H.reaches host.old calls host.new
        × Runs (with_log tick.old log.old) (with_log tick.new log.new) calls }
    ensures may_run { MayRun tick.new }
    ensures ok { OnOk result (tick.new.next ≡ tick.old.next + 1) }
    ensures stop { OnErr result (StopsAtHost tick.new) }
    ensures spare { tick.old.body.chunks.spare ≤ tick.new.body.chunks.spare + 1 }
    ensures ran_len { vec_len log.new.ran ≤ vec_len log.old.ran + 1 }
    ensures ran_capacity { vec_capacity log.new.ran ≡ vec_capacity log.old.ran }
    ensures wishes_len { vec_len log.new.wishes
        ≤ vec_len log.old.wishes + sum_by most_asked (next_task tick.old) }
    ensures wishes_capacity { vec_capacity log.new.wishes ≡ vec_capacity log.old.wishes }
{
    let task = &tick.due.as_slice()[tick.next as usize];
    run_task(
        alloc,
        &tick.chunks,
        &mut tick.body.chunks,
        task,
        prepared,
        log,
        host,
    )?;
    tick.next += 1;
    Ok(())
}
