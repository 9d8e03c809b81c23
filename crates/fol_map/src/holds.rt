//! Which chunks are loaded.

ghost use Rattle.std.specs.Prelude.{◌≡◌, ◌+◌, ◌-◌, ◌<◌, ◌^◌, is_some, IfOk, OnOk};
ghost use Rattle.std.specs.List.{list_any};
ghost use Rattle.std.specs.List.Sorted.{IsStrictlySortedBy};
ghost use Rattle.std.specs.Ordering.{eq_by_cmp};
ghost use Rattle.std.specs.BTreeMap.{get, keys};
ghost use Rattle.fol_model.specs.declared.places.ChunkPos.{ChunkPos};
ghost use Rattle.fol_map.specs.Holds.{holds, one_at, ticketed, tickets};
ghost use Rattle.fol_map.specs.Layouts.{AreHeld};
ghost use Rattle.fol_map.specs.Counts.{AreCounted, by_place, count_in};
ghost use Rattle.fol_model.specs.Packed.{event_seen};

use fol_model::{ChunkPos, EventRef, Loaded, PackedEntry, TaskRow, Unloaded};
use std::alloc::{AllocError, Global};
use std::collections::BTreeMap;

/// How often each chunk is held; one that is not has no count.
type Counts = BTreeMap<ChunkPos, u128>;

/// How often a chunk is held.
fn count(counts: &Counts, chunk: ChunkPos) -> u128
    ensures { result ≡ count_in counts.now chunk }
{
    match counts.get(&chunk) {
        Some(count) => *count,
        None => 0,
    }
}

/// One hold more.
fn raise(counts: &mut Counts, chunk: ChunkPos) -> Result<(), AllocError>
    requires room { count_in counts.old chunk < 2 ^ 100 }
    requires counted { AreCounted counts.old }
    ensures counted { OnOk result (AreCounted counts.new) }
    ensures raised { OnOk result ((c : ChunkPos)
        → count_in counts.new c ≡ count_in counts.old c + one_at chunk c) }
{
    let count = count(counts, chunk);
    counts.insert(chunk, count + 1)?;
    Ok(())
}

/// One hold less, where there is one.
fn lower(counts: &mut Counts, chunk: ChunkPos) -> Result<(), AllocError>
    requires counted { AreCounted counts.old }
    ensures counted { OnOk result (AreCounted counts.new) }
    ensures lowered { OnOk result ((c : ChunkPos)
        → count_in counts.new c ≡ count_in counts.old c - one_at chunk c) }
{
    let count = count(counts, chunk);
    if count > 1 {
        counts.insert(chunk, count - 1)?;
    } else {
        let _last = counts.remove(&chunk);
    }
    Ok(())
}

/// What an event does to the tickets.
fn count_event(counts: &mut Counts, event: EventRef) -> Result<(), AllocError>
    requires room { (c : ChunkPos) → count_in counts.old c < 2 ^ 100 }
    requires counted { AreCounted counts.old }
    ensures counted { OnOk result (AreCounted counts.new) }
    ensures tickets { OnOk result ((c : ChunkPos)
        → count_in counts.new c ≡ ticketed (count_in counts.old) (event_seen event.entry) c) }
{
    match event {
        EventRef::Load {
            chunk,
            answer: Loaded::Counted,
            ..
        } => raise(counts, chunk),
        EventRef::Unload {
            chunk,
            answer: Unloaded::Lowered,
            ..
        } => lower(counts, chunk),
        _ => Ok(()),
    }
}

/// The tickets of each chunk after a history.
fn count_tickets(alloc: Global, history: &[PackedEntry]) -> Result<Counts, AllocError>
    ensures counted { IfOk result AreCounted }
    ensures tickets { IfOk result (λ m. (c : ChunkPos) → count_in m c ≡ tickets history.now c) }
    ensures small { IfOk result (λ m. (c : ChunkPos) → count_in m c < 2 ^ 64) }
{
    let mut counts = BTreeMap::new(alloc);
    for entry in history {
        count_event(&mut counts, entry.event())?;
    }
    Ok(counts)
}

/// The holds of each chunk after a history with these tasks queued.
fn count_holds(
    alloc: Global,
    history: &[PackedEntry],
    tasks: &[TaskRow],
) -> Result<Counts, AllocError>
    ensures counted { IfOk result AreCounted }
    ensures holds { IfOk result (λ m. (c : ChunkPos)
        → count_in m c ≡ holds history.now tasks.now c) }
{
    let mut counts = count_tickets(alloc, history)?;
    for row in tasks {
        raise(&mut counts, row.task.chunk)?;
    }
    Ok(counts)
}

/// The chunks of a map, in order.
fn in_order(alloc: Global, counts: &Counts) -> Result<Vec<ChunkPos>, AllocError>
    ensures keys { IfOk result (λ xs. xs.items ≡ keys counts.now) }
    ensures ordered { IsStrictlySortedBy by_place (keys counts.now) }
    ensures has { (q : ChunkPos) → is_some (get by_place counts.now q)
        ≡ list_any (eq_by_cmp by_place q) (keys counts.now) }
{
    counts.keys().copied().collect(alloc)
}

/// The chunks that are loaded after a history with these tasks queued, by z, and then by x.
pub fn loaded_chunks(
    alloc: Global,
    history: &[PackedEntry],
    tasks: &[TaskRow],
) -> Result<Vec<ChunkPos>, AllocError>
    ensures { IfOk result (λ chunks. AreHeld (holds history.now tasks.now) chunks.items) }
{
    let counts = count_holds(alloc, history, tasks)?;
    in_order(alloc, &counts)
}
