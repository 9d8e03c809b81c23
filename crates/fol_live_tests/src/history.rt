//! What a history holds.

use crate::compare::same;
use fol_model::{ChunkPos, Closing, EventRef, Loaded, PackedEntry};
use std::process::Abort;

/// The history has so many entries.
pub fn has_entries(rt: &impl Abort, closing: &Closing, entries: usize) {
    same(rt, &closing.history.as_slice().len(), &entries);
}

/// Behind the first three entries the caller recorded the Begins of workers 1 and 2, in either order, and then the load by which it learnt of
/// them.
pub fn has_learnt(rt: &impl Abort, closing: &Closing) {
    match closing.history.as_slice() {
        [_, _, _, one, other, load, ..] => {
            same(
                rt,
                &(are_begins(one, other) || are_begins(other, one)),
                &true,
            );
            same(rt, &is_load(load), &true);
        }
        _ => panic!(rt; "six entries or more"),
    }
}

/// Whether these are the Begins of workers 1 and 2.
fn are_begins(one: &PackedEntry, other: &PackedEntry) -> bool {
    is_begin(one, 1) && is_begin(other, 2)
}

/// Whether this is the Begin of a worker, recorded by the caller.
fn is_begin(entry: &PackedEntry, of: u32) -> bool {
    match entry.event() {
        EventRef::Begin { worker, .. } => worker == of && entry.by() == 0,
        _ => false,
    }
}

/// Whether this is the caller's load of chunk (3, 0).
fn is_load(entry: &PackedEntry) -> bool {
    match entry.event() {
        EventRef::Load {
            caller,
            chunk,
            answer,
        } => caller == 0 && chunk == ChunkPos { x: 3, z: 0 } && answer == Loaded::Counted,
        _ => false,
    }
}
