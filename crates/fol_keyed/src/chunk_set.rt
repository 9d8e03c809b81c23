//! A set of chunks, to which chunks come, and which they leave.

ghost use Rattle.std.specs.Prelude.{◌≡◌, ◌+◌, ◌≤◌, ◌<◌, ◌||◌, ◌&&◌, ◌++◌, [], not, true, false, length, filter, slice_index_or, IsTrue, MatchResult, IfOk, IfSome, OnOk, OnErr};
ghost use Rattle.std.specs.Vec.{vec_capacity};
ghost use Rattle.std.specs.List.{AllWithin, insert, remove as without};
ghost use Rattle.std.specs.List.Sorted.{IsStrictlySortedBy, IsPartitionPoint};
ghost use Rattle.std.specs.Ordering.{is_lt};
ghost use Rattle.std.specs.declared.cmp.Ordering.TheVariants.{Less, Greater};
ghost use Rattle.fol_model.specs.declared.places.ChunkPos.{ChunkPos};
ghost use Rattle.fol_model.specs.Geometry.{same_chunk};
ghost use Rattle.fol_keyed.specs.Members.{is_listed};
ghost use Rattle.fol_keyed.specs.Order.{chunk_cmp};
ghost use Rattle.fol_keyed.specs.ChunkSets.{IsPending, changed, is_pending, unless_there};

use crate::{ChunkList, compare_chunks};
use fol_model::ChunkPos;
use std::alloc::{AllocError, Global};
use std::marker::Model;
use std::mem;

/// From how many chunks on a change waits, and does not move those behind it at once.
const LONG: usize = 256;

/// How many changes may always wait.
const FEW: usize = 64;

/// Chunks by z and then by x. Contracts see them as a list. The changes of a long list wait until they are many, and then go into it together: so a
/// chunk that comes or leaves costs a search and a place among these changes, and not the whole list.
#[derive(Drop)]
pub struct ChunkSet {
    /// The chunks as they were before the changes that wait.
    list: Vec<ChunkPos>,
    /// The changes that wait, in order: a chunk of the list leaves it, and any other comes to it.
    changes: Vec<ChunkPos>,
    /// Room for the list with the changes.
    room: Vec<ChunkPos>,
}

impl Model for ChunkSet {
    ghost use Rattle.std.specs.Prelude.{List};
    ghost use Rattle.std.specs.Vec.{vec_capacity};
    ghost use Rattle.fol_model.specs.declared.places.ChunkPos.{ChunkPos};
    ghost use Rattle.fol_keyed.specs.ChunkSets.{IsPending, changed};

    ghost Value = { List ChunkPos };

    ghost view = { λ m. changed m.list.items m.changes.items };

    ghost invariant = { λ m. IsPending m.list.items m.changes.items (vec_capacity m.room) };
}

impl ChunkSet {
    /// No chunk. Takes no memory.
    pub fn new(alloc: Global) -> ChunkSet
        ensures { result ≡ [] }
    {
        ChunkSet {
            list: Vec::new(alloc),
            changes: Vec::new(alloc),
            room: Vec::new(alloc),
        }
    }

    /// Whether it has no chunk; false too where changes wait.
    pub fn is_empty(&self) -> bool
        ensures { IsTrue result → self.now ≡ [] }
    {
        self.list.is_empty() && self.changes.is_empty()
    }

    /// These chunks. Takes no memory.
    pub fn of(alloc: Global, chunks: Vec<ChunkPos>) -> ChunkSet
        ensures { result ≡ chunks.items }
    {
        ChunkSet {
            list: chunks,
            changes: Vec::new(alloc),
            room: Vec::new(alloc),
        }
    }

    /// Whether the chunk is one of them.
    pub fn has(&self, c: ChunkPos) -> bool
        requires { IsStrictlySortedBy chunk_cmp self.now }
        ensures { result ≡ is_listed self.now c }
    {
        let stood = ChunkList::of(&self.list).has(c);
        if self.changes.is_empty() {
            return stood;
        }
        stood != ChunkList::of(&self.changes).has(c)
    }

    /// The chunks as one list; `None` where changes of it wait.
    pub fn as_slice(&self) -> Option<&[ChunkPos]>
        ensures { IfSome result (λ chunks. chunks.now ≡ self.now) }
    {
        if self.changes.is_empty() {
            Some(self.list.as_slice())
        } else {
            None
        }
    }

    /// The chunks as a list. Takes no memory.
    pub fn into_vec(self) -> Vec<ChunkPos>
        ensures { result.items ≡ self }
    {
        let ChunkSet {
            mut list,
            mut changes,
            mut room,
        } = self;
        settle(&mut list, &mut changes, &mut room);
        list
    }

    /// Makes the changes that wait. Takes no memory.
    pub fn settle(&mut self)
        ensures same { self.new ≡ self.old }
    {
        settle(&mut self.list, &mut self.changes, &mut self.room);
    }

    /// Makes the changes that wait, where they are many beside the chunks. Takes no memory.
    pub fn settle_many(&mut self)
        ensures same { self.new ≡ self.old }
    {
        let waiting = self.changes.len();
        if waiting >= FEW && waiting.saturating_mul(waiting) >= self.list.len() {
            self.settle();
        }
    }

    /// Makes the changes that wait, where so many look-ups are to come that this pays: a quarter as many as it has chunks. Takes no memory.
    pub fn settle_for(&mut self, look_ups: usize)
        ensures same { self.new ≡ self.old }
    {
        if look_ups >= self.list.len() / 4 {
            self.settle();
        }
    }

    /// Puts other chunks in place of those that it has. Takes no memory.
    pub fn put(&mut self, chunks: Vec<ChunkPos>)
        ensures { self.new ≡ chunks.items }
    {
        self.changes.clear();
        self.list = chunks;
    }

    /// The chunks, in memory of their own.
    pub fn copy(&self, alloc: Global) -> Result<Vec<ChunkPos>, AllocError>
        ensures { IfOk result (λ chunks. chunks.items ≡ self.now) }
    {
        let mut chunks = Vec::with_capacity(alloc, self.list.len() + self.changes.len())?;
        put_changed(&self.list, &self.changes, &mut chunks);
        Ok(chunks)
    }

    /// A chunk comes, if it is not there. If memory runs out, all stays.
    pub fn widen(&mut self, c: ChunkPos) -> Result<(), AllocError>
        requires { IsStrictlySortedBy chunk_cmp self.old }
        ensures order { OnOk result (IsStrictlySortedBy chunk_cmp self.new) }
        ensures has { OnOk result ((q : ChunkPos)
            → is_listed self.new q ≡ (is_listed self.old q || same_chunk c q)) }
        ensures err { OnErr result (self.new ≡ self.old) }
    {
        match place_of(&self.list, c) {
            Ok(_) => {
                take_back(&mut self.changes, c);
                Ok(())
            }
            Err(i) => match place_of(&self.changes, c) {
                Ok(_) => Ok(()),
                Err(j) => come(&mut self.list, &mut self.changes, &mut self.room, i, j, c),
            },
        }
    }

    /// A chunk leaves, if it is there.
    pub fn narrow(&mut self, c: ChunkPos)
        requires { IsStrictlySortedBy chunk_cmp self.old }
        ensures order { IsStrictlySortedBy chunk_cmp self.new }
        ensures has { (q : ChunkPos) → is_listed self.new q
            ≡ (is_listed self.old q && not (same_chunk c q)) }
    {
        match place_of(&self.list, c) {
            Err(_) => take_back(&mut self.changes, c),
            Ok(i) => match place_of(&self.changes, c) {
                Ok(_) => {}
                Err(j) => leave(&mut self.list, &mut self.changes, &mut self.room, i, j, c),
            },
        }
    }
}

/// Where the chunk stands in the list, or where it would stand.
fn place_of(chunks: &[ChunkPos], c: ChunkPos) -> Result<usize, usize>
    requires { IsStrictlySortedBy chunk_cmp chunks.now }
    ensures { MatchResult result (λ i. (i < length chunks.now)
        × ((d : ChunkPos) → slice_index_or chunks.now i d ≡ c)) (λ i. (i ≤ length chunks.now)
        × IsPartitionPoint (λ q. chunk_cmp q c ≡ Less) (λ q. chunk_cmp q c ≡ Greater) chunks.now
        i) }
{
    if is_behind(chunks, c) {
        return Err(chunks.len());
    }
    chunks.binary_search_by(|chunk| compare_chunks(*chunk, c))
}

/// Whether a chunk comes behind all those of a list, as mostly where chunks are loaded row by row.
fn is_behind(chunks: &[ChunkPos], c: ChunkPos) -> bool
    requires { IsStrictlySortedBy chunk_cmp chunks.now }
    ensures { IsTrue result
        → AllWithin (λ q. chunk_cmp q c ≡ Less) chunks.now 0 (length chunks.now) }
{
    chunks.is_empty() || compare_chunks(chunks[chunks.len() - 1], c).is_lt()
}

/// Takes a change back, if it waits.
fn take_back(changes: &mut Vec<ChunkPos>, c: ChunkPos)
    requires { IsStrictlySortedBy chunk_cmp changes.old.items }
    ensures order { IsStrictlySortedBy chunk_cmp changes.new.items }
    ensures has { (q : ChunkPos) → is_listed changes.new.items q
        ≡ (is_listed changes.old.items q && not (same_chunk c q)) }
    ensures len { length changes.new.items ≤ length changes.old.items }
{
    match place_of(changes, c) {
        Ok(j) => {
            changes.remove(j);
        }
        Err(_) => {}
    }
}

/// A chunk comes to a list that has it not, at a place of it, or waits at a place of the changes. If memory runs out, all stays.
fn come(
    list: &mut Vec<ChunkPos>,
    changes: &mut Vec<ChunkPos>,
    room: &mut Vec<ChunkPos>,
    i: usize,
    j: usize,
    c: ChunkPos,
) -> Result<(), AllocError>
    requires pending { IsPending list.old.items changes.old.items (vec_capacity room.old) }
    requires place { i ≤ length list.old.items }
    requires at { IsPartitionPoint (λ q. chunk_cmp q c ≡ Less) (λ q. chunk_cmp q c ≡ Greater)
        list.old.items i }
    requires order { IsStrictlySortedBy chunk_cmp list.old.items }
    requires changes_place { j ≤ length changes.old.items }
    requires changes_at { IsPartitionPoint (λ q. chunk_cmp q c ≡ Less)
        (λ q. chunk_cmp q c ≡ Greater) changes.old.items j }
    ensures pending { IsPending list.new.items changes.new.items (vec_capacity room.new) }
    ensures order { IsStrictlySortedBy chunk_cmp list.new.items }
    ensures has { OnOk result ((q : ChunkPos) → is_pending list.new.items changes.new.items q
        ≡ (is_pending list.old.items changes.old.items q || same_chunk c q)) }
    ensures err { OnErr result ((list.new.items ≡ list.old.items)
        × (changes.new.items ≡ changes.old.items)) }
{
    if list.len() < LONG && changes.is_empty() {
        insert(list, i, c)
    } else {
        defer(list, changes, room, j, c)
    }
}

/// A chunk leaves a list that has it at a place, or waits to leave it at a place of the changes.
fn leave(
    list: &mut Vec<ChunkPos>,
    changes: &mut Vec<ChunkPos>,
    room: &mut Vec<ChunkPos>,
    i: usize,
    j: usize,
    c: ChunkPos,
)
    requires pending { IsPending list.old.items changes.old.items (vec_capacity room.old) }
    requires place { i < length list.old.items }
    requires at { (d : ChunkPos) → slice_index_or list.old.items i d ≡ c }
    requires order { IsStrictlySortedBy chunk_cmp list.old.items }
    requires changes_place { j ≤ length changes.old.items }
    requires changes_at { IsPartitionPoint (λ q. chunk_cmp q c ≡ Less)
        (λ q. chunk_cmp q c ≡ Greater) changes.old.items j }
    ensures pending { IsPending list.new.items changes.new.items (vec_capacity room.new) }
    ensures order { IsStrictlySortedBy chunk_cmp list.new.items }
    ensures has { (q : ChunkPos) → is_pending list.new.items changes.new.items q
        ≡ (is_pending list.old.items changes.old.items q && not (same_chunk c q)) }
{
    if list.len() < LONG {
        list.remove(i);
        return;
    }
    match defer(list, changes, room, j, c) {
        Ok(()) => {}
        Err(_) => {
            list.remove(i);
        }
    }
}

/// Puts a chunk at a place of the changes of a list, with room for both. If memory runs out, they stay.
fn defer(
    list: &[ChunkPos],
    changes: &mut Vec<ChunkPos>,
    room: &mut Vec<ChunkPos>,
    j: usize,
    c: ChunkPos,
) -> Result<(), AllocError>
    requires { j ≤ length changes.old.items }
    ensures ok { OnOk result (changes.new.items ≡ insert changes.old.items j c) }
    ensures err { OnErr result (changes.new.items ≡ changes.old.items) }
    ensures room { OnOk result (length list.now + length changes.new.items ≤ vec_capacity room.new) }
    ensures capacity { vec_capacity room.old ≤ vec_capacity room.new }
{
    room.clear();
    room.reserve(list.len() + changes.len() + 1)?;
    insert(changes, j, c)
}

/// Puts a chunk at a place of the list. If memory runs out, the list stays.
fn insert(chunks: &mut Vec<ChunkPos>, i: usize, c: ChunkPos) -> Result<(), AllocError>
    requires { i ≤ length chunks.old.items }
    ensures ok { OnOk result (chunks.new.items ≡ insert chunks.old.items i c) }
    ensures err { OnErr result (chunks.new.items ≡ chunks.old.items) }
{
    match chunks.insert(i, c) {
        Ok(()) => Ok(()),
        Err(_) => Err(AllocError),
    }
}

/// Makes the changes of a list, where there are some. Takes no memory.
fn settle(list: &mut Vec<ChunkPos>, changes: &mut Vec<ChunkPos>, room: &mut Vec<ChunkPos>)
    requires { IsPending list.old.items changes.old.items (vec_capacity room.old) }
    ensures list { list.new.items ≡ changed list.old.items changes.old.items }
    ensures changes { changes.new.items ≡ [] }
{
    if changes.is_empty() {
        return;
    }
    room.clear();
    put_changed(list, changes, room);
    mem::swap(list, room);
    changes.clear();
}

/// Adds a list with its changes to another one that has room for it.
fn put_changed(list: &[ChunkPos], changes: &[ChunkPos], out: &mut Vec<ChunkPos>)
    requires order { 0 < length changes.now → IsStrictlySortedBy chunk_cmp list.now }
    requires room { length out.old.items + (length list.now + length changes.now)
        ≤ vec_capacity out.old }
    ensures { out.new.items ≡ out.old.items ++ changed list.now changes.now }
{
    let mut rest = list;
    for c in changes {
        rest = put_change(rest, *c, out);
    }
    let _ = out.extend_from_slice(rest);
}

/// Adds the chunks before one, and this one where it is not among them; gives those behind it.
fn put_change<'a>(list: &'a [ChunkPos], c: ChunkPos, out: &mut Vec<ChunkPos>) -> &'a [ChunkPos]
    requires order { IsStrictlySortedBy chunk_cmp list.now }
    requires room { length out.old.items + (length list.now + 1) ≤ vec_capacity out.old }
    ensures rest { result.now ≡ filter (λ q. is_lt (chunk_cmp c q)) list.now }
    ensures out { out.new.items ≡ out.old.items
        ++ (filter (λ q. is_lt (chunk_cmp q c)) list.now ++ unless_there list.now c) }
    ensures len { length out.new.items + length result.now
        ≤ length out.old.items + (length list.now + 1) }
    ensures capacity { vec_capacity out.old ≤ vec_capacity out.new }
{
    match place_of(list, c) {
        Ok(i) => {
            let _ = out.extend_from_slice(&list[..i]);
            &list[i + 1..]
        }
        Err(i) => {
            let _ = out.extend_from_slice(&list[..i]);
            out.push_reserved(c);
            &list[i..]
        }
    }
}
