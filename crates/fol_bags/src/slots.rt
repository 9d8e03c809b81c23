//! What is done to a bag, or to two.

ghost use Rattle.std.specs.Prelude.{◌≡◌, ◌≢◌, All, IsTrue, IfOk, OnOk, OnErr, None, ◌+◌, ◌-◌, ◌<◌, ◌^◌, ◌≤◌, ◌&&◌, ◌||◌, not, ℕ, nat_eq, if◌then◌else◌, true, false, [], ◌∷◌, ◌++◌, length};
ghost use Rattle.std.specs.Fn.{iterate};
ghost use Rattle.std.specs.Option.{is_none, ForSome};
ghost use Rattle.fol_bags.specs.Slots.{no_slot, slot_in, stays_calm, is_open, SetsSlot, SetsTwo};
ghost use Rattle.fol_bags.specs.Things.{Key, no_data, things, of_task, IsTimely};
ghost use Rattle.fol_data.specs.Rests.{IsInTime, rests_of};
ghost use Rattle.fol_bags.specs.Clear.{HasNoTask};
ghost use Rattle.fol_bags.specs.Places.{is_bag};
ghost use Rattle.fol_bags.specs.Unions.{IsPartOfUnion, IsUnion};
ghost use Rattle.fol_bags.specs.Moves.{SameThings, AreApart, Loses, Gains, Queues};
ghost use Rattle.std.specs.List.Sorted.{IsStrictlySortedBy};
ghost use Rattle.fol_chunks.specs.Order.{chunk_cmp};
ghost use Rattle.fol_chunks.specs.Contents.{flat_of, is_recorded, size_within};
ghost use Rattle.fol_model.specs.declared.places.ChunkPos.{ChunkPos};
ghost use Rattle.fol_model.specs.FlatTick.{moved};
ghost use Rattle.fol_model.specs.Geometry.{is_chunk, same_chunk};

use crate::bags::Bags;
use crate::kept::Kept;
use crate::places::Place;
use crate::shift::{shift, shift_contents};
use crate::slot::{Slot, new_data};
use crate::{Taken, waiting};
use fol_chunks::Chunks;
use fol_data::RegionData;
use fol_keyed::ChunkSet;
use fol_model::{ChunkPos, Sequence};
use fol_queues::Dated;
use std::alloc::{AllocError, Global};
use std::mem;

/// The lists of a bag that is listed, and into which what lies in the spots of its chunks has yet to go.
#[derive(Drop)]
pub struct Listing {
    /// Its chunks.
    pub chunks: Vec<ChunkPos>,
    /// Those of them in whose spots something may lie.
    pub touched: Vec<ChunkPos>,
}

/// Says that a bag has to be gathered anew.
pub fn unlist(bags: &mut Bags, id: usize)
    requires { is_open (slot_in bags.old.items id) ≡ true }
    ensures sets { SetsSlot id
        (record (slot_in bags.old.items id) { listed = false })
        bags.old bags.new }
{
    let slot = bags.slot_mut(id);
    slot.listed = false;
}

/// Sets how many ticks a region owes.
pub fn set_owed(bags: &mut Bags, id: usize, owed: u32)
    requires { is_open (slot_in bags.old.items id) ≡ true }
    ensures sets { SetsSlot id (record (slot_in bags.old.items id)
        { body = record (slot_in bags.old.items id).body { owed = owed } }) bags.old bags.new }
{
    let slot = bags.slot_mut(id);
    slot.body.owed = owed;
}

/// Closes a bag; what lies in it stays in it. With nothing in it, its memory goes back.
pub fn close(alloc: Global, bags: &mut Bags, id: usize)
    requires { is_open (slot_in bags.old.items id) ≡ true }
    ensures things { (k : Key) → things (slot_in bags.new.items id).body k
        ≡ things (slot_in bags.old.items id).body k }
    ensures timely { IsTimely (slot_in bags.old.items id).body
        → IsTimely (slot_in bags.new.items id).body }
    ensures sets { SetsSlot id
        (record no_slot { body = (slot_in bags.new.items id).body })
        bags.old bags.new }
{
    shut(alloc, bags, id);
    bags.release(id);
}

/// Closes a bag; what lies in it stays in it.
fn shut(alloc: Global, bags: &mut Bags, id: usize)
    requires { is_open (slot_in bags.old.items id) ≡ true }
    ensures sets { SetsSlot id
        (record no_slot { body = (slot_in bags.old.items id).body })
        bags.old bags.new }
{
    let slot = bags.slot_mut(id);
    slot.here = false;
    slot.taken = false;
    slot.listed = false;
    slot.calm = false;
    slot.relist(Vec::new(alloc));
    slot.touched = Sequence::new(alloc);
    slot.since = Sequence::new(alloc);
}

/// Gives a bag other chunks.
pub fn relist(bags: &mut Bags, id: usize, chunks: Vec<ChunkPos>)
    requires { is_open (slot_in bags.old.items id) ≡ true }
    ensures sets { SetsSlot id (record (slot_in bags.old.items id) {
      listed = false;
      chunks = chunks.items;
      list = chunks.items;
    }) bags.old bags.new }
{
    let slot = bags.slot_mut(id);
    slot.listed = false;
    slot.relist(chunks);
}

/// Chunks come to a bag that has none of them; it has to be gathered anew. If memory runs out, some of them may have come, and no chunk is
/// lost.
fn widen(alloc: Global, bags: &mut Bags, id: usize, others: &[ChunkPos]) -> Result<(), AllocError>
    requires open { is_open (slot_in bags.old.items id) ≡ true }
    requires order { IsStrictlySortedBy chunk_cmp (slot_in bags.old.items id).list }
    requires others_order { IsStrictlySortedBy chunk_cmp others.now }
    requires apart { (q : ChunkPos) → is_recorded others.now q ≡ true
        → is_recorded (slot_in bags.old.items id).list q ≡ false }
    ensures ok { OnOk result (IsUnion (slot_in bags.old.items id).list others.now
        (slot_in bags.new.items id).list) }
    ensures err { OnErr result (IsPartOfUnion (slot_in bags.old.items id).list others.now
        (slot_in bags.new.items id).list) }
    ensures sets { SetsSlot id (record (slot_in bags.old.items id) {
      listed = false;
      chunks = (slot_in bags.new.items id).list;
      list = (slot_in bags.new.items id).list;
    }) bags.old bags.new }
{
    let slot = bags.slot_mut(id);
    slot.listed = false;
    slot.widen(alloc, others)
}

/// Says that all that lies on the chunks of a bag lies in it.
pub fn finish(alloc: Global, bags: &mut Bags, id: usize)
    requires { is_open (slot_in bags.old.items id) ≡ true }
    ensures sets { SetsSlot id (record (slot_in bags.old.items id) {
      listed = true;
      calm = true;
      touched = [];
    }) bags.old bags.new }
{
    let slot = bags.slot_mut(id);
    slot.listed = true;
    slot.calm = true;
    slot.touched = Sequence::new(alloc);
}

/// Says that all that lies on these chunks lies in a bag or in their spots, and gives it the lists.
pub fn list(bags: &mut Bags, id: usize, lists: Listing)
    requires { is_open (slot_in bags.old.items id) ≡ true }
    ensures sets { SetsSlot id (record (slot_in bags.old.items id) {
      listed = true;
      calm = false;
      chunks = lists.chunks.items;
      list = lists.chunks.items;
      touched = lists.touched.items;
    }) bags.old bags.new }
{
    let Listing { chunks, touched } = lists;
    let slot = bags.slot_mut(id);
    slot.listed = true;
    slot.calm = false;
    slot.relist(chunks);
    slot.touched = Sequence::of(touched);
}

/// A listed bag that the place names is calm no more.
pub fn disturb(bags: &mut Bags, place: Place)
    requires { (id : ℕ) → place.bag ≡ Some id → id < length bags.old.items }
    ensures slots { (u : ℕ) → slot_in bags.new.items u
        ≡ (if is_bag u place
        then record (slot_in bags.old.items u) { calm = stays_calm (slot_in bags.old.items u) }
        else slot_in bags.old.items u) }
    ensures len { length bags.new.items ≡ length bags.old.items }
    ensures free { bags.new.free ≡ bags.old.free }
{
    match place.bag {
        Some(id) => disturb_bag(bags, id),
        None => {}
    }
}

/// A listed bag is calm no more.
fn disturb_bag(bags: &mut Bags, id: usize)
    requires { id < length bags.old.items }
    ensures sets { SetsSlot id
        (record (slot_in bags.old.items id) { calm = stays_calm (slot_in bags.old.items id) })
        bags.old bags.new }
{
    match bags.get_mut(id) {
        Some(slot) => slot.calm = slot.calm && !slot.listed,
        None => {}
    }
}

/// Whether all that lies on the chunks of a bag lies in it.
pub fn is_whole(slot: &Slot) -> bool
    ensures { result ≡ (slot.now.listed && slot.now.calm) }
{
    slot.listed && slot.calm
}

/// Whether a listed bag is to be told of a task in the spot of one of its chunks.
pub fn is_stirred(bags: &Bags, id: usize) -> bool
    requires { id < length bags.now.items }
    ensures { result ≡ ((slot_in bags.now.items id).listed && not (slot_in bags.now.items id).calm) }
{
    match bags.get(id) {
        Some(slot) => slot.listed && !slot.calm,
        None => false,
    }
}

/// Makes room for one task in a bag. False where the bag is not here, or memory runs out.
pub fn make_room(bags: &mut Bags, id: usize) -> bool
    requires there { id < length bags.old.items }
    requires timely { IsTimely (slot_in bags.old.items id).body }
    ensures here { IsTrue result → (slot_in bags.old.items id).here ≡ true }
    ensures room { IsTrue result → 1 ≤ (slot_in bags.new.items id).body.queues.spare }
    ensures same { SameThings (slot_in bags.old.items id).body (slot_in bags.new.items id).body }
    ensures timely { IsTimely (slot_in bags.new.items id).body }
    ensures sets { SetsSlot id
        (record (slot_in bags.old.items id) { body = (slot_in bags.new.items id).body })
        bags.old bags.new }
{
    match bags.get_mut(id) {
        Some(slot) => room_in(slot),
        None => false,
    }
}

/// Makes room for one task. False where the bag is not here, or memory runs out.
fn room_in(slot: &mut Slot) -> bool
    requires timely { IsTimely slot.old.body }
    ensures here { IsTrue result → slot.old.here ≡ true }
    ensures room { IsTrue result → 1 ≤ slot.new.body.queues.spare }
    ensures same { SameThings slot.old.body slot.new.body }
    ensures timely { IsTimely slot.new.body }
    ensures rest { slot.new ≡ record slot.old { body = slot.new.body } }
{
    if !slot.here {
        return false;
    }
    waiting::make_room(&mut slot.body).is_ok()
}

/// Queues a task in a bag, with its deadline as its rest.
pub fn queue(bags: &mut Bags, id: usize, dated: Dated)
    requires open { is_open (slot_in bags.old.items id) ≡ true }
    requires timely { IsTimely (slot_in bags.old.items id).body }
    requires room { 1 ≤ (slot_in bags.old.items id).body.queues.spare }
    requires fresh { things (slot_in bags.old.items id).body (of_task dated.task.number) ≡ None }
    requires in_time { IsInTime 0 dated }
    ensures queued { Queues dated (slot_in bags.old.items id).body
        (slot_in bags.new.items id).body }
    ensures timely { IsTimely (slot_in bags.new.items id).body }
    ensures sets { SetsSlot id
        (record (slot_in bags.old.items id) { body = (slot_in bags.new.items id).body })
        bags.old bags.new }
{
    let slot = bags.slot_mut(id);
    waiting::queue(&mut slot.body, dated);
}

/// Notes that tasks may lie in the spot of a chunk of a bag. If memory runs out, nothing is noted.
pub fn touch(alloc: Global, bags: &mut Bags, id: usize, c: ChunkPos) -> Result<(), AllocError>
    requires { is_open (slot_in bags.old.items id) ≡ true }
    ensures noted { OnOk result ((slot_in bags.new.items id).touched
        ≡ (slot_in bags.old.items id).touched ++ c ∷ []) }
    ensures err { OnErr result ((slot_in bags.new.items id).touched
        ≡ (slot_in bags.old.items id).touched) }
    ensures sets { SetsSlot id
        (record (slot_in bags.old.items id) { touched = (slot_in bags.new.items id).touched })
        bags.old bags.new }
{
    let slot = bags.slot_mut(id);
    let mut touched = mem::replace(&mut slot.touched, Sequence::new(alloc)).into_vec();
    let result = add(&mut touched, c);
    slot.touched = Sequence::of(touched);
    result
}

/// Adds a chunk to a list.
pub fn add(chunks: &mut Vec<ChunkPos>, c: ChunkPos) -> Result<(), AllocError>
    ensures ok { OnOk result (chunks.new.items ≡ chunks.old.items ++ c ∷ []) }
    ensures err { OnErr result (chunks.new.items ≡ chunks.old.items) }
{
    chunks.push(c)?;
    Ok(())
}

/// Takes the noted chunks of a bag, which has to be gathered anew, or finished.
pub fn reopen(alloc: Global, bags: &mut Bags, id: usize) -> Vec<ChunkPos>
    requires { is_open (slot_in bags.old.items id) ≡ true }
    ensures touched { result.items ≡ (slot_in bags.old.items id).touched }
    ensures sets { SetsSlot id (record (slot_in bags.old.items id) {
      listed = false;
      touched = [];
    }) bags.old bags.new }
{
    let slot = bags.slot_mut(id);
    slot.listed = false;
    mem::replace(&mut slot.touched, Sequence::new(alloc)).into_vec()
}

/// Notes that a chunk of a listed bag may have come or left. If memory runs out, the bag has to be gathered anew.
pub fn note_change(bags: &mut Bags, id: usize, c: ChunkPos)
    requires { is_open (slot_in bags.old.items id) ≡ true }
    ensures noted { (slot_in bags.new.items id).listed ≡ true
        → ((slot_in bags.old.items id).listed ≡ true) × ((slot_in bags.new.items id).since
        ≡ (slot_in bags.old.items id).since ++ c ∷ []) }
    ensures unlisted { (slot_in bags.old.items id).listed ≡ false
        → (slot_in bags.new.items id).since ≡ (slot_in bags.old.items id).since }
    ensures sets { SetsSlot id (record (slot_in bags.old.items id) {
      listed = (slot_in bags.new.items id).listed;
      since = (slot_in bags.new.items id).since;
    }) bags.old bags.new }
{
    let slot = bags.slot_mut(id);
    if slot.listed {
        slot.listed = slot.since.push(c).is_ok();
    }
}

/// Takes the last of the chunks of a bag that may have come or left.
pub fn next_change(alloc: Global, bags: &mut Bags, id: usize) -> Option<ChunkPos>
    requires { is_open (slot_in bags.old.items id) ≡ true }
    ensures some { ForSome result (λ last. (slot_in bags.old.items id).since
        ≡ (slot_in bags.new.items id).since ++ last ∷ []) }
    ensures none { IsTrue (is_none result) → (slot_in bags.old.items id).since ≡ [] }
    ensures left { IsTrue (is_none result) → (slot_in bags.new.items id).since ≡ [] }
    ensures sets { SetsSlot id
        (record (slot_in bags.old.items id) { since = (slot_in bags.new.items id).since })
        bags.old bags.new }
{
    let slot = bags.slot_mut(id);
    let mut since = mem::replace(&mut slot.since, Sequence::new(alloc)).into_vec();
    let last = since.pop();
    slot.since = Sequence::of(since);
    last
}

/// Counts ticks of a region, which owes as many less, and moves the entities in its bag once for each.
pub fn count_ticks(bags: &mut Bags, id: usize, ticks: u32)
    requires open { is_open (slot_in bags.old.items id) ≡ true }
    requires owes { ticks ≤ (slot_in bags.old.items id).body.owed }
    requires early { (slot_in bags.old.items id).body.tick + ticks ≤ 2 ^ 62 }
    requires order { IsStrictlySortedBy chunk_cmp (slot_in bags.old.items id).list }
    requires places { All (λ c. IsTrue (is_chunk c)) (slot_in bags.old.items id).list }
    ensures contents { flat_of (slot_in bags.new.items id).body.chunks
        ≡ iterate (moved (is_recorded (slot_in bags.old.items id).list)) ticks
        (flat_of (slot_in bags.old.items id).body.chunks) }
    ensures sets { SetsSlot id (record (slot_in bags.old.items id) {
      body = record (slot_in bags.old.items id).body {
        tick = (slot_in bags.old.items id).body.tick + ticks;
        owed = (slot_in bags.old.items id).body.owed - ticks;
        chunks = (slot_in bags.new.items id).body.chunks;
      };
    }) bags.old bags.new }
{
    let slot = bags.slot_mut(id);
    slot.body.tick += ticks as u64;
    slot.body.owed -= ticks;
    walk(&mut slot.list, &mut slot.body.chunks, ticks);
}

/// Moves the entities so many times by their speeds, where they stay on these chunks. Where none has a speed, it looks at nothing else.
fn walk(list: &mut ChunkSet, chunks: &mut Chunks, ticks: u32)
    requires order { IsStrictlySortedBy chunk_cmp list.old }
    requires places { All (λ c. IsTrue (is_chunk c)) list.old }
    ensures list { list.new ≡ list.old }
    ensures contents { flat_of chunks.new
        ≡ iterate (moved (is_recorded list.old)) ticks (flat_of chunks.old) }
{
    if !chunks.is_still() {
        list.settle_for(chunks.walkers());
        chunks.step_entities(list, ticks);
    }
}

/// Whether the store has a bag, and its chunks are the right ones still.
pub fn is_ready(bags: &Bags, id: usize) -> bool
    requires { is_open (slot_in bags.now.items id) ≡ true }
    ensures { result ≡ ((slot_in bags.now.items id).here && (slot_in bags.now.items id).listed) }
{
    let slot = bags.slot(id);
    slot.here && slot.listed
}

/// A chunk comes to a listed bag. Unless nothing lies on it, which is `quiet`, it is noted, and the bag is calm no more. If memory runs
/// out, the bag has to be gathered anew.
pub fn admit(bags: &mut Bags, id: usize, c: ChunkPos, quiet: bool) -> Result<(), AllocError>
    requires open { is_open (slot_in bags.old.items id) ≡ true }
    requires order { IsStrictlySortedBy chunk_cmp (slot_in bags.old.items id).list }
    ensures order { OnOk result (IsStrictlySortedBy chunk_cmp (slot_in bags.new.items id).list) }
    ensures has { OnOk result ((q : ChunkPos) → is_recorded (slot_in bags.new.items id).list q
        ≡ (is_recorded (slot_in bags.old.items id).list q || same_chunk c q)) }
    ensures noted { OnOk result ((slot_in bags.new.items id).touched
        ≡ (if quiet then (slot_in bags.old.items id).touched
        else (slot_in bags.old.items id).touched ++ c ∷ [])) }
    ensures listed { OnOk result ((slot_in bags.new.items id).listed
        ≡ (slot_in bags.old.items id).listed) }
    ensures kept { (q : ChunkPos) → is_recorded (slot_in bags.old.items id).list q ≡ true
        → is_recorded (slot_in bags.new.items id).list q ≡ true }
    ensures unlisted { OnErr result ((slot_in bags.new.items id).listed ≡ false) }
    ensures sets { SetsSlot id (record (slot_in bags.old.items id) {
      listed = (slot_in bags.new.items id).listed;
      calm = (quiet && (slot_in bags.old.items id).calm);
      chunks = (slot_in bags.new.items id).list;
      list = (slot_in bags.new.items id).list;
      touched = (slot_in bags.new.items id).touched;
    }) bags.old bags.new }
{
    let slot = bags.slot_mut(id);
    let result = slot.admit(c, quiet);
    slot.listed = slot.listed && result.is_ok();
    result
}

/// A chunk leaves a bag.
pub fn dismiss(bags: &mut Bags, id: usize, c: ChunkPos)
    requires open { is_open (slot_in bags.old.items id) ≡ true }
    requires order { IsStrictlySortedBy chunk_cmp (slot_in bags.old.items id).list }
    ensures order { IsStrictlySortedBy chunk_cmp (slot_in bags.new.items id).list }
    ensures has { (q : ChunkPos) → is_recorded (slot_in bags.new.items id).list q
        ≡ (is_recorded (slot_in bags.old.items id).list q && not (same_chunk c q)) }
    ensures sets { SetsSlot id (record (slot_in bags.old.items id) {
      chunks = (slot_in bags.new.items id).list;
      list = (slot_in bags.new.items id).list;
    }) bags.old bags.new }
{
    let slot = bags.slot_mut(id);
    slot.dismiss(c);
}

/// Says whether a bag is listed. Where it is, these chunks leave it.
pub fn list_others(bags: &mut Bags, id: usize, chunks: &[ChunkPos], listed: bool)
    requires open { is_open (slot_in bags.old.items id) ≡ true }
    requires order { listed ≡ true
        → IsStrictlySortedBy chunk_cmp (slot_in bags.old.items id).list }
    ensures order { listed ≡ true
        → IsStrictlySortedBy chunk_cmp (slot_in bags.new.items id).list }
    ensures has { listed ≡ true → (q : ChunkPos)
        → is_recorded (slot_in bags.new.items id).list q
        ≡ (is_recorded (slot_in bags.old.items id).list q && not (is_recorded chunks.now q)) }
    ensures unlisted { listed ≡ false
        → (slot_in bags.new.items id).list ≡ (slot_in bags.old.items id).list }
    ensures sets { SetsSlot id (record (slot_in bags.old.items id) {
      listed = listed;
      chunks = (slot_in bags.new.items id).list;
      list = (slot_in bags.new.items id).list;
    }) bags.old bags.new }
{
    let slot = bags.slot_mut(id);
    slot.listed = listed;
    slot.keep_others(chunks);
}

/// Takes out what lies in a bag, and its chunks.
pub fn take_out(alloc: Global, bags: &mut Bags, id: usize) -> Taken
    requires { is_open (slot_in bags.old.items id) ≡ true }
    ensures body { result.body ≡ (slot_in bags.old.items id).body }
    ensures list { result.chunks ≡ (slot_in bags.old.items id).list }
    ensures left { SameThings no_data (slot_in bags.new.items id).body }
    ensures tasks { (slot_in bags.new.items id).body.queues.tasks ≡ [] }
    ensures sets { SetsSlot id (record (slot_in bags.old.items id) {
      body = (slot_in bags.new.items id).body;
      here = false;
      taken = true;
      list = [];
    }) bags.old bags.new }
{
    let slot = bags.slot_mut(id);
    slot.here = false;
    slot.taken = true;
    slot.list.settle_many();
    let chunks = mem::replace(&mut slot.list, ChunkSet::new(alloc));
    let body = mem::replace(&mut slot.body, new_data(alloc, 0, 0));
    Taken { chunks, body }
}

/// Puts back what was taken out.
pub fn put_in(bags: &mut Bags, id: usize, chunks: ChunkSet, body: RegionData)
    requires { is_open (slot_in bags.old.items id) ≡ true }
    ensures sets { SetsSlot id (record (slot_in bags.old.items id) {
      body = body;
      here = true;
      taken = false;
      list = chunks;
    }) bags.old bags.new }
{
    let slot = bags.slot_mut(id);
    slot.here = true;
    slot.taken = false;
    slot.list = chunks;
    slot.body = body;
}

/// Moves what lies on the chunks from one bag to another. The first has to be gathered anew. If memory runs out, nothing has moved.
pub fn shift_bags(
    alloc: Global,
    bags: &mut Bags,
    from: usize,
    chunks: &[ChunkPos],
    to: usize,
) -> Result<(), AllocError>
    requires order { IsStrictlySortedBy chunk_cmp chunks.now }
    requires from_there { from < length bags.old.items }
    requires to_open { is_open (slot_in bags.old.items to) ≡ true }
    requires others { from ≢ to }
    requires timely { IsTimely (slot_in bags.old.items from).body }
    requires to_timely { IsTimely (slot_in bags.old.items to).body }
    requires apart { AreApart (slot_in bags.old.items from).body (slot_in bags.old.items to).body }
    ensures timely { IsTimely (slot_in bags.new.items from).body }
    ensures to_timely { IsTimely (slot_in bags.new.items to).body }
    ensures loses { OnOk result (Loses chunks.now (slot_in bags.old.items from).body
        (slot_in bags.new.items from).body) }
    ensures gains { OnOk result (Gains chunks.now (slot_in bags.old.items from).body
        (slot_in bags.old.items to).body (slot_in bags.new.items to).body) }
    ensures err { OnErr result (SameThings (slot_in bags.old.items from).body
        (slot_in bags.new.items from).body) }
    ensures to_err { OnErr result (SameThings (slot_in bags.old.items to).body
        (slot_in bags.new.items to).body) }
    ensures sets { SetsTwo
        from (record (slot_in bags.old.items from) {
          body = (slot_in bags.new.items from).body;
          listed = false;
        })
        to (record (slot_in bags.old.items to) { body = (slot_in bags.new.items to).body })
        bags.old bags.new }
{
    let mut kept = bags.lift(from);
    let result = pour(alloc, &mut kept, chunks, bags, to);
    bags.lay(from, kept);
    result
}

/// Moves what lies on the chunks from a bag that was taken out, where there is one, to another bag. If memory runs out, nothing has
/// moved.
fn pour(
    alloc: Global,
    from: &mut Kept,
    chunks: &[ChunkPos],
    bags: &mut Bags,
    to: usize,
) -> Result<(), AllocError>
    requires order { IsStrictlySortedBy chunk_cmp chunks.now }
    requires to_open { is_open (slot_in bags.old.items to) ≡ true }
    requires timely { IsTimely from.old.body }
    requires to_timely { IsTimely (slot_in bags.old.items to).body }
    requires apart { AreApart from.old.body (slot_in bags.old.items to).body }
    ensures timely { IsTimely from.new.body }
    ensures to_timely { IsTimely (slot_in bags.new.items to).body }
    ensures loses { OnOk result (Loses chunks.now from.old.body from.new.body) }
    ensures gains { OnOk result (Gains chunks.now from.old.body
        (slot_in bags.old.items to).body (slot_in bags.new.items to).body) }
    ensures err { OnErr result (SameThings from.old.body from.new.body) }
    ensures to_err { OnErr result (SameThings (slot_in bags.old.items to).body
        (slot_in bags.new.items to).body) }
    ensures rest { from.new ≡ record from.old {
      body = from.new.body;
      listed = false;
    } }
    ensures sets { SetsSlot to
        (record (slot_in bags.old.items to) { body = (slot_in bags.new.items to).body })
        bags.old bags.new }
{
    match from.get_mut() {
        Some(slot) => pour_out(alloc, slot, chunks, bags, to),
        None => Ok(()),
    }
}

/// Moves what lies on the chunks from one bag to another, and gives back what room the first needs no more. If memory runs out,
/// nothing has moved.
fn pour_out(
    alloc: Global,
    from: &mut Slot,
    chunks: &[ChunkPos],
    bags: &mut Bags,
    to: usize,
) -> Result<(), AllocError>
    requires order { IsStrictlySortedBy chunk_cmp chunks.now }
    requires to_open { is_open (slot_in bags.old.items to) ≡ true }
    requires timely { IsTimely from.old.body }
    requires to_timely { IsTimely (slot_in bags.old.items to).body }
    requires apart { AreApart from.old.body (slot_in bags.old.items to).body }
    ensures timely { IsTimely from.new.body }
    ensures to_timely { IsTimely (slot_in bags.new.items to).body }
    ensures loses { OnOk result (Loses chunks.now from.old.body from.new.body) }
    ensures gains { OnOk result (Gains chunks.now from.old.body
        (slot_in bags.old.items to).body (slot_in bags.new.items to).body) }
    ensures err { OnErr result (SameThings from.old.body from.new.body) }
    ensures to_err { OnErr result (SameThings (slot_in bags.old.items to).body
        (slot_in bags.new.items to).body) }
    ensures rest { from.new ≡ record from.old {
      body = from.new.body;
      listed = false;
    } }
    ensures sets { SetsSlot to
        (record (slot_in bags.old.items to) { body = (slot_in bags.new.items to).body })
        bags.old bags.new }
{
    let result = shift_into(bags, to, chunks, &mut from.body);
    from.listed = false;
    from.compact(alloc);
    result
}

/// Closes a bag, and moves what lies on its chunks into another one, which gets these chunks and is whole; it gives the chunks that moved.
/// If memory runs out, nothing has moved, and the other bag, which may have got some of these chunks, has to be gathered anew.
pub fn merge(
    alloc: Global,
    bags: &mut Bags,
    from: usize,
    into: usize,
) -> Result<Vec<ChunkPos>, AllocError>
    requires order { IsStrictlySortedBy chunk_cmp (slot_in bags.old.items from).list }
    requires into_order { IsStrictlySortedBy chunk_cmp (slot_in bags.old.items into).list }
    requires none_shared { (q : ChunkPos)
        → is_recorded (slot_in bags.old.items from).list q ≡ true
        → is_recorded (slot_in bags.old.items into).list q ≡ false }
    requires from_open { is_open (slot_in bags.old.items from) ≡ true }
    requires into_open { is_open (slot_in bags.old.items into) ≡ true }
    requires differ { from ≢ into }
    requires timely { IsTimely (slot_in bags.old.items from).body }
    requires into_timely { IsTimely (slot_in bags.old.items into).body }
    requires apart { AreApart (slot_in bags.old.items from).body
        (slot_in bags.old.items into).body }
    ensures moved { IfOk result (λ list. list.items ≡ (slot_in bags.old.items from).list) }
    ensures both { OnOk result (IsUnion (slot_in bags.old.items into).list
        (slot_in bags.old.items from).list (slot_in bags.new.items into).list) }
    ensures part { OnErr result (IsPartOfUnion (slot_in bags.old.items into).list
        (slot_in bags.old.items from).list (slot_in bags.new.items into).list) }
    ensures timely { IsTimely (slot_in bags.new.items from).body }
    ensures into_timely { IsTimely (slot_in bags.new.items into).body }
    ensures loses { OnOk result (Loses (slot_in bags.old.items from).list
        (slot_in bags.old.items from).body (slot_in bags.new.items from).body) }
    ensures gains { OnOk result (Gains (slot_in bags.old.items from).list
        (slot_in bags.old.items from).body (slot_in bags.old.items into).body
        (slot_in bags.new.items into).body) }
    ensures err { OnErr result (SameThings (slot_in bags.old.items from).body
        (slot_in bags.new.items from).body) }
    ensures into_err { OnErr result (SameThings (slot_in bags.old.items into).body
        (slot_in bags.new.items into).body) }
    ensures sets { OnOk result (SetsTwo
        from (record no_slot { body = (slot_in bags.new.items from).body })
        into (record (slot_in bags.old.items into) {
          body = (slot_in bags.new.items into).body;
          listed = true;
          calm = true;
          chunks = (slot_in bags.new.items into).list;
          list = (slot_in bags.new.items into).list;
          touched = [];
        })
        bags.old bags.new) }
    ensures sets_err { OnErr result (SetsTwo
        from (record no_slot { body = (slot_in bags.new.items from).body })
        into (record (slot_in bags.old.items into) {
          body = (slot_in bags.new.items into).body;
          listed = false;
          chunks = (slot_in bags.new.items into).list;
          list = (slot_in bags.new.items into).list;
        })
        bags.old bags.new) }
{
    let moved = dissolve(alloc, bags, from);
    widen(alloc, bags, into, &moved)?;
    shift_bags(alloc, bags, from, &moved, into)?;
    finish(alloc, bags, into);
    Ok(moved)
}

/// Closes a bag, and takes its chunks; what lies in it stays in it.
fn dissolve(alloc: Global, bags: &mut Bags, id: usize) -> Vec<ChunkPos>
    requires { is_open (slot_in bags.old.items id) ≡ true }
    ensures list { result.items ≡ (slot_in bags.old.items id).list }
    ensures sets { SetsSlot id
        (record no_slot { body = (slot_in bags.old.items id).body })
        bags.old bags.new }
{
    let slot = bags.slot_mut(id);
    let chunks = mem::replace(&mut slot.list, ChunkSet::new(alloc)).into_vec();
    shut(alloc, bags, id);
    chunks
}

/// Two bags are exchanged, with all that lies in them.
pub fn exchange(bags: &mut Bags, a: usize, b: usize)
    requires there { a < length bags.old.items }
    requires other_there { b < length bags.old.items }
    requires differ { a ≢ b }
    ensures sets { SetsTwo a (slot_in bags.old.items b) b (slot_in bags.old.items a)
        bags.old bags.new }
{
    let first = bags.lift(a);
    let second = bags.lift(b);
    bags.lay(a, second);
    bags.lay(b, first);
}

/// Moves what lies on the chunks from elsewhere into a bag. If memory runs out, nothing has moved.
pub fn shift_into(
    bags: &mut Bags,
    id: usize,
    chunks: &[ChunkPos],
    from: &mut RegionData,
) -> Result<(), AllocError>
    requires order { IsStrictlySortedBy chunk_cmp chunks.now }
    requires open { is_open (slot_in bags.old.items id) ≡ true }
    requires timely { IsTimely from.old }
    requires to_timely { IsTimely (slot_in bags.old.items id).body }
    requires apart { AreApart from.old (slot_in bags.old.items id).body }
    ensures timely { IsTimely from.new }
    ensures to_timely { IsTimely (slot_in bags.new.items id).body }
    ensures loses { OnOk result (Loses chunks.now from.old from.new) }
    ensures gains { OnOk result (Gains chunks.now from.old (slot_in bags.old.items id).body
        (slot_in bags.new.items id).body) }
    ensures err { OnErr result (SameThings from.old from.new) }
    ensures to_err { OnErr result (SameThings (slot_in bags.old.items id).body
        (slot_in bags.new.items id).body) }
    ensures sets { SetsSlot id
        (record (slot_in bags.old.items id) { body = (slot_in bags.new.items id).body })
        bags.old bags.new }
{
    let slot = bags.slot_mut(id);
    shift(from, chunks, &mut slot.body)
}

/// Moves what lies on the chunks from a bag elsewhere. If memory runs out, nothing has moved.
pub fn shift_out(
    bags: &mut Bags,
    id: usize,
    chunks: &[ChunkPos],
    to: &mut RegionData,
) -> Result<(), AllocError>
    requires order { IsStrictlySortedBy chunk_cmp chunks.now }
    requires open { is_open (slot_in bags.old.items id) ≡ true }
    requires timely { IsTimely (slot_in bags.old.items id).body }
    requires to_timely { IsTimely to.old }
    requires apart { AreApart (slot_in bags.old.items id).body to.old }
    ensures timely { IsTimely (slot_in bags.new.items id).body }
    ensures to_timely { IsTimely to.new }
    ensures loses { OnOk result (Loses chunks.now (slot_in bags.old.items id).body
        (slot_in bags.new.items id).body) }
    ensures gains { OnOk result (Gains chunks.now (slot_in bags.old.items id).body to.old to.new) }
    ensures err { OnErr result (SameThings (slot_in bags.old.items id).body
        (slot_in bags.new.items id).body) }
    ensures to_err { OnErr result (SameThings to.old to.new) }
    ensures sets { SetsSlot id
        (record (slot_in bags.old.items id) { body = (slot_in bags.new.items id).body })
        bags.old bags.new }
{
    let slot = bags.slot_mut(id);
    shift(&mut slot.body, chunks, to)
}

/// Moves the blocks and entities that lie on a chunk, which are `size`, from a bag elsewhere, where no task in the bag lies on it. If
/// memory runs out, nothing has moved.
pub fn shift_contents_out(
    bags: &mut Bags,
    id: usize,
    c: ChunkPos,
    size: u64,
    to: &mut RegionData,
) -> Result<(), AllocError>
    requires open { is_open (slot_in bags.old.items id) ≡ true }
    requires size { size_within (is_recorded (c ∷ [])) (slot_in bags.old.items id).body.chunks
        ≤ size }
    requires no_task { HasNoTask c (rests_of (slot_in bags.old.items id).body) }
    requires timely { IsTimely (slot_in bags.old.items id).body }
    requires to_timely { IsTimely to.old }
    requires apart { AreApart (slot_in bags.old.items id).body to.old }
    ensures timely { IsTimely (slot_in bags.new.items id).body }
    ensures to_timely { IsTimely to.new }
    ensures loses { OnOk result (Loses (c ∷ []) (slot_in bags.old.items id).body
        (slot_in bags.new.items id).body) }
    ensures gains { OnOk result (Gains (c ∷ []) (slot_in bags.old.items id).body to.old to.new) }
    ensures err { OnErr result (SameThings (slot_in bags.old.items id).body
        (slot_in bags.new.items id).body) }
    ensures to_err { OnErr result (SameThings to.old to.new) }
    ensures sets { SetsSlot id
        (record (slot_in bags.old.items id) { body = (slot_in bags.new.items id).body })
        bags.old bags.new }
{
    let slot = bags.slot_mut(id);
    shift_contents(&mut slot.body, c, size, to)
}
