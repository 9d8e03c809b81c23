//! The spots by number.

ghost use Rattle.std.specs.Prelude.{◌≡◌, ◌+◌, ◌<◌, ◌≤◌, ◌^◌, ℕ, None, Some, IsTrue, nat_eq, if◌then◌else◌, length, true, vec_len, OnOk, OnErr, [], ◌∷◌};
ghost use Rattle.std.specs.List.Sorted.{IsStrictlySortedBy};
ghost use Rattle.fol_chunks.specs.Order.{chunk_cmp};
ghost use Rattle.fol_bags.specs.Slots.{slot_in, spot_in, is_open, SetsSlot, ChangesSpot};
ghost use Rattle.fol_bags.specs.Things.{Key, no_data, things, of_task, of_entity, IsTimely};
ghost use Rattle.fol_chunks.specs.Contents.{flat_of, is_recorded, size_within};
ghost use Rattle.fol_data.specs.Rests.{IsInTime, rests_of};
ghost use Rattle.fol_bags.specs.Clear.{HasNoTask};
ghost use Rattle.fol_bags.specs.Moves.{SameThings, AreApart, Loses, Gains, Queues, LaysBlock, LaysEntity};

use crate::bags::Bags;
use crate::places::Place;
use crate::slot::new_data;
use crate::{slots, waiting};
use fol_data::{RegionData, Size};
use fol_model::{BlockPos, ChunkPos, Entity};
use fol_queues::Dated;
use std::alloc::{AllocError, Global};

/// Adds an empty spot.
pub fn add(alloc: Global, spots: &mut Vec<RegionData>) -> Result<(), AllocError>
    ensures things { OnOk result
        (SameThings no_data (spot_in spots.new.items (vec_len spots.old))) }
    ensures tasks { OnOk result ((spot_in spots.new.items (vec_len spots.old)).queues.tasks ≡ []) }
    ensures spots { OnOk result ((i : ℕ)
        → spot_in spots.new.items i ≡ (if nat_eq (vec_len spots.old) i
        then spot_in spots.new.items (vec_len spots.old) else spot_in spots.old.items i)) }
    ensures len { OnOk result (vec_len spots.new ≡ vec_len spots.old + 1) }
    ensures err { OnErr result (spots.new.items ≡ spots.old.items) }
{
    spots.push(new_data(alloc, 0, 0))?;
    Ok(())
}

/// Whether nothing lies in the spot of a chunk with this place.
pub fn is_bare(spots: &[RegionData], place: Place) -> bool
    requires { (i : ℕ) → place.spot ≡ Some i → i < length spots.now }
    ensures { IsTrue result → (i : ℕ) (k : Key) → place.spot ≡ Some i
        → things (spot_in spots.now i) k ≡ None }
{
    match place.spot {
        Some(i) => spots[i].is_empty(),
        None => true,
    }
}

/// Moves what lies on the chunks from a spot into a bag. If memory runs out, nothing has moved.
pub fn shift_to_bag(
    spots: &mut Vec<RegionData>,
    i: usize,
    chunks: &[ChunkPos],
    bags: &mut Bags,
    id: usize,
) -> Result<(), AllocError>
    requires order { IsStrictlySortedBy chunk_cmp chunks.now }
    requires spot_there { i < vec_len spots.old }
    requires bag_open { is_open (slot_in bags.old.items id) ≡ true }
    requires timely { IsTimely (spot_in spots.old.items i) }
    requires to_timely { IsTimely (slot_in bags.old.items id).body }
    requires apart { AreApart (spot_in spots.old.items i) (slot_in bags.old.items id).body }
    ensures timely { IsTimely (spot_in spots.new.items i) }
    ensures to_timely { IsTimely (slot_in bags.new.items id).body }
    ensures loses { OnOk result (Loses chunks.now (spot_in spots.old.items i)
        (spot_in spots.new.items i)) }
    ensures gains { OnOk result (Gains chunks.now (spot_in spots.old.items i)
        (slot_in bags.old.items id).body (slot_in bags.new.items id).body) }
    ensures err { OnErr result (SameThings (spot_in spots.old.items i)
        (spot_in spots.new.items i)) }
    ensures to_err { OnErr result (SameThings (slot_in bags.old.items id).body
        (slot_in bags.new.items id).body) }
    ensures spots { ChangesSpot i spots.old.items spots.new.items }
    ensures sets { SetsSlot id
        (record (slot_in bags.old.items id) { body = (slot_in bags.new.items id).body })
        bags.old bags.new }
    ensures spots_len { vec_len spots.new ≡ vec_len spots.old }
{
    let spot = &mut spots[i];
    slots::shift_into(bags, id, chunks, spot)
}

/// Moves what lies on the chunks from a bag into a spot. If memory runs out, nothing has moved.
pub fn shift_from_bag(
    bags: &mut Bags,
    id: usize,
    chunks: &[ChunkPos],
    spots: &mut Vec<RegionData>,
    i: usize,
) -> Result<(), AllocError>
    requires order { IsStrictlySortedBy chunk_cmp chunks.now }
    requires spot_there { i < vec_len spots.old }
    requires bag_open { is_open (slot_in bags.old.items id) ≡ true }
    requires timely { IsTimely (slot_in bags.old.items id).body }
    requires to_timely { IsTimely (spot_in spots.old.items i) }
    requires apart { AreApart (slot_in bags.old.items id).body (spot_in spots.old.items i) }
    ensures timely { IsTimely (slot_in bags.new.items id).body }
    ensures to_timely { IsTimely (spot_in spots.new.items i) }
    ensures loses { OnOk result (Loses chunks.now (slot_in bags.old.items id).body
        (slot_in bags.new.items id).body) }
    ensures gains { OnOk result (Gains chunks.now (slot_in bags.old.items id).body
        (spot_in spots.old.items i) (spot_in spots.new.items i)) }
    ensures err { OnErr result (SameThings (slot_in bags.old.items id).body
        (slot_in bags.new.items id).body) }
    ensures to_err { OnErr result (SameThings (spot_in spots.old.items i)
        (spot_in spots.new.items i)) }
    ensures spots { ChangesSpot i spots.old.items spots.new.items }
    ensures sets { SetsSlot id
        (record (slot_in bags.old.items id) { body = (slot_in bags.new.items id).body })
        bags.old bags.new }
    ensures spots_len { vec_len spots.new ≡ vec_len spots.old }
{
    let spot = &mut spots[i];
    slots::shift_out(bags, id, chunks, spot)
}

/// Moves the blocks and entities that lie on a chunk, which are `size`, from a bag into a spot, where no task in the bag lies on it. If
/// memory runs out, nothing has moved.
pub fn shift_contents_from_bag(
    bags: &mut Bags,
    id: usize,
    c: ChunkPos,
    size: u64,
    spots: &mut Vec<RegionData>,
    i: usize,
) -> Result<(), AllocError>
    requires spot_there { i < vec_len spots.old }
    requires bag_open { is_open (slot_in bags.old.items id) ≡ true }
    requires size { size_within (is_recorded (c ∷ [])) (slot_in bags.old.items id).body.chunks
        ≤ size }
    requires no_task { HasNoTask c (rests_of (slot_in bags.old.items id).body) }
    requires timely { IsTimely (slot_in bags.old.items id).body }
    requires to_timely { IsTimely (spot_in spots.old.items i) }
    requires apart { AreApart (slot_in bags.old.items id).body (spot_in spots.old.items i) }
    ensures timely { IsTimely (slot_in bags.new.items id).body }
    ensures to_timely { IsTimely (spot_in spots.new.items i) }
    ensures loses { OnOk result (Loses (c ∷ []) (slot_in bags.old.items id).body
        (slot_in bags.new.items id).body) }
    ensures gains { OnOk result (Gains (c ∷ []) (slot_in bags.old.items id).body
        (spot_in spots.old.items i) (spot_in spots.new.items i)) }
    ensures err { OnErr result (SameThings (slot_in bags.old.items id).body
        (slot_in bags.new.items id).body) }
    ensures to_err { OnErr result (SameThings (spot_in spots.old.items i)
        (spot_in spots.new.items i)) }
    ensures spots { ChangesSpot i spots.old.items spots.new.items }
    ensures sets { SetsSlot id
        (record (slot_in bags.old.items id) { body = (slot_in bags.new.items id).body })
        bags.old bags.new }
    ensures spots_len { vec_len spots.new ≡ vec_len spots.old }
{
    let spot = &mut spots[i];
    slots::shift_contents_out(bags, id, c, size, spot)
}

/// Makes room for one task in a spot.
pub fn make_room(spots: &mut Vec<RegionData>, i: usize) -> Result<(), AllocError>
    requires there { i < vec_len spots.old }
    requires timely { IsTimely (spot_in spots.old.items i) }
    ensures same { SameThings (spot_in spots.old.items i) (spot_in spots.new.items i) }
    ensures timely { IsTimely (spot_in spots.new.items i) }
    ensures room { OnOk result (1 ≤ (spot_in spots.new.items i).queues.spare) }
    ensures spots { ChangesSpot i spots.old.items spots.new.items }
    ensures len { vec_len spots.new ≡ vec_len spots.old }
{
    let spot = &mut spots[i];
    waiting::make_room(spot)
}

/// Queues a task in a spot, with its deadline as its rest.
pub fn queue(spots: &mut Vec<RegionData>, i: usize, dated: Dated)
    requires there { i < vec_len spots.old }
    requires timely { IsTimely (spot_in spots.old.items i) }
    requires room { 1 ≤ (spot_in spots.old.items i).queues.spare }
    requires fresh { things (spot_in spots.old.items i) (of_task dated.task.number) ≡ None }
    requires in_time { IsInTime 0 dated }
    ensures queued { Queues dated (spot_in spots.old.items i) (spot_in spots.new.items i) }
    ensures timely { IsTimely (spot_in spots.new.items i) }
    ensures spots { ChangesSpot i spots.old.items spots.new.items }
    ensures len { vec_len spots.new ≡ vec_len spots.old }
{
    let spot = &mut spots[i];
    waiting::queue(spot, dated);
}

/// Lays a block into a spot where it has no number.
pub fn lay_block(
    spots: &mut Vec<RegionData>,
    i: usize,
    at: BlockPos,
    id: u16,
) -> Result<(), AllocError>
    requires there { i < vec_len spots.old }
    requires timely { IsTimely (spot_in spots.old.items i) }
    ensures laid { OnOk result (LaysBlock at id (spot_in spots.old.items i)
        (spot_in spots.new.items i)) }
    ensures err { OnErr result (SameThings (spot_in spots.old.items i)
        (spot_in spots.new.items i)) }
    ensures timely { IsTimely (spot_in spots.new.items i) }
    ensures spots { ChangesSpot i spots.old.items spots.new.items }
    ensures len { vec_len spots.new ≡ vec_len spots.old }
{
    let spot = &mut spots[i];
    lay_block_in(spot, at, id)
}

/// Gives a block its number.
fn lay_block_in(room: &mut RegionData, at: BlockPos, id: u16) -> Result<(), AllocError>
    requires { IsTimely room.old }
    ensures laid { OnOk result (LaysBlock at id room.old room.new) }
    ensures err { OnErr result (SameThings room.old room.new) }
    ensures timely { IsTimely room.new }
{
    room_for_thing(room)?;
    room.chunks.set(at, id);
    Ok(())
}

/// Makes room for one block or entity.
fn room_for_thing(room: &mut RegionData) -> Result<(), AllocError>
    requires { IsTimely room.old }
    ensures same { SameThings room.old room.new }
    ensures contents { flat_of room.new.chunks ≡ flat_of room.old.chunks }
    ensures tasks { room.new.queues.tasks ≡ room.old.queues.tasks }
    ensures timely { IsTimely room.new }
    ensures room { OnOk result (1 ≤ room.new.chunks.spare) }
{
    room.reserve(Size {
        tasks: 0,
        things: 1,
    })
}

/// Lays an entity into a spot where it does not stand.
pub fn lay_entity(spots: &mut Vec<RegionData>, i: usize, e: Entity) -> Result<(), AllocError>
    requires there { i < vec_len spots.old }
    requires timely { IsTimely (spot_in spots.old.items i) }
    requires fresh { things (spot_in spots.old.items i) (of_entity e.id) ≡ None }
    ensures laid { OnOk result (LaysEntity e (spot_in spots.old.items i)
        (spot_in spots.new.items i)) }
    ensures err { OnErr result (SameThings (spot_in spots.old.items i)
        (spot_in spots.new.items i)) }
    ensures timely { IsTimely (spot_in spots.new.items i) }
    ensures spots { ChangesSpot i spots.old.items spots.new.items }
    ensures len { vec_len spots.new ≡ vec_len spots.old }
{
    let spot = &mut spots[i];
    lay_entity_in(spot, e)
}

/// Puts an entity where it stands.
fn lay_entity_in(room: &mut RegionData, e: Entity) -> Result<(), AllocError>
    requires timely { IsTimely room.old }
    requires fresh { things room.old (of_entity e.id) ≡ None }
    ensures laid { OnOk result (LaysEntity e room.old room.new) }
    ensures err { OnErr result (SameThings room.old room.new) }
    ensures timely { IsTimely room.new }
{
    room_for_thing(room)?;
    room.chunks.put_entity(e);
    Ok(())
}
