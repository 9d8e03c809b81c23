//! The bag of a region, as the store keeps it.

ghost use Rattle.std.specs.Prelude.{◌≡◌, ◌≤◌, if◌then◌else◌, true, not, ◌||◌, ◌&&◌, [], ◌∷◌, ◌++◌, ◌⊎◌, length, false, IsTrue, OnOk, OnErr};
ghost use Rattle.std.specs.List.Sorted.{IsStrictlySortedBy};
ghost use Rattle.fol_model.specs.declared.places.ChunkPos.{ChunkPos};
ghost use Rattle.fol_model.specs.Geometry.{same_chunk};
ghost use Rattle.fol_chunks.specs.Contents.{flat_of, is_recorded, nothing};
ghost use Rattle.fol_chunks.specs.Order.{chunk_cmp};
ghost use Rattle.fol_bags.specs.Slots.{no_slot};
ghost use Rattle.fol_bags.specs.Moves.{SameThings};
ghost use Rattle.fol_bags.specs.Unions.{IsPartOfUnion, IsUnion};
ghost use Rattle.fol_bags.specs.Things.{Key, no_data, things, IsTimely};

use crate::recalled::Recalled;
use crate::{difference, union};
use fol_data::RegionData;
use fol_keyed::ChunkSet;
use fol_model::{ChunkPos, Sequence};
use fol_queues::Queues;
use std::alloc::{AllocError, Global};
use std::mem;

/// For how many blocks and entities the room is kept where nothing lies in a bag any more.
const KEPT_ROOM: u64 = 256;

/// A bag, or what is left of one.
#[derive(Drop)]
pub struct Slot {
    /// What lies in it.
    pub body: RegionData,
    /// Whether its region is there, and no worker has the bag.
    pub here: bool,
    /// Whether a worker has the bag.
    pub taken: bool,
    /// Whether its chunks are the right ones still.
    pub listed: bool,
    /// Whether no task came on its chunks since they were listed.
    pub calm: bool,
    /// The chunks for which it was gathered, as contracts see them while a worker has the bag too.
    pub chunks: Recalled,
    /// These chunks, in order, unless a worker has the bag and them.
    pub list: ChunkSet,
    /// Chunks in whose spots something may lie; of a listed bag, all such ones.
    pub touched: Sequence<ChunkPos>,
    /// Chunks that may have come or left while a worker had the bag.
    pub since: Sequence<ChunkPos>,
}

impl Slot {
    /// That of a region that has just begun, with these counters: it holds nothing and has no chunk. Takes no memory.
    pub fn opened(alloc: Global, tick: u64, owed: u32) -> Slot
        ensures body { SameThings (record no_data { tick = tick; owed = owed }) result.body }
        ensures tasks { result.body.queues.tasks ≡ [] }
        ensures rest { result ≡ record no_slot {
          body = result.body;
          here = true;
          listed = true;
          calm = true;
        } }
    {
        let list = ChunkSet::new(alloc);
        Slot {
            body: new_data(alloc, tick, owed),
            here: true,
            taken: false,
            listed: true,
            calm: true,
            chunks: Recalled::of(&list),
            list,
            touched: Sequence::new(alloc),
            since: Sequence::new(alloc),
        }
    }

    /// Begins it anew, with these counters, as `opened` makes one; but where nothing lies in it, it keeps the room for blocks and entities. Takes
    /// no memory.
    pub fn reopen(&mut self, alloc: Global, tick: u64, owed: u32)
        ensures body { SameThings (record no_data { tick = tick; owed = owed }) self.new.body }
        ensures tasks { self.new.body.queues.tasks ≡ [] }
        ensures rest { self.new ≡ record no_slot {
          body = self.new.body;
          here = true;
          listed = true;
          calm = true;
        } }
    {
        let unused = mem::replace(self, Slot::opened(alloc, tick, owed));
        if unused.body.is_empty() {
            self.body = unused.body;
            self.body.tick = tick;
            self.body.owed = owed;
        }
    }

    /// Whether no region has it any more, and nothing lies in it.
    pub fn is_over(&self) -> bool
        requires { self.now.taken ≡ false → self.now.list ≡ self.now.chunks }
        ensures things { IsTrue result → (k : Key) → things self.now.body k ≡ things no_data k }
        ensures rest { IsTrue result → self.now ≡ record no_slot { body = self.now.body } }
    {
        self.is_shut() && self.has_no_chunk() && self.body.is_empty()
    }

    /// Whether it is neither here nor with a worker, and its chunks are no region's.
    fn is_shut(&self) -> bool
        ensures here { IsTrue result → self.now.here ≡ false }
        ensures taken { IsTrue result → self.now.taken ≡ false }
        ensures listed { IsTrue result → self.now.listed ≡ false }
        ensures calm { IsTrue result → self.now.calm ≡ false }
    {
        !(self.here || self.taken || self.listed || self.calm)
    }

    /// Whether no list has a chunk.
    fn has_no_chunk(&self) -> bool
        ensures list { IsTrue result → self.now.list ≡ [] }
        ensures touched { IsTrue result → self.now.touched ≡ [] }
        ensures since { IsTrue result → self.now.since ≡ [] }
    {
        self.list.is_empty() && self.touched.is_empty() && self.since.is_empty()
    }

    /// Where nothing lies in it, the room for what lay there goes back, but for that of a few blocks and entities.
    pub fn compact(&mut self, alloc: Global)
        ensures same { SameThings self.old.body self.new.body }
        ensures timely { IsTimely self.old.body → IsTimely self.new.body }
        ensures rest { self.new ≡ record self.old { body = self.new.body } }
    {
        if self.body.is_empty() {
            self.give_back(alloc);
        }
    }

    /// The room for what lay in it goes back, but for that of a few blocks and entities. Nothing lies in it.
    fn give_back(&mut self, alloc: Global)
        requires tasks { self.old.body.queues.tasks ≡ [] }
        requires contents { flat_of self.old.body.chunks ≡ nothing }
        ensures same { SameThings self.old.body self.new.body }
        ensures tasks { self.new.body.queues.tasks ≡ [] }
        ensures rest { self.new ≡ record self.old { body = self.new.body } }
    {
        if self.body.chunks.spare() > KEPT_ROOM {
            self.body = new_data(alloc, self.body.tick, self.body.owed);
        } else {
            self.body.queues = Queues::new(alloc);
        }
    }

    /// Gives it other chunks.
    pub fn relist(&mut self, chunks: Vec<ChunkPos>)
        ensures { self.new ≡ record self.old {
          chunks = chunks.items;
          list = chunks.items;
        } }
    {
        self.list.put(chunks);
        self.chunks = Recalled::of(&self.list);
    }

    /// A chunk comes. Unless nothing lies on it, which is `quiet`, it is noted, and the bag is calm no more. If memory runs out, it may be
    /// there and not noted, and no chunk is lost.
    pub fn admit(&mut self, c: ChunkPos, quiet: bool) -> Result<(), AllocError>
        requires { IsStrictlySortedBy chunk_cmp self.old.list }
        ensures order { OnOk result (IsStrictlySortedBy chunk_cmp self.new.list) }
        ensures has { OnOk result ((q : ChunkPos)
            → is_recorded self.new.list q ≡ (is_recorded self.old.list q || same_chunk c q)) }
        ensures noted { OnOk result (self.new.touched
            ≡ (if quiet then self.old.touched else self.old.touched ++ c ∷ [])) }
        ensures kept { (q : ChunkPos) → is_recorded self.old.list q ≡ true
            → is_recorded self.new.list q ≡ true }
        ensures rest { self.new ≡ record self.old {
          calm = (quiet && self.old.calm);
          chunks = self.new.list;
          list = self.new.list;
          touched = self.new.touched;
        } }
    {
        let result = self.list.widen(c);
        self.chunks = Recalled::of(&self.list);
        self.calm = quiet && self.calm;
        result?;
        if quiet {
            return Ok(());
        }
        self.touched.push(c)
    }

    /// Chunks come, of which it has none. If memory runs out, some of them may have come, and no chunk is lost.
    pub fn widen(&mut self, alloc: Global, others: &[ChunkPos]) -> Result<(), AllocError>
        requires order { IsStrictlySortedBy chunk_cmp self.old.list }
        requires others_order { IsStrictlySortedBy chunk_cmp others.now }
        requires apart { (q : ChunkPos) → is_recorded others.now q ≡ true
            → is_recorded self.old.list q ≡ false }
        ensures ok { OnOk result (IsUnion self.old.list others.now self.new.list) }
        ensures err { OnErr result (IsPartOfUnion self.old.list others.now self.new.list) }
        ensures rest { self.new ≡ record self.old {
          chunks = self.new.list;
          list = self.new.list;
        } }
    {
        let result = union::widen_all(alloc, &mut self.list, others);
        self.chunks = Recalled::of(&self.list);
        result
    }

    /// A chunk leaves.
    pub fn dismiss(&mut self, c: ChunkPos)
        requires { IsStrictlySortedBy chunk_cmp self.old.list }
        ensures order { IsStrictlySortedBy chunk_cmp self.new.list }
        ensures has { (q : ChunkPos) → is_recorded self.new.list q
            ≡ (is_recorded self.old.list q && not (same_chunk c q)) }
        ensures rest { self.new ≡ record self.old {
          chunks = self.new.list;
          list = self.new.list;
        } }
    {
        self.list.narrow(c);
        self.chunks = Recalled::of(&self.list);
    }

    /// Where it is listed, these chunks leave it.
    pub fn keep_others(&mut self, others: &[ChunkPos])
        requires { self.old.listed ≡ true → IsStrictlySortedBy chunk_cmp self.old.list }
        ensures order { self.old.listed ≡ true → IsStrictlySortedBy chunk_cmp self.new.list }
        ensures has { self.old.listed ≡ true → (q : ChunkPos) → is_recorded self.new.list q
            ≡ (is_recorded self.old.list q && not (is_recorded others.now q)) }
        ensures unlisted { self.old.listed ≡ false → self.new.list ≡ self.old.list }
        ensures rest { self.new ≡ record self.old {
          chunks = self.new.list;
          list = self.new.list;
        } }
    {
        if self.listed {
            difference::narrow_all(&mut self.list, others);
        }
        self.chunks = Recalled::of(&self.list);
    }
}

/// Data with these counters that holds nothing. Takes no memory.
pub fn new_data(alloc: Global, tick: u64, owed: u32) -> RegionData
    ensures things { SameThings (record no_data { tick = tick; owed = owed }) result }
    ensures tasks { result.queues.tasks ≡ [] }
{
    let mut data = RegionData::new(alloc);
    data.tick = tick;
    data.owed = owed;
    data
}
