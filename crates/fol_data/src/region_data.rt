//! The data of a region.

ghost use Rattle.std.specs.Prelude.{◌≡◌, ◌+◌, ◌≤◌, ◌^◌, ◌||◌, not, ℕ, [], IsTrue, ◌↔◌, OnOk};
ghost use Rattle.std.specs.Option.{option_or, option_map, is_none, ForSome};
ghost use Rattle.std.specs.List.Sorted.{IsStrictlySortedBy};
ghost use Rattle.fol_keyed.specs.Order.{chunk_cmp};
ghost use Rattle.fol_queues.specs.Waiting.{dated, len_of, count_listed, lies_listed, is_listed, raised, option_filter};
ghost use Rattle.fol_chunks.specs.Contents.{flat_of, nothing, size_of as size_of_contents, size_within, within, outside, joined, Apart};
ghost use Rattle.fol_data.specs.Rests.{rests_of, is_job_listed, offset as offset_between, IsInTime};
ghost use Rattle.fol_data.specs.Sizes.{size_listed};

use crate::Size;
use crate::offset::offset;
use fol_chunks::Chunks;
use fol_model::ChunkPos;
use fol_queues::Queues;
use std::alloc::{AllocError, Global};

/// The counters, tasks, blocks and entities of one region.
#[derive(Drop)]
pub struct RegionData {
    /// The counter: how many ticks of the region have ended.
    pub tick: u64,
    /// How many ticks the region still owes in this phase.
    pub owed: u32,
    /// The waiting tasks. While the region does not tick, a task with the deadline `tick + n` runs in the n-th tick from now.
    pub queues: Queues,
    /// The blocks and entities.
    pub chunks: Chunks,
}

impl RegionData {
    /// Both counters 0, no task, no block and no entity. Takes no memory.
    pub fn new(alloc: Global) -> RegionData
        ensures tick { result.tick ≡ 0 }
        ensures owed { result.owed ≡ 0 }
        ensures tasks { result.queues.tasks ≡ [] }
        ensures contents { flat_of result.chunks ≡ nothing }
        ensures size { size_of_contents result.chunks ≡ 0 }
    {
        RegionData {
            tick: 0,
            owed: 0,
            queues: Queues::new(alloc),
            chunks: Chunks::new(alloc),
        }
    }

    /// Whether there is no task, no block and no entity.
    pub fn is_empty(&self) -> bool
        ensures empty { IsTrue result
            ↔ ((self.now.queues.tasks ≡ []) × (size_of_contents self.now.chunks ≡ 0)) }
        ensures nothing { IsTrue result → flat_of self.now.chunks ≡ nothing }
    {
        self.queues.is_empty() && self.chunks.is_empty()
    }

    /// How many tasks are on the chunks, which stand by z, and then by x, and how many blocks and entities lie in them.
    pub fn size_listed(&self, chunks: &[ChunkPos]) -> Size
        requires { IsStrictlySortedBy chunk_cmp chunks.now }
        ensures { result ≡ size_listed chunks.now self.now }
    {
        Size {
            tasks: self.queues.count_listed(chunks),
            things: self.chunks.size_listed(chunks),
        }
    }

    /// Makes room for so many more tasks, and so many more blocks or entities. All else stays either way.
    pub fn reserve(&mut self, n: Size) -> Result<(), AllocError>
        ensures tick { self.new.tick ≡ self.old.tick }
        ensures owed { self.new.owed ≡ self.old.owed }
        ensures tasks { self.new.queues.tasks ≡ self.old.queues.tasks }
        ensures contents { flat_of self.new.chunks ≡ flat_of self.old.chunks }
        ensures size { size_of_contents self.new.chunks ≡ size_of_contents self.old.chunks }
        ensures room_for_tasks { OnOk result (n.tasks ≤ self.new.queues.spare) }
        ensures room_for_things { OnOk result (n.things ≤ self.new.chunks.spare) }
        ensures spare_for_tasks { self.old.queues.spare ≤ self.new.queues.spare }
        ensures spare_for_things { self.old.chunks.spare ≤ self.new.chunks.spare }
    {
        self.queues.reserve(n.tasks)?;
        self.chunks.reserve(n.things)
    }

    /// Moves the tasks, blocks and entities on the chunks into the data of another region. The chunks stand by z, and then by x. Both
    /// counters and both owed numbers stay, and the deadlines of what moves follow the other counter, so that each task keeps its
    /// rest. Takes no memory.
    pub fn move_listed(&mut self, chunks: &[ChunkPos], into: &mut RegionData)
        requires order { IsStrictlySortedBy chunk_cmp chunks.now }
        requires tick { self.old.tick ≤ 2 ^ 62 }
        requires into_tick { into.old.tick ≤ 2 ^ 62 }
        requires in_time { (n : ℕ) → ForSome (dated self.old.queues n) (IsInTime self.old.tick) }
        requires into_in_time { (n : ℕ)
            → ForSome (dated into.old.queues n) (IsInTime into.old.tick) }
        requires tasks_apart { (n : ℕ)
            → IsTrue (is_none (dated into.old.queues n)
            || is_none (option_filter (lies_listed chunks.now) (dated self.old.queues n))) }
        requires contents_apart { Apart (flat_of into.old.chunks)
            (within (is_listed chunks.now) (flat_of self.old.chunks)) }
        requires room_for_tasks { count_listed chunks.now self.old.queues ≤ into.old.queues.spare }
        requires room_for_things { size_within (is_listed chunks.now) self.old.chunks
            ≤ into.old.chunks.spare }
        ensures tick { self.new.tick ≡ self.old.tick }
        ensures owed { self.new.owed ≡ self.old.owed }
        ensures into_tick { into.new.tick ≡ into.old.tick }
        ensures into_owed { into.new.owed ≡ into.old.owed }
        ensures stayed_tasks { dated self.new.queues ≡ λ n.
            option_filter (λ d. not (lies_listed chunks.now d)) (dated self.old.queues n) }
        ensures moved_tasks { dated into.new.queues ≡ λ n.
            option_or (dated into.old.queues n)
            (option_map (raised (offset_between self.old.tick into.old.tick))
            (option_filter (lies_listed chunks.now) (dated self.old.queues n))) }
        ensures stayed_rests { rests_of self.new ≡ λ n.
            option_filter (λ j. not (is_job_listed chunks.now j)) (rests_of self.old n) }
        ensures moved_rests { rests_of into.new ≡ λ n.
            option_or (rests_of into.old n)
            (option_filter (is_job_listed chunks.now) (rests_of self.old n)) }
        ensures in_time { (n : ℕ) → ForSome (dated self.new.queues n) (IsInTime self.new.tick) }
        ensures into_in_time { (n : ℕ)
            → ForSome (dated into.new.queues n) (IsInTime into.new.tick) }
        ensures stayed_contents { flat_of self.new.chunks
            ≡ outside (is_listed chunks.now) (flat_of self.old.chunks) }
        ensures moved_contents { flat_of into.new.chunks
            ≡ joined (flat_of into.old.chunks)
            (within (is_listed chunks.now) (flat_of self.old.chunks)) }
        ensures tasks_len { len_of self.new.queues + count_listed chunks.now self.old.queues
            ≡ len_of self.old.queues }
        ensures into_tasks_len { len_of into.new.queues
            ≡ len_of into.old.queues + count_listed chunks.now self.old.queues }
        ensures things_len { size_of_contents self.new.chunks
            + size_within (is_listed chunks.now) self.old.chunks
            ≡ size_of_contents self.old.chunks }
        ensures into_things_len { size_of_contents into.new.chunks
            ≡ size_of_contents into.old.chunks
            + size_within (is_listed chunks.now) self.old.chunks }
        ensures spare_for_tasks { self.old.queues.spare ≤ self.new.queues.spare }
        ensures spare_for_things { self.old.chunks.spare ≤ self.new.chunks.spare }
        ensures into_spare_for_tasks { into.old.queues.spare
            ≤ into.new.queues.spare + count_listed chunks.now self.old.queues }
        ensures into_spare_for_things { into.old.chunks.spare
            ≤ into.new.chunks.spare + size_within (is_listed chunks.now) self.old.chunks }
    {
        let offset = offset(self.tick, into.tick);
        self.queues.move_listed(chunks, &mut into.queues, offset);
        self.chunks.move_listed(chunks, &mut into.chunks);
    }
}
