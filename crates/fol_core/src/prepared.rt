//! Ticks that are made before their Begins are recorded, and what an event may touch meanwhile.

ghost use Rattle.std.specs.Prelude.{ℕ, ◌≡◌, ◌≤◌, ◌<◌, ◌&&◌, ◌↔◌, true, false, [], filter, length, nat_eq, IfOk, IfSome, IsSome, IsTrue};
ghost use Rattle.fol_model.specs.Geometry.{is_chunk, section_of as section_around};
ghost use Rattle.fol_model.specs.GridState.{is_ready};
ghost use Rattle.fol_model.specs.Universe.{numbers_below};
ghost use Rattle.fol_regions.specs.Table.{grid_state};
ghost use Rattle.fol_regions.specs.Touched.{is_touched};
ghost use Rattle.fol_store.specs.Stock.{bag_of};
ghost use Rattle.fol_core.specs.Ahead.{Learns, NonePrepared, PreparedAreReady, Prepares, Withdraws, may_touch};
ghost use Rattle.fol_core.specs.Answers.{is_free, is_over};
ghost use Rattle.fol_core.specs.Meaning.{IsReadyToBegin, Nothing, Stays, is_prepared, mark_count, world_of};
ghost use Rattle.fol_core.specs.Ticks.{IsTick};
ghost use Rattle.fol_core.specs.Undone.{IsRoomAgain};

use crate::machine::{Core, Room};
use crate::ticks::due_room;
use crate::undone::undo;
use fol_data::Tick;
use fol_model::{ChunkPos, Event, PackedEntry, SectionPos, Sequence, State, Task, section_of};
use fol_regions::Regions;
use fol_world::begins::{blank, hand_out};
use fol_world::tables::Tables;
use std::alloc::{AllocError, Global};

impl Core {
    /// The Ready regions, prepared ones among them, that an event on this chunk may touch, rising: the one that owns the section of the
    /// chunk and, where an added hold would make sections present, those near it. Looks where a load does, never at all regions. Fails
    /// only when out of memory. Each prepared region is Ready, so one that is not among them is not touched. The core keeps what it found for
    /// a load of the chunk that follows; it stays ready for what it was ready for. Takes memory for the list alone.
    pub fn touched(&mut self, c: ChunkPos) -> Result<Vec<u64>, AllocError>
        requires in_range { IsTrue (is_chunk c) }
        ensures same { self.new ≡ self.old }
        ensures ready { PreparedAreReady self.old }
        ensures listed { IfOk result (λ ids. ids.items ≡ filter (may_touch (world_of self.old) c)
            (numbers_below (world_of self.old).grid.next)) }
    {
        let home = section_of(&self.tables.grid, c);
        let mut ids = list_touched(self.alloc, &mut self.tables.regions, home, c)?;
        ids.retain(|id| self.is_ready(*id));
        Ok(ids)
    }

    /// The one region that an event on this chunk may touch, where a hold is on the chunk: the owner of its section, which is touched if it is
    /// Ready. `None` exactly where no hold is on it; then `touched` says which regions may be touched. Looks at no other region, and takes
    /// no memory. Each prepared region is Ready.
    pub fn touched_alone(&self, c: ChunkPos) -> Option<u64>
        ensures ready { PreparedAreReady self.now }
        ensures held { IsSome result ↔ (0 < (world_of self.now).grid.holds c) }
        ensures owner { IfSome result (λ id. id ≡ (world_of self.now).grid.owner
            (section_around (world_of self.now).grid.grid c)) }
        ensures alone { IfSome result (λ id. (r : ℕ) → may_touch (world_of self.now) c r
            ≡ (is_ready ((world_of self.now).grid.state r) && nat_eq id r)) }
    {
        let home = section_of(&self.tables.grid, c);
        owner_if_held(&self.tables.regions, home, c)
    }

    /// How many regions are prepared. Where it is 0, none is.
    pub fn prepared_count(&self) -> u64
        ensures count { result ≡ mark_count self.now.prepared }
        ensures none { result ≡ 0 → NonePrepared self.now }
    {
        self.marks.count()
    }

    /// Whether a region is Ready after the history.
    fn is_ready(&self, id: u64) -> bool
        ensures { result ≡ is_ready ((world_of self.now).grid.state id) }
    {
        if self.marks.has(id) {
            return true;
        }
        match self.tables.regions.state(id) {
            Some(State::Ready) => true,
            _ => false,
        }
    }

    /// Makes the tick of a Ready region that owes one, before its Begin is recorded: that of a Begin at this place, by worker 0. Nothing is
    /// recorded. The region is prepared until `learn` records its Begin or `withdraw` takes the tick back, and till then no other call
    /// may touch it. It has to be ready to begin, by `reserve`. Takes no memory.
    pub fn prepare(&mut self, id: u64) -> Tick
        requires on { is_over (world_of self.old) ≡ false }
        requires free { is_free self.old id ≡ true }
        requires ready { IsReadyToBegin self.old id }
        ensures tick { IsTick (world_of self.old) (length self.old.history) 0 id result }
        ensures room { length result.due ≤ result.body.queues.spare }
        ensures prepared { Prepares self.old self.new id }
    {
        let mut tick = blank(self.alloc);
        self.prepare_in(id, &mut tick);
        tick
    }

    /// The same in the place of this tick, whatever was in it. An empty list for wishes there keeps its memory.
    pub fn prepare_in(&mut self, id: u64, tick: &mut Tick)
        requires on { is_over (world_of self.old) ≡ false }
        requires free { is_free self.old id ≡ true }
        requires ready { IsReadyToBegin self.old id }
        ensures tick { IsTick (world_of self.old) (length self.old.history) 0 id tick.new }
        ensures room { length tick.new.due ≤ tick.new.body.queues.spare }
        ensures prepared { Prepares self.old self.new id }
    {
        let begun = self.history.as_slice().len() as u64;
        let room = due_room(self.room.take());
        hand_out(self.alloc, &mut self.tables, id, room, tick);
        tick.worker = 0;
        tick.begun = begun;
        self.tables.course.size += 1;
        self.marks.add(id);
    }

    /// Records the Begin of a prepared region, whose tick is out already, by this worker. The region is prepared no more. Its tick counts as
    /// given out by `begin`, once its `worker` is this one. Takes no memory.
    pub fn learn(&mut self, by: u32, worker: u32, id: u64)
        requires on { is_over (world_of self.old) ≡ false }
        requires prepared { is_prepared self.old id ≡ true }
        ensures { Learns self.old self.new by worker id }
    {
        self.marks.remove(id);
        let event = Event::Begin { worker, region: id };
        self.history.push_reserved(PackedEntry::light(by, event));
    }

    /// Takes the tick of a prepared region back, unchanged since `prepare`. The region is prepared no more, and all is as it was before
    /// it was prepared. Returns whether the region is ready to begin again; it is not where what lies on its chunks has to be gathered
    /// first, where the list that comes back is too short for the due tasks, nor once the history is over. Takes no memory, and costs the due tasks of the tick.
    pub fn withdraw(&mut self, tick: Tick) -> bool
        requires prepared { is_prepared self.old tick.region ≡ true }
        requires tick { IsTick (world_of self.old) tick.begun 0 tick.region tick }
        requires room { length tick.due ≤ tick.body.queues.spare }
        ensures withdrawn { Withdraws self.old self.new tick.region }
        ensures ready { IsTrue result → IsReadyToBegin self.new tick.region }
    {
        let mut tick = tick;
        self.take_back(&mut tick)
    }

    /// The same where the tick stands, but the core is ready for nothing then. The list of due tasks keeps its memory there, emptied; nothing else is
    /// left in the tick that is worth keeping.
    pub fn withdraw_in(&mut self, tick: &mut Tick)
        requires prepared { is_prepared self.old tick.old.region ≡ true }
        requires tick { IsTick (world_of self.old) tick.old.begun 0 tick.old.region tick.old }
        requires room { length tick.old.due ≤ tick.old.body.queues.spare }
        ensures withdrawn { Withdraws self.old self.new tick.old.region }
        ensures empty { tick.new.due ≡ [] }
        ensures unready { self.new.room ≡ Nothing }
    {
        let _is_ready = self.take_back(tick);
        tick.due = Sequence::of(self.give_up_room());
    }

    /// Takes a tick back as `withdraw` does. Nothing is left in it that is worth keeping.
    fn take_back(&mut self, tick: &mut Tick) -> bool
        requires prepared { is_prepared self.old tick.old.region ≡ true }
        requires tick { IsTick (world_of self.old) tick.old.begun 0 tick.old.region tick.old }
        requires room { length tick.old.due ≤ tick.old.body.queues.spare }
        ensures withdrawn { Withdraws self.old self.new tick.old.region }
        ensures ready { IsTrue result → IsReadyToBegin self.new tick.old.region }
    {
        let id = tick.region;
        self.marks.remove(id);
        let due = undo(self.alloc, &mut self.tables, tick);
        self.tables.course.size -= 1;
        self.room = room_again(&self.tables, id, due);
        self.room.is_some()
    }

    /// Gives up what was taken for the next Begin or End. Returns the list that was taken for due tasks, where there is one; it is empty.
    fn give_up_room(&mut self) -> Vec<Task>
        ensures stays { Stays self.old self.new }
        ensures empty { result.items ≡ [] }
        ensures unready { self.new.room ≡ Nothing }
    {
        match self.room.take() {
            Some(Room::Begin { id: _, due }) => due,
            Some(Room::End { .. }) => Vec::new(self.alloc),
            None => Vec::new(self.alloc),
        }
    }
}

/// The regions that an event on a chunk of this section may touch, rising.
fn list_touched(
    alloc: Global,
    regions: &mut Regions,
    home: SectionPos,
    c: ChunkPos,
) -> Result<Vec<u64>, AllocError>
    requires in_range { IsTrue (is_chunk c) }
    requires home { home ≡ section_around (grid_state regions.old).grid c }
    ensures listed { IfOk result (λ ids. ids.items ≡ filter (is_touched (grid_state regions.old) c)
        (numbers_below (grid_state regions.old).next)) }
    ensures same { regions.new ≡ regions.old }
{
    let Some(id) = owner_if_held(regions, home, c) else {
        return regions.touched(alloc, c);
    };
    let mut ids = Vec::new(alloc);
    ids.push(id)?;
    Ok(ids)
}

/// The owner of this section, where a hold is on this chunk of it. No event on the chunk touches another region then, since an added hold makes no
/// section present.
fn owner_if_held(regions: &Regions, home: SectionPos, c: ChunkPos) -> Option<u64>
    requires home { home ≡ section_around (grid_state regions.now).grid c }
    ensures held { IsSome result ↔ (0 < (grid_state regions.now).holds c) }
    ensures owner { IfSome result (λ id. id ≡ (grid_state regions.now).owner
        (section_around (grid_state regions.now).grid c)) }
    ensures given { IfSome result (λ id. id < (grid_state regions.now).next) }
    ensures alone { IfSome result (λ id. (r : ℕ) → is_touched (grid_state regions.now) c r
        ≡ nat_eq id r) }
{
    if regions.holds(c) == 0 {
        return None;
    }
    regions.keeps_rules();
    regions.owner(home)
}

/// The room for the next Begin of a region whose tick came back, with the list of its due tasks, which is empty.
fn room_again(tables: &Tables, id: u64, due: Vec<Task>) -> Option<Room>
    requires here { (bag_of tables.now.store id).here ≡ true }
    requires empty { due.items ≡ [] }
    ensures { IfSome result (IsRoomAgain tables.now id) }
{
    if tables.course.is_over() || !tables.store.is_whole(id) {
        return None;
    }
    if tables.store.most_due(id) > due.capacity() as u64 {
        return None;
    }
    Some(Room::Begin { id, due })
}
