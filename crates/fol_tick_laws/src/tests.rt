//! Small worlds, event by event: what becomes of the regions beside ticks that are open.

ghost use Rattle.std.specs.Prelude.{◌≡◌, ◌≢◌};
ghost use Rattle.fol_core.specs.Ahead.{NonePrepared};
ghost use Rattle.fol_core.specs.Answers.{Begins};
ghost use Rattle.fol_world.specs.AtEnd.{end_event};
ghost use Rattle.fol_core.specs.Meaning.{Meaning, Records, world_of};
ghost use Rattle.fol_core.specs.Ticks.{IsOut};
ghost use Rattle.fol_tick_laws.specs.OpenTicks.{IsOpen, KeepsOpen, KeepsOthers};

use fol_core::{BeginAnswer, Close, Core, Phase, Posting};
use fol_data::Tick;
use fol_model::{
    Action, BlockPos, ChunkPos, Closing, Grid, Loaded, Opening, RegionRow, SectionPos, Sequence,
    State,
};
use fol_tick::{ListHost, run_tick};
use std::alloc::Global;
use std::marker::Model;
use std::process::Abort;

/// The chunk of region 1.
pub(crate) const ORIGIN: ChunkPos = ChunkPos { x: 0, z: 0 };

/// The chunk of region 2.
pub(crate) const AWAY: ChunkPos = ChunkPos { x: 6, z: 0 };

/// The chunk between both, which is near to each.
pub(crate) const BETWEEN: ChunkPos = ChunkPos { x: 3, z: 0 };

/// Nothing but sections of one chunk, with a create radius and a merge radius of 1.
fn opening(rt: &impl Abort, alloc: Global) -> Opening {
    let grid = Grid::of(0, 1, 1, 2, 1, 6).expect(rt, "the grid is within the limits");
    Opening {
        version: 1,
        grid,
        blocks: Sequence::new(alloc),
        entities: Sequence::new(alloc),
    }
}

/// A core in which ticks may be open and no region is prepared. Contracts see its meaning.
#[derive(Drop)]
pub(crate) struct Busy {
    pub(crate) core: Core,
}

impl Model for Busy {
    ghost use Rattle.fol_model.specs.GridNumbers.{IsGrid};
    ghost use Rattle.fol_core.specs.Ahead.{NonePrepared};
    ghost use Rattle.fol_core.specs.Meaning.{Meaning};

    ghost Value = { Meaning };

    ghost view = { λ s. s.core };

    ghost invariant = { λ s. IsGrid s.core.opening.grid × NonePrepared s.core };
}

impl Busy {
    /// The world of an opening, before any event.
    fn of(rt: &impl Abort, alloc: Global, opening: Opening) -> Busy {
        // A proof learns where a field is read that the numbers of the grid are within their limits.
        let _grid = opening.grid;
        let core = Core::start(alloc, opening).expect(rt, "memory");
        Busy { core }
    }

    /// Regions 1 and 2, each of one chunk, which owe one tick each.
    pub(crate) fn start(rt: &impl Abort, alloc: Global) -> Busy {
        let mut busy = Busy::of(rt, alloc, opening(rt, alloc));
        busy.load(rt, 0, ORIGIN);
        busy.load(rt, 0, AWAY);
        busy.open_phase(rt);
        busy
    }

    /// Adds a ticket to a chunk.
    fn load(&mut self, rt: &impl Abort, caller: u32, chunk: ChunkPos)
        ensures { KeepsOpen self.old self.new }
    {
        assert!(rt; chunk.in_range());
        match self.core.load(caller, chunk) {
            Ok(answer) => assert_eq!(rt; answer, Loaded::Counted),
            Err(_) => panic!(rt; "memory"),
        }
    }

    /// Posts task 1, on the chunk between both regions, which sets a block in the second tick from now.
    fn post_set(&mut self, rt: &impl Abort)
        ensures { KeepsOpen self.old self.new }
    {
        let at = BlockPos { x: 48, y: 0, z: 0 };
        let action = Action::Set { at, id: 1 };
        match self.core.post(0, BETWEEN, 2, action) {
            Ok(Posting::Posted(number)) => assert_eq!(rt; number, 1),
            _ => panic!(rt; "the task is posted"),
        }
    }

    /// Posts task 1, on the chunk of region 1, which asks in the next tick for a ticket to the chunk beside that region.
    pub(crate) fn post_load(&mut self, rt: &impl Abort)
        ensures { KeepsOpen self.old self.new }
    {
        let action = Action::Load(BETWEEN);
        match self.core.post(0, ORIGIN, 1, action) {
            Ok(Posting::Posted(number)) => assert_eq!(rt; number, 1),
            _ => panic!(rt; "the task is posted"),
        }
    }

    /// Opens a phase of one tick.
    fn open_phase(&mut self, rt: &impl Abort)
        ensures { KeepsOpen self.old self.new }
    {
        assert!(rt; self.core.phase_ticks() < 10_000);
        match self.core.open_phase(0, 1) {
            Ok(answer) => assert_eq!(rt; answer, Phase::Opened),
            Err(_) => panic!(rt; "memory"),
        }
    }

    /// Closes the phase, where that can be.
    fn close_phase(&mut self, rt: &impl Abort) -> Close {
        match self.core.close_phase(0) {
            Ok(answer) => answer,
            Err(_) => panic!(rt; "memory"),
        }
    }

    /// Asks for a tick of a region.
    fn ask(&mut self, rt: &impl Abort, alloc: Global, worker: u32, region: u64) -> BeginAnswer
        ensures begins { (reserved : Meaning)
            × Begins reserved self.new worker worker region result }
        ensures kept { KeepsOpen self.old self.new }
    {
        assert!(rt; self.core.state(region).is_some());
        match self.core.reserve(alloc, region) {
            Ok(()) => self.core.begin(worker, worker, region),
            Err(_) => panic!(rt; "memory"),
        }
    }

    /// Begins a tick of a region.
    fn begin(&mut self, rt: &impl Abort, alloc: Global, worker: u32, region: u64) -> Tick
        ensures opened { IsOpen self.new result }
        ensures region { result.region ≡ region }
        ensures kept { KeepsOpen self.old self.new }
    {
        match self.ask(rt, alloc, worker, region) {
            BeginAnswer::Got(tick) => tick,
            _ => panic!(rt; "the region owes a tick"),
        }
    }

    /// Runs an open tick, of whose tasks each load counts, and ends it.
    pub(crate) fn end(&mut self, rt: &impl Abort, alloc: Global, mut tick: Tick)
        requires { IsOpen self.old tick }
        ensures { KeepsOthers self.old self.new tick.region }
    {
        let _entries = self.core.history();
        let mut host = ListHost::of(Vec::new(alloc));
        match run_tick(alloc, &mut tick, &mut host) {
            Ok(()) => self.give_back(rt, alloc, tick),
            Err(_) => panic!(rt; "memory"),
        }
    }

    /// Ends a tick that has run, in memory that was taken before.
    fn give_back(&mut self, rt: &impl Abort, alloc: Global, tick: Tick)
        requires { IsOut self.old tick }
        ensures { Records self.old self.new tick.worker
            (end_event (world_of self.old) tick.worker tick.region tick.log.ran) }
    {
        let mut tick = tick;
        match self.core.reserve_release(alloc, &mut tick) {
            Ok(()) => {}
            Err(_) => panic!(rt; "memory"),
        }
        match self.core.release(alloc, tick) {
            Ok(_) => {}
            Err(_) => unreachable!(),
        }
    }

    /// The first three regions have these states.
    pub(crate) fn states_are(&self, rt: &impl Abort, states: [Option<State>; 3]) {
        assert_eq!(rt;
            [self.core.state(1), self.core.state(2), self.core.state(3)],
            states
        );
    }

    /// How many sections a region owns.
    fn owned(&self, region: u64) -> u32 {
        let mut count: u32 = 0;
        for x in -2..9 {
            for z in -2..3 {
                if self.core.owner(SectionPos { x, z }) == Some(region) {
                    count = count.saturating_add(1);
                }
            }
        }
        count
    }
}

/// The world is closed: one region is left, with all sections and chunks, after one tick.
fn closing_of(rt: &impl Abort, alloc: Global, busy: Busy, id: u64, owed: u32) -> Closing {
    let Busy { core } = busy;
    let closing = core.closing(alloc).expect(rt, "memory");
    let row = RegionRow {
        id,
        state: State::Ready,
        tick: 1,
        owed,
        sections: 27,
        chunks: 3,
    };
    assert_eq!(rt; closing.regions.as_slice(), [row].as_slice());
    let owners = closing.owners.as_slice();
    assert_eq!(rt; owners.len(), 27);
    assert!(rt; owners.iter().all(|owner| owner.region == id));
    closing
}

/// The one task waits for the second tick from now.
fn task_rests(rt: &impl Abort, closing: &Closing) {
    let [row] = closing.tasks.as_slice() else {
        panic!(rt; "there is one task");
    };
    assert_eq!(rt; (row.task.number, row.rest), (1, 2));
}

#[test]
fn what_a_tick_loads_waits_for_its_end(rt: HostRuntime) {
    let alloc = rt.alloc();
    let mut busy = Busy::of(&rt, alloc, opening(&rt, alloc));
    busy.load(&rt, 0, ORIGIN);
    busy.post_load(&rt);
    busy.open_phase(&rt);
    let tick = busy.begin(&rt, alloc, 1, 1);
    // The worker of the tick hands on what its task asks for.
    busy.load(&rt, 1, BETWEEN);
    busy.states_are(&rt, [Some(State::Ticking), Some(State::Transient), None]);
    busy.end(&rt, alloc, tick);
    busy.states_are(&rt, [Some(State::Ready), Some(State::Dead), None]);
    assert_eq!(rt; busy.owned(1), 18);
}

#[test]
fn the_first_tick_ends_last(rt: HostRuntime) {
    let alloc = rt.alloc();
    let mut busy = Busy::start(&rt, alloc);
    let first = busy.begin(&rt, alloc, 1, 1);
    let second = busy.begin(&rt, alloc, 2, 2);
    busy.load(&rt, 1, BETWEEN);
    busy.post_set(&rt);
    busy.end(&rt, alloc, second);
    busy.states_are(
        &rt,
        [State::Ticking, State::Transient, State::Dead].map(Some),
    );
    busy.end(&rt, alloc, first);
    busy.states_are(&rt, [State::Ready, State::Dead, State::Dead].map(Some));
    task_rests(&rt, &closing_of(&rt, alloc, busy, 1, 0));
}

#[test]
fn a_region_beside_a_tick_waits_for_its_end(rt: HostRuntime) {
    let alloc = rt.alloc();
    let mut busy = Busy::start(&rt, alloc);
    let tick = busy.begin(&rt, alloc, 1, 1);
    busy.load(&rt, 1, BETWEEN);
    assert_eq!(rt; busy.owned(2), 18);
    match busy.ask(&rt, alloc, 2, 2) {
        BeginAnswer::NotReady(State::Transient) => {}
        _ => panic!(&rt; "region 2 waits for region 1"),
    }
    busy.end(&rt, alloc, tick);
    assert_eq!(rt; busy.core.next_owing(1), Some(1));
    assert_eq!(rt; busy.close_phase(&rt), Close::NotYet(1));
    closing_of(&rt, alloc, busy, 1, 1);
}

/// A phase of three ticks, which are quiet ones in region 1: two of them are passed over, and then the one that is left.
fn passes_three(rt: &impl Abort, core: &mut Core) {
    assert!(rt; core.phase_ticks() < 9_998);
    match core.open_phase(0, 3) {
        Ok(answer) => assert_eq!(rt; answer, Phase::Opened),
        Err(_) => panic!(rt; "memory"),
    }
    assert_eq!(rt; core.pass(1, 1, 2), 2);
    assert_eq!(rt; core.pass(1, 1, 64), 1);
    assert_eq!(rt; core.next_owing(1), None);
}

#[test]
fn ticks_in_which_nothing_happens_are_passed_over(rt: HostRuntime) {
    let alloc = rt.alloc();
    let mut busy = Busy::of(&rt, alloc, opening(&rt, alloc));
    busy.load(&rt, 0, ORIGIN);
    busy.open_phase(&rt);
    let tick = busy.begin(&rt, alloc, 1, 1);
    busy.end(&rt, alloc, tick);
    assert_eq!(rt; busy.close_phase(&rt), Close::Closed);
    let Busy { mut core } = busy;
    passes_three(&rt, &mut core);
}
