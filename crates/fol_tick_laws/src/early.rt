//! Ticks that are made before their Begins are recorded, and what goes on meanwhile.

ghost use Rattle.std.specs.Prelude.{◌≡◌};
ghost use Rattle.fol_core.specs.Ahead.{NonePrepared};
ghost use Rattle.fol_core.specs.Meaning.{IsReadyToBegin};
ghost use Rattle.fol_tick_laws.specs.OpenTicks.{IsOpen, KeepsUntouched};
ghost use Rattle.fol_tick_laws.specs.Touching.{IsAlone, IsSpared};

use crate::tests::{AWAY, BETWEEN, Busy, ORIGIN};
use crate::unlisted_is_spared;
use fol_core::{Core, Posting};
use fol_data::Tick;
use fol_model::{
    Accept, Action, BlockPos, ChunkPos, EventRef, Loaded, PackedEntry, State, Unloaded,
};
use std::alloc::Global;
use std::process::Abort;

/// A chunk that is near to none.
const FAR: ChunkPos = ChunkPos { x: 50, z: 0 };

/// A block of that chunk.
const THERE: BlockPos = BlockPos { x: 800, y: 0, z: 0 };

/// An event on this chunk may touch these Ready regions.
fn touches(rt: &impl Abort, core: &mut Core, chunk: ChunkPos, regions: &[u64])
    ensures { core.new ≡ core.old }
{
    assert!(rt; chunk.in_range());
    match core.touched(chunk) {
        Ok(touched) => assert_eq!(rt; touched.as_slice(), regions),
        Err(_) => panic!(rt; "memory"),
    }
}

/// An event on the chunk of region 1 may touch that region alone, which is told whether it is Ready or not. Nothing is told of a chunk with no hold.
fn touches_alone(rt: &impl Abort, core: &Core) {
    assert_eq!(rt; core.touched_alone(ORIGIN), Some(1));
    assert_eq!(rt; core.touched_alone(BETWEEN), None);
}

/// The tick that region 1 has first, when one task is due in it.
fn is_first(rt: &impl Abort, tick: &Tick) {
    assert_eq!(rt; (tick.worker, tick.region, tick.begun), (0, 1, 4));
    assert_eq!(rt; tick.chunks.as_slice(), Some([ORIGIN].as_slice()));
    let [task] = tick.due.as_slice() else {
        panic!(rt; "one task is due");
    };
    assert_eq!(rt; (task.number, task.chunk), (1, ORIGIN));
    assert!(rt; matches!(task.action, Action::Load(c) if c == BETWEEN));
    assert_eq!(rt; (tick.body.tick, tick.body.owed), (0, 0));
    assert!(rt; tick.body.is_empty());
    assert!(rt; tick.log.ran.as_slice().is_empty());
    assert!(rt; tick.log.wishes.as_slice().is_empty());
    assert_eq!(rt; (tick.next, tick.moved), (0, false));
}

/// Takes the room that the next Begin of region 1 needs.
fn makes_ready(rt: &impl Abort, alloc: Global, core: &mut Core)
    requires none { NonePrepared core.old }
    ensures opening { core.new.opening ≡ core.old.opening }
    ensures none { NonePrepared core.new }
    ensures ready { IsReadyToBegin core.new 1 }
{
    assert!(rt; core.state(1).is_some());
    match core.reserve(alloc, 1) {
        Ok(()) => {}
        Err(_) => panic!(rt; "memory"),
    }
}

/// Makes the tick of region 1 and takes it back. The list that comes back may have no room for the due tasks; then the region is made ready once more.
fn takes_back(rt: &impl Abort, alloc: Global, core: &mut Core)
    requires ready { IsReadyToBegin core.old 1 }
    requires none { NonePrepared core.old }
    ensures opening { core.new.opening ≡ core.old.opening }
    ensures none { NonePrepared core.new }
    ensures ready { IsReadyToBegin core.new 1 }
{
    assert!(rt; !core.is_over());
    assert!(rt; core.next_owing(1) == Some(1));
    let early = core.prepare(1);
    is_first(rt, &early);
    assert_eq!(rt; core.state(1), Some(State::Ready));
    assert_eq!(rt; core.next_owing(1), Some(2));
    touches(rt, core, BETWEEN, &[1, 2]);
    if !core.withdraw(early) {
        makes_ready(rt, alloc, core);
    }
}

/// Makes the tick of region 1, takes it back, makes it once more, and then records its Begin by worker 1, to whom the tick is given.
fn begins_late(rt: &impl Abort, alloc: Global, core: &mut Core) -> Tick
    requires none { NonePrepared core.old }
    ensures opened { IsOpen core.new result }
    ensures opening { core.new.opening ≡ core.old.opening }
    ensures none { NonePrepared core.new }
{
    makes_ready(rt, alloc, core);
    takes_back(rt, alloc, core);
    assert!(rt; !core.is_over());
    assert!(rt; core.next_owing(1) == Some(1));
    let mut tick = core.prepare(1);
    is_first(rt, &tick);
    core.learn(0, 1, 1);
    assert_eq!(rt; core.state(1), Some(State::Ticking));
    tick.worker = 1;
    tick
}

#[test]
fn a_tick_is_made_before_its_begin_is_recorded(rt: HostRuntime) {
    let alloc = rt.alloc();
    let mut busy = Busy::start(&rt, alloc);
    busy.post_load(&rt);
    touches(&rt, &mut busy.core, BETWEEN, &[1, 2]);
    touches(&rt, &mut busy.core, ORIGIN, &[1]);
    touches(&rt, &mut busy.core, FAR, &[]);
    touches_alone(&rt, &busy.core);
    let tick = begins_late(&rt, alloc, &mut busy.core);
    touches(&rt, &mut busy.core, BETWEEN, &[2]);
    touches(&rt, &mut busy.core, ORIGIN, &[]);
    touches_alone(&rt, &busy.core);
    busy.end(&rt, alloc, tick);
    assert_eq!(&rt; busy.core.history().len(), 6);
    busy.states_are(&rt, [Some(State::Ready), Some(State::Ready), None]);
}

/// An event on this chunk may touch these regions. Region 1 is none of them, so the event spares it, which alone is prepared.
fn spares(rt: &impl Abort, core: &mut Core, chunk: ChunkPos, regions: &[u64])
    requires { IsAlone core.old 1 }
    ensures spared { IsSpared core.new chunk }
    ensures same { core.new ≡ core.old }
{
    assert!(rt; chunk.in_range());
    match core.touched(chunk) {
        Ok(touched) => {
            assert_eq!(rt; touched.as_slice(), regions);
            assert!(rt; !touched.as_slice().contains(&1));
        }
        Err(_) => panic!(rt; "memory"),
    }
    unlisted_is_spared();
}

/// Adds a ticket far away, which makes region 3.
fn loads_far(rt: &impl Abort, core: &mut Core)
    requires { IsAlone core.old 1 }
    ensures alone { IsAlone core.new 1 }
    ensures untouched { KeepsUntouched core.old core.new 1 }
{
    spares(rt, core, FAR, &[]);
    match core.load(0, FAR) {
        Ok(answer) => assert_eq!(rt; answer, Loaded::Counted),
        Err(_) => panic!(rt; "memory"),
    }
}

/// Posts a task far away.
fn posts_far(rt: &impl Abort, core: &mut Core)
    requires { IsAlone core.old 1 }
    ensures alone { IsAlone core.new 1 }
    ensures untouched { KeepsUntouched core.old core.new 1 }
{
    spares(rt, core, FAR, &[3]);
    match core.post(0, FAR, 1, Action::Set { at: THERE, id: 1 }) {
        Ok(Posting::Posted(number)) => assert_eq!(rt; number, 1),
        _ => panic!(rt; "the task is posted"),
    }
}

/// Takes the ticket far away.
fn unloads_far(rt: &impl Abort, core: &mut Core)
    requires { IsAlone core.old 1 }
    ensures alone { IsAlone core.new 1 }
    ensures untouched { KeepsUntouched core.old core.new 1 }
{
    spares(rt, core, FAR, &[3]);
    match core.unload(0, FAR) {
        Ok(answer) => assert_eq!(rt; answer, Unloaded::Lowered),
        Err(_) => panic!(rt; "memory"),
    }
}

/// Makes the tick of region 1. Then a chunk far away is loaded, posted to and unloaded, and the Begin is recorded, by worker 1.
fn begins_after_others(rt: &impl Abort, alloc: Global, core: &mut Core) -> Tick
    requires none { NonePrepared core.old }
    ensures opened { IsOpen core.new result }
    ensures opening { core.new.opening ≡ core.old.opening }
    ensures none { NonePrepared core.new }
{
    assert!(rt; core.state(1).is_some());
    match core.reserve(alloc, 1) {
        Ok(()) => {}
        Err(_) => panic!(rt; "memory"),
    }
    assert!(rt; !core.is_over());
    assert!(rt; core.next_owing(1) == Some(1));
    let mut tick = core.prepare(1);
    loads_far(rt, core);
    posts_far(rt, core);
    unloads_far(rt, core);
    assert!(rt; !core.is_over());
    core.learn(0, 1, 1);
    tick.worker = 1;
    tick
}

/// The history has these entries: both regions and the phase, what was done far away, and the tick of region 1.
fn are_all(rt: &impl Abort, entries: &[PackedEntry]) {
    let [first, second, phase, load, post, unload, begin, end] = entries else {
        panic!(rt; "there are eight entries");
    };
    assert!(rt; is_load(first.event(), ORIGIN));
    assert!(rt; is_load(second.event(), AWAY));
    assert!(rt; matches!(phase.event(), EventRef::PhaseOpen(1)));
    assert!(rt; is_load(load.event(), FAR));
    assert!(rt; is_post(post.event()));
    assert!(rt; is_unload(unload.event()));
    assert!(rt;
        matches!(
            begin.event(),
            EventRef::Begin {
                worker: 1,
                region: 1
            }
        )
    );
    assert!(rt; is_end(end.event()));
}

/// A ticket was added to the chunk.
fn is_load(event: EventRef, c: ChunkPos) -> bool {
    matches!(event, EventRef::Load { caller: 0, chunk, answer: Loaded::Counted } if chunk == c)
}

/// The task far away was posted, under number 1.
fn is_post(event: EventRef) -> bool {
    match event {
        EventRef::Post {
            caller: 0,
            chunk,
            delay: 1,
            action: Action::Set { at, id: 1 },
            answer: Accept::Posted(1),
        } => chunk == FAR && *at == THERE,
        _ => false,
    }
}

/// The ticket far away was taken.
fn is_unload(event: EventRef) -> bool {
    matches!(event, EventRef::Unload { caller: 0, chunk, answer: Unloaded::Lowered } if chunk == FAR)
}

/// The first tick of region 1 was ended by worker 1; no task ran.
fn is_end(event: EventRef) -> bool {
    match event {
        EventRef::End {
            worker: 1,
            region: 1,
            tick: 1,
            ran,
            accepts,
        } => ran.is_empty() && accepts.is_empty(),
        _ => false,
    }
}

#[test]
fn events_far_away_spare_a_prepared_region(rt: HostRuntime) {
    let alloc = rt.alloc();
    let mut busy = Busy::start(&rt, alloc);
    let tick = begins_after_others(&rt, alloc, &mut busy.core);
    assert_eq!(&rt; (tick.worker, tick.region, tick.begun), (1, 1, 3));
    busy.states_are(&rt, [State::Ticking, State::Ready, State::Ready].map(Some));
    busy.end(&rt, alloc, tick);
    are_all(&rt, busy.core.history());
    busy.states_are(&rt, [State::Ready, State::Ready, State::Ready].map(Some));
}
