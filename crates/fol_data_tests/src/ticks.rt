//! Ticks whose tasks load, act, and repeat.

ghost use Rattle.std.specs.Prelude.{◌≡◌, [], ◌∷◌, ◌⊎◌, pos, All, IsTrue, IsNone, IfOk};
ghost use Rattle.std.specs.List.Sorted.{IsStrictlySortedBy};
ghost use Rattle.fol_model.specs.Geometry.{is_chunk};
ghost use Rattle.fol_model.specs.Limits.{is_action};
ghost use Rattle.fol_model.specs.FlatTick.{Rising};
ghost use Rattle.fol_model.specs.Nesting.{deed_of};
ghost use Rattle.fol_chunks.specs.Order.{chunk_cmp};
ghost use Rattle.fol_chunks.specs.Contents.{flat_of};
ghost use Rattle.fol_tick.specs.Runs.{MayRun, arrivals};

use fol_chunks::Chunks;
use fol_data::{RegionData, Size, Tick};
use fol_keyed::ChunkSet;
use fol_model::{
    Action, BlockPos, ChunkPos, Entity, Nested, Outcome, Ran, Sequence, Task, TickLog, Unloaded,
    Wish,
};
use fol_tick::{HostAnswer, ListHost, run_tick};
use std::alloc::{AllocError, Global};

const HERE: BlockPos = BlockPos { x: 3, y: 64, z: 0 };

const BESIDE: BlockPos = BlockPos { x: 4, y: 64, z: 0 };

/// In chunk 2, which no tick here has recorded.
const FOREIGN: BlockPos = BlockPos { x: 32, y: 64, z: 0 };

const AWAY: ChunkPos = ChunkPos { x: 9, z: 9 };

/// A task on chunk 0.
fn task(number: u64, action: Action) -> Task
    ensures { result ≡ record {
      number = number;
      chunk = record { x = pos 0; z = pos 0 };
      action = action;
    } }
{
    Task {
        number,
        chunk: ChunkPos { x: 0, z: 0 },
        action,
    }
}

/// Walks one chunk a tick, and stands where the second step would leave chunk 1.
fn walker(id: u32) -> Entity
    ensures { result ≡ record {
      id = id;
      at = record { x = pos 15; y = pos 64; z = pos 1 };
      vx = pos 16;
      vz = pos 0;
    } }
{
    Entity {
        id,
        at: BlockPos { x: 15, y: 64, z: 1 },
        vx: 16,
        vz: 0,
    }
}

/// A region with one entity.
fn region(alloc: Global) -> Result<RegionData, AllocError>
    ensures { IfOk result (λ region. IsNone ((flat_of region.chunks).standing 2)) }
{
    let mut region = RegionData::new(alloc);
    region.reserve(Size {
        tasks: 0,
        things: 1,
    })?;
    region.chunks.put_entity(walker(1));
    Ok(region)
}

/// The recorded chunks.
fn chunks(alloc: Global) -> Result<ChunkSet, AllocError>
    ensures order { IfOk result (IsStrictlySortedBy chunk_cmp) }
    ensures places { IfOk result (All (λ c. IsTrue (is_chunk c))) }
{
    let chunks = vec![in alloc; ChunkPos { x: 0, z: 0 }, ChunkPos { x: 1, z: 0 }]?;
    Ok(ChunkSet::of(alloc, chunks))
}

/// A tick of a region with the chunks 0 and 1 and one entity, in which these tasks are due. No entity but the one with id 2 arrives.
fn tick_of(alloc: Global, due: Vec<Task>) -> Result<Tick, AllocError>
    requires order { Rising due.items }
    requires limits { All (λ t. IsTrue (is_action t.action)) due.items }
    requires arrivals { (arrivals due.items ≡ []) ⊎ (arrivals due.items ≡ 2 ∷ []) }
    ensures { IfOk result MayRun }
{
    let chunks = chunks(alloc)?;
    tick_on(alloc, chunks, due)
}

/// A tick of a region with these chunks and one entity, in which these tasks are due. No entity but the one with id 2 arrives.
fn tick_on(alloc: Global, chunks: ChunkSet, due: Vec<Task>) -> Result<Tick, AllocError>
    requires chunks_order { IsStrictlySortedBy chunk_cmp chunks }
    requires chunks_places { All (λ c. IsTrue (is_chunk c)) chunks }
    requires order { Rising due.items }
    requires limits { All (λ t. IsTrue (is_action t.action)) due.items }
    requires arrivals { (arrivals due.items ≡ []) ⊎ (arrivals due.items ≡ 2 ∷ []) }
    ensures { IfOk result MayRun }
{
    let body = region(alloc)?;
    Ok(Tick {
        worker: 1,
        region: 1,
        begun: 0,
        chunks,
        due: Sequence::of(due),
        body,
        log: TickLog {
            ran: Sequence::new(alloc),
            wishes: Sequence::new(alloc),
        },
        next: 0,
        moved: false,
    })
}

fn done(number: u64) -> Ran {
    Ran {
        number,
        outcome: Outcome::Done,
    }
}

/// One load.
fn one_load(alloc: Global) -> Result<Vec<Task>, AllocError>
    ensures order { IfOk result (λ tasks. Rising tasks.items) }
    ensures limits { IfOk result (λ tasks. All (λ t. IsTrue (is_action t.action)) tasks.items) }
    ensures arrivals { IfOk result (λ tasks. arrivals tasks.items ≡ []) }
{
    Ok(vec![in alloc; task(1, Action::Load(AWAY))]?)
}

/// Whether the host finds no memory for the task in the first call, and the next call runs it.
fn runs_again(alloc: Global, tick: &mut Tick, host: &mut ListHost) -> Result<bool, AllocError>
    requires { MayRun tick.old }
{
    let Err(_) = run_tick(alloc, tick, host) else {
        return Ok(false);
    };
    let is_left = tick.next == 0;
    run_tick(alloc, tick, host)?;
    Ok(
        is_left
            && tick.log.ran.as_slice() == [done(1)].as_slice()
            && tick.log.wishes.is_empty()
            && tick.moved,
    )
}

/// Whether a tick of one load does, where the host finds no memory once.
fn loads_again(alloc: Global) -> Result<bool, AllocError> {
    let mut host = ListHost::of(vec![in alloc; HostAnswer::NoMemory]?);
    let mut tick = tick_of(alloc, one_load(alloc)?)?;
    runs_again(alloc, &mut tick, &mut host)
}

/// The host finds no memory for the only task; the next call runs it.
#[test]
fn a_load_that_finds_no_memory_runs_in_the_next_call(rt: HostRuntime) -> Result<(), AllocError> {
    let is_right = loads_again(rt.alloc())?;
    assert!(rt; is_right);
    Ok(())
}

/// Tasks of every kind but posts and repeats.
fn plain_tasks(alloc: Global) -> Result<Vec<Task>, AllocError>
    ensures order { IfOk result (λ tasks. Rising tasks.items) }
    ensures limits { IfOk result (λ tasks. All (λ t. IsTrue (is_action t.action)) tasks.items) }
    ensures arrivals { IfOk result (λ tasks. arrivals tasks.items ≡ 2 ∷ []) }
{
    Ok(vec![in alloc;
        task(1, Action::Set { at: FOREIGN, id: 7 }),
        task(2, Action::Set { at: HERE, id: 7 }),
        task(
            3,
            Action::Copy {
                at: HERE,
                to: BESIDE
            }
        ),
        task(
            4,
            Action::Copy {
                at: FOREIGN,
                to: HERE
            }
        ),
        task(
            5,
            Action::Send {
                entity: 1,
                to: FOREIGN
            }
        ),
        task(
            6,
            Action::Send {
                entity: 1,
                to: HERE
            }
        ),
        task(7, Action::Arrive(walker(2))),
        task(8, Action::Unload(AWAY)),
    ]?)
}

/// The outcomes of these tasks.
const OUTCOMES: [Outcome; 8] = [
    Outcome::Foreign,
    Outcome::Done,
    Outcome::Done,
    Outcome::Foreign,
    Outcome::Done,
    Outcome::Absent,
    Outcome::Done,
    Outcome::NoTicket,
];

/// Whether these are the outcomes, and the only wish is the arrival of the entity that was sent.
fn tells_all(log: &TickLog) -> bool {
    let outcomes = log.ran.as_slice().iter().map(|entry| entry.outcome);
    let wishes = log.wishes.as_slice();
    outcomes.eq(OUTCOMES.iter().copied())
        && wishes.len() == 1
        && wishes[0].delay == 1
        && wishes[0].back == Some(walker(1).at)
}

/// Whether the blocks have the numbers that were set and copied, and the entity that arrived stands alone, at the border.
fn is_moved(alloc: Global, chunks: &Chunks) -> Result<bool, AllocError> {
    let mut blocks = Vec::new(alloc);
    chunks.add_blocks_to(&mut blocks)?;
    let mut entities = Vec::new(alloc);
    chunks.add_entities_to(&mut entities)?;
    Ok(
        (blocks.len(), entities.len()) == (2, 1)
            && chunks.get(HERE) == 7
            && chunks.get(BESIDE) == 7
            && chunks.get(FOREIGN) == 0
            && chunks.find(1).is_none()
            && chunks.find(2) == Some(BlockPos { x: 31, y: 64, z: 1 }),
    )
}

/// Whether the tick runs, and then tells this and has moved that.
fn runs_plain(alloc: Global, tick: &mut Tick, host: &mut ListHost) -> Result<bool, AllocError>
    requires { MayRun tick.old }
{
    run_tick(alloc, tick, host)?;
    Ok(tells_all(&tick.log) && is_moved(alloc, &tick.body.chunks)?)
}

/// Whether a tick of the plain tasks does, where the host knows no ticket.
fn acts_plainly(alloc: Global) -> Result<bool, AllocError> {
    let mut host = ListHost::of(vec![in alloc; HostAnswer::Unload(Unloaded::NoTicket)]?);
    let mut tick = tick_of(alloc, plain_tasks(alloc)?)?;
    runs_plain(alloc, &mut tick, &mut host)
}

/// Each task has its outcome, an entity that was sent is gone, and one that arrived moves, but not out of the recorded chunks.
#[test]
fn every_plain_action(rt: HostRuntime) -> Result<(), AllocError> {
    let is_right = acts_plainly(rt.alloc())?;
    assert!(rt; is_right);
    Ok(())
}

/// An action that repeats, and the action inside.
fn every(alloc: Global, period: u32, left: u32, inner: Action) -> Result<Action, AllocError>
    ensures { IfOk result (λ action. action ≡ Action.Every period left (deed_of inner)) }
{
    Ok(Action::Every {
        period,
        left,
        action: Nested::new(alloc, inner)?,
    })
}

/// A set that runs three times, and a post that runs two times.
fn repeats(alloc: Global) -> Result<Vec<Task>, AllocError>
    ensures order { IfOk result (λ tasks. Rising tasks.items) }
    ensures limits { IfOk result (λ tasks. All (λ t. IsTrue (is_action t.action)) tasks.items) }
    ensures arrivals { IfOk result (λ tasks. arrivals tasks.items ≡ []) }
{
    let set = every(alloc, 2, 3, Action::Set { at: HERE, id: 7 })?;
    let action = Nested::new(alloc, Action::Load(AWAY))?;
    let post = Action::Post {
        chunk: AWAY,
        delay: 5,
        action,
    };
    let posts = every(alloc, 4, 2, post)?;
    Ok(vec![in alloc; task(1, set), task(2, posts)]?)
}

/// Whether the action is a repeat with these numbers.
fn is_every(action: &Action, period: u32, left: u32) -> bool {
    match action {
        Action::Every {
            period: p,
            left: l,
            ..
        } => *p == period && *l == left,
        _ => false,
    }
}

/// Whether these are the wishes of a set and of a post that repeat, each with its delay.
fn are_repeats(wishes: &[Wish]) -> bool {
    wishes.len() == 3
        && is_every(&wishes[0].action, 2, 2)
        && wishes[0].delay == 2
        && matches!(&wishes[1].action, Action::Load(_))
        && wishes[1].delay == 5
        && wishes[1].chunk == AWAY
        && is_every(&wishes[2].action, 4, 1)
        && wishes[2].delay == 4
}

/// Whether the tick runs both tasks, and their wishes come in order.
fn runs_repeats(alloc: Global, tick: &mut Tick, host: &mut ListHost) -> Result<bool, AllocError>
    requires { MayRun tick.old }
{
    run_tick(alloc, tick, host)?;
    Ok(
        tick.log.ran.as_slice() == [done(1), done(2)].as_slice()
            && tick.body.chunks.get(HERE) == 7
            && are_repeats(tick.log.wishes.as_slice()),
    )
}

/// Whether a tick of the tasks that repeat does, where no host is called.
fn acts_again(alloc: Global) -> Result<bool, AllocError> {
    let mut host = ListHost::of(Vec::new(alloc));
    let mut tick = tick_of(alloc, repeats(alloc)?)?;
    runs_repeats(alloc, &mut tick, &mut host)
}

/// A repeat comes straight behind the post of its inner action, with one run less.
#[test]
fn actions_that_repeat(rt: HostRuntime) -> Result<(), AllocError> {
    let is_right = acts_again(rt.alloc())?;
    assert!(rt; is_right);
    Ok(())
}

/// In the last chunk of the row, which came late.
const LATE: BlockPos = BlockPos {
    x: 16 * 299,
    y: 64,
    z: 0,
};

/// In the chunk that left the row.
const GONE: BlockPos = BlockPos { x: 20, y: 64, z: 0 };

/// A row of 299 chunks from chunk 0 on, of which the last ones wait to come, and one that waits to leave: chunk 1.
fn long_row(alloc: Global) -> Result<ChunkSet, AllocError>
    ensures { IfOk result (IsStrictlySortedBy chunk_cmp) }
{
    let mut row = ChunkSet::new(alloc);
    for x in 0..300 {
        row.widen(ChunkPos { x, z: 0 })?;
    }
    row.narrow(ChunkPos { x: 1, z: 0 });
    Ok(row)
}

/// Whether all of the chunks are within the limits.
fn are_chunks(alloc: Global, chunks: &ChunkSet) -> Result<bool, AllocError>
    ensures { IfOk result (λ all. IsTrue all → All (λ c. IsTrue (is_chunk c)) chunks.now) }
{
    let copy = chunks.copy(alloc)?;
    Ok(copy.iter().all(|c| c.in_range()))
}

/// A number is set in the last chunk of the row, and in the one that left it.
fn late_and_gone(alloc: Global) -> Result<Vec<Task>, AllocError>
    ensures order { IfOk result (λ tasks. Rising tasks.items) }
    ensures limits { IfOk result (λ tasks. All (λ t. IsTrue (is_action t.action)) tasks.items) }
    ensures arrivals { IfOk result (λ tasks. arrivals tasks.items ≡ []) }
{
    Ok(vec![in alloc;
        task(1, Action::Set { at: LATE, id: 7 }),
        task(2, Action::Set { at: GONE, id: 7 }),
    ]?)
}

/// Whether the tick sets the first number alone, and the entity stays, which would walk into the chunk that left.
fn runs_on_the_row(alloc: Global, tick: &mut Tick) -> Result<bool, AllocError>
    requires { MayRun tick.old }
{
    let is_waiting = tick.chunks.as_slice().is_none();
    run_tick(alloc, tick, &mut ListHost::of(Vec::new(alloc)))?;
    let outcomes = tick.log.ran.as_slice().iter().map(|entry| entry.outcome);
    Ok(
        is_waiting
            && outcomes.eq([Outcome::Done, Outcome::Foreign].iter().copied())
            && tick.body.chunks.get(LATE) == 7
            && tick.body.chunks.get(GONE) == 0
            && tick.body.chunks.find(1) == Some(walker(1).at),
    )
}

/// Whether a tick with that row does.
fn acts_on_the_row(alloc: Global) -> Result<bool, AllocError> {
    let row = long_row(alloc)?;
    if !are_chunks(alloc, &row)? {
        return Ok(false);
    }
    let mut tick = tick_on(alloc, row, late_and_gone(alloc)?)?;
    runs_on_the_row(alloc, &mut tick)
}

/// Chunks that wait to come are recorded, and those that wait to leave are not.
#[test]
fn changes_of_the_chunks_wait(rt: HostRuntime) -> Result<(), AllocError> {
    let is_right = acts_on_the_row(rt.alloc())?;
    assert!(rt; is_right);
    Ok(())
}
