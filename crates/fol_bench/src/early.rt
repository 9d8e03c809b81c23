//! A tick that is made before its Begin is recorded, and taken back, in a region of 1, 100 or 10,000 loaded chunks.

ghost use Rattle.std.specs.Prelude.{IsTrue, OnOk};
ghost use Rattle.fol_model.specs.Geometry.{is_chunk};
ghost use Rattle.fol_core.specs.Meaning.{IsReadyToBegin};

use crate::report::bare_opening;
use fol_core::{Core, Phase, Posting};
use fol_model::{Action, BlockPos, ChunkPos, Loaded};
use std::alloc::{AllocError, Global};
use std::io;
use std::marker::Model;
use std::rt::Clock;
use std::time::Instant;

/// How many rounds of calls are timed together.
const ROUNDS: u32 = 10_000;

/// How often that is done; the batch that took least is told, since other work only adds to one.
const BATCHES: u32 = 20;

/// The one region.
const REGION: u64 = 1;

/// The chunk that tasks are posted on.
const HOME: ChunkPos = ChunkPos { x: 0, z: 0 };

/// In how many ticks of the region a posted task is due: in none of those that are made.
const DELAY: u32 = 1_000;

/// Prints how long the calls take, by how many chunks the region has loaded.
pub fn run<R: Clock + Print>(rt: &R, alloc: Global) -> io::Result<()> {
    measure(rt, alloc, 1)?;
    measure(rt, alloc, 10)?;
    measure(rt, alloc, 100)
}

/// Times the calls in a region of so many rows of as many loaded chunks.
fn measure<R: Clock + Print>(rt: &R, alloc: Global, side: u8) -> io::Result<()> {
    let mut world = World::start(alloc)?;
    let timed = time_calls(rt, alloc, &mut world, side);
    drop(world);
    timed
}

fn time_calls<R: Clock + Print>(
    rt: &R,
    alloc: Global,
    world: &mut World,
    side: u8,
) -> io::Result<()> {
    world.load_square(side)?;
    let _opened = world.open_phase()?;
    let watch = Watch {
        start: Instant::now(rt)?,
    };
    let alone = time_batches(rt, alloc, &watch, world, false)?;
    let posting = time_batches(rt, alloc, &watch, world, true)?;
    let chunks = u32::from(side) * u32::from(side);
    show(rt, chunks, "alone", alone)?;
    show(rt, chunks, "with a post", posting)
}

fn show<R: Print>(rt: &R, chunks: u32, how: &str, times: Times) -> io::Result<()> {
    let Times {
        prepare,
        withdraw,
        round,
        clock,
    } = times;
    println!(rt;
        "early, chunks {chunks}, {how}: prepare {prepare} ns, withdraw {withdraw} ns, the round {round} ns, the clock {clock} ns"
    )
}

/// How long a round of calls takes, with or without a post.
fn time_batches<R: Clock>(
    rt: &R,
    alloc: Global,
    watch: &Watch,
    world: &mut World,
    posts: bool,
) -> Result<Times, AllocError> {
    let mut least = time_rounds(rt, alloc, watch, world, posts)?;
    for _ in 1..BATCHES {
        least = least.least(time_rounds(rt, alloc, watch, world, posts)?);
    }
    Ok(least)
}

/// Makes the tick and takes it back in each of many rounds, with or without a post before the next one. How long one took.
fn time_rounds<R: Clock>(
    rt: &R,
    alloc: Global,
    watch: &Watch,
    world: &mut World,
    posts: bool,
) -> Result<Times, AllocError> {
    let mut sum = Times::default();
    for _ in 0..ROUNDS {
        let start = watch.read(rt);
        if posts {
            post(world)?;
        }
        world.reserve(alloc)?;
        world.make_and_take_back(rt, watch, &mut sum);
        sum.round = later(sum.round, start, watch.read(rt));
    }
    Ok(sum.each())
}

/// Posts a task.
fn post(world: &mut World) -> Result<(), AllocError> {
    match world.post() {
        Ok(_) => Ok(()),
        Err(_) => Err(AllocError),
    }
}

/// A sum of times in nanoseconds, with that from `start` to `end` more.
fn later(sum: u128, start: u128, end: u128) -> u128 {
    sum.saturating_add(end.saturating_sub(start))
}

/// Times in nanoseconds, each with one reading of the clock.
#[derive(Clone, Copy, Default)]
struct Times {
    prepare: u128,
    withdraw: u128,
    /// All of a round: the post, where there is one, the memory for the tick, and the tick made and taken back.
    round: u128,
    /// One reading of the clock.
    clock: u128,
}

impl Times {
    /// The times of one round.
    fn each(self) -> Times {
        let rounds = u128::from(ROUNDS);
        Times {
            prepare: self.prepare / rounds,
            withdraw: self.withdraw / rounds,
            round: self.round / rounds,
            clock: self.clock / rounds,
        }
    }

    /// The smaller time of each kind.
    fn least(self, other: Times) -> Times {
        Times {
            prepare: self.prepare.min(other.prepare),
            withdraw: self.withdraw.min(other.withdraw),
            round: self.round.min(other.round),
            clock: self.clock.min(other.clock),
        }
    }
}

/// A clock that is read often.
#[derive(Drop)]
struct Watch {
    start: Instant,
}

impl Watch {
    /// The nanoseconds since the start; 0 where the clock can't be read.
    fn read<R: Clock>(&self, rt: &R) -> u128 {
        match self.start.elapsed(rt) {
            Ok(time) => time.as_nanos(),
            Err(_) => 0,
        }
    }
}

/// A core in which no region is prepared. Contracts see its meaning.
#[derive(Drop)]
struct World {
    core: Core,
}

impl Model for World {
    ghost use Rattle.fol_model.specs.GridNumbers.{IsGrid};
    ghost use Rattle.fol_core.specs.Ahead.{NonePrepared};
    ghost use Rattle.fol_core.specs.Meaning.{Meaning};

    ghost Value = { Meaning };

    ghost view = { λ s. s.core };

    ghost invariant = { λ s. IsGrid s.core.opening.grid × NonePrepared s.core };
}

impl World {
    /// With no chunk loaded.
    fn start(alloc: Global) -> Result<World, AllocError> {
        let opening = bare_opening(alloc);
        // A proof learns where a field is read that the numbers of the grid are within their limits.
        let _grid = opening.grid;
        let core = Core::start(alloc, opening)?;
        Ok(World { core })
    }

    /// Loads so many rows of as many chunks.
    fn load_square(&mut self, side: u8) -> Result<(), AllocError> {
        for z in 0..side {
            for x in 0..side {
                let chunk = ChunkPos {
                    x: i32::from(x),
                    z: i32::from(z),
                };
                if chunk.in_range() {
                    let _answer = self.load(chunk)?;
                }
            }
        }
        Ok(())
    }

    /// Adds a ticket to a chunk.
    fn load(&mut self, chunk: ChunkPos) -> Result<Loaded, AllocError>
        requires { IsTrue (is_chunk chunk) }
    {
        self.core.load(0, chunk)
    }

    /// Opens a phase of one tick.
    fn open_phase(&mut self) -> Result<Phase, AllocError> {
        if self.core.phase_ticks() >= 10_000 {
            return Ok(Phase::Over);
        }
        self.core.open_phase(0, 1)
    }

    /// Posts a task, which is due much later.
    fn post(&mut self) -> Result<Posting, Action> {
        let at = BlockPos { x: 0, y: 0, z: 0 };
        self.core.post(0, HOME, DELAY, Action::Set { at, id: 1 })
    }

    /// Takes the memory for the region's tick. Fails, too, where there is no such region.
    fn reserve(&mut self, alloc: Global) -> Result<(), AllocError>
        ensures { OnOk result (IsReadyToBegin self.new 1) }
    {
        if self.core.state(REGION).is_none() {
            return Err(AllocError);
        }
        self.core.reserve(alloc, REGION)
    }

    /// Makes the tick of the region, which is ready to begin, and takes it back, where it owes one.
    fn make_and_take_back<R: Clock>(&mut self, rt: &R, watch: &Watch, sum: &mut Times)
        requires { IsReadyToBegin self.old 1 }
    {
        if self.core.is_over() || self.core.next_owing(REGION) != Some(REGION) {
            return;
        }
        let start = watch.read(rt);
        let tick = self.core.prepare(REGION);
        let made = watch.read(rt);
        let _is_ready = self.core.withdraw(tick);
        let end = watch.read(rt);
        let after = watch.read(rt);
        sum.prepare = later(sum.prepare, start, made);
        sum.withdraw = later(sum.withdraw, made, end);
        sum.clock = later(sum.clock, end, after);
    }
}
