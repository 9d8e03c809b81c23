//! The wishes of a tick, which are accepted at its End.

ghost use Rattle.std.specs.Prelude.{◌≡◌, ℕ, ◌+◌, ◌<◌, ◌≤◌, ◌++◌, ◌∷◌, [], length, slice_index_or, vec_len, vec_capacity, IfSome};
ghost use Rattle.fol_model.specs.declared.tasks.Task.{Task};
ghost use Rattle.fol_model.specs.World.{World};
ghost use Rattle.fol_model.specs.End.{accepted, all_accepted, answers as answers_to};
ghost use Rattle.fol_model.specs.Holds.{posting};
ghost use Rattle.fol_laws.proofs.WishLimits.{WishOk};
ghost use Rattle.fol_chunks.specs.Contents.{flat_of};
ghost use Rattle.fol_world.specs.Agenda.{GrowsBy};
ghost use Rattle.fol_world.specs.Returned.{StandsNowhere, returned};
ghost use Rattle.fol_world.specs.Underway.{AreFit, IsFree, MayAccept, MayAcceptAll, MayAcceptNext, StillHold, Underway};

use crate::ends::drop_due;
use crate::holds::hold;
use crate::posts::queue;
use crate::tables::Tables;
use fol_chunks::Chunks;
use fol_model::{Accept, Action, BlockPos, ChunkPos, Entity, Task, Wish};
use fol_regions::AddAnswer;
use std::collections::VecDeque;

/// How many tasks are looked at for one on the chunk of a wish.
const FEW: usize = 4;

/// Drops the holds of the tasks that ran, accepts wishes in order, of which none is left, and adds the answers. A send whose chunk can't
/// be held puts its entity back.
///
/// A task that comes on the chunk of one that ran takes over its hold, which need not fall and come again.
pub(crate) fn accept_all(
    tables: &mut Tables,
    region: u64,
    due: &[Task],
    chunks: &mut Chunks,
    wishes: &mut VecDeque<Wish>,
    answers: &mut Vec<Accept>,
)
    requires may { MayAcceptAll tables.old chunks.old region due.now wishes.old.items }
    requires room { vec_len answers.old + length wishes.old.items ≤ vec_capacity answers.old }
    ensures accepted { (w : World) (since : ℕ → ℕ) (n : ℕ)
        → StillHold tables.old chunks.old w since region due.now (length wishes.old.items + n)
        → AreFit (w.recorded region) w wishes.old.items
        → StillHold tables.new chunks.new (all_accepted w wishes.old.items) since region [] n }
    ensures answers { (w : World) (since : ℕ → ℕ) (n : ℕ)
        → StillHold tables.old chunks.old w since region due.now (length wishes.old.items + n)
        → AreFit (w.recorded region) w wishes.old.items
        → answers.new.items ≡ answers.old.items ++ answers_to w wishes.old.items }
    ensures stack { GrowsBy (length wishes.old.items) tables.old.agenda tables.new.agenda }
    ensures size { tables.new.course.size ≡ tables.old.course.size }
{
    let mut held = due;
    while let Some(wish) = wishes.pop_front() {
        let (answer, left) = accept_next(tables, region, held, chunks, wish);
        answers.push_reserved(answer);
        held = left;
    }
    drop_due(tables, region, held);
}

/// Accepts a wish while these tasks hold their chunks still. Where one of the first few of them is on the wish's chunk, the task that comes
/// takes over its hold, and those before it drop theirs. Returns the answer, and the tasks that hold their chunks from then on.
fn accept_next<'a>(
    tables: &mut Tables,
    region: u64,
    held: &'a [Task],
    chunks: &mut Chunks,
    wish: Wish,
) -> (Accept, &'a [Task])
    requires { MayAcceptNext tables.old chunks.old region held.now wish }
    ensures accepted { (w : World) (since : ℕ → ℕ) (n : ℕ)
        → StillHold tables.old chunks.old w since region held.now (n + 1)
        → WishOk (w.recorded region) wish → IsFree w wish
        → StillHold tables.new chunks.new (accepted w wish) since region result.1.now n }
    ensures answer { (w : World) (since : ℕ → ℕ) (n : ℕ)
        → StillHold tables.old chunks.old w since region held.now (n + 1)
        → result.0 ≡ posting w wish.chunk }
    ensures stack { GrowsBy 1 tables.old.agenda tables.new.agenda }
    ensures size { tables.new.course.size ≡ tables.old.course.size }
{
    match place_on(held, wish.chunk) {
        Some(i) => {
            drop_due(tables, region, &held[..i]);
            let number = queue(tables, wish.chunk, wish.delay, wish.action);
            (Accept::Posted(number), &held[i + 1..])
        }
        None => (accept_one(tables, chunks, wish), held),
    }
}

/// The place of a task that is on the chunk, among the first few.
fn place_on(tasks: &[Task], c: ChunkPos) -> Option<usize>
    ensures { IfSome result (λ i. (i < length tasks.now)
        × ((d : Task) → (slice_index_or tasks.now i d).chunk ≡ c)) }
{
    let few = tasks.len().min(FEW);
    for i in 0..few {
        if tasks[i].chunk == c {
            return Some(i);
        }
    }
    None
}

/// Accepts a wish, and returns under which number, or why not.
fn accept_one(tables: &mut Tables, chunks: &mut Chunks, wish: Wish) -> Accept
    requires { MayAccept tables.old chunks.old wish }
    ensures accepted { (w : World) (since : ℕ → ℕ) (r n : ℕ)
        → Underway tables.old chunks.old w since r (n + 1) → WishOk (w.recorded r) wish
        → IsFree w wish → Underway tables.new chunks.new (accepted w wish) since r n }
    ensures answer { (w : World) (since : ℕ → ℕ) (r n : ℕ)
        → Underway tables.old chunks.old w since r (n + 1) → result ≡ posting w wish.chunk }
    ensures stack { GrowsBy 1 tables.old.agenda tables.new.agenda }
    ensures size { tables.new.course.size ≡ tables.old.course.size }
    ensures tickets { tables.new.tickets ≡ tables.old.tickets }
{
    match hold(tables, wish.chunk) {
        AddAnswer::Full { present, wanted } => {
            put_back(chunks, wish.action, wish.back);
            Accept::Full { present, wanted }
        }
        AddAnswer::Counted | AddAnswer::Changed => {
            Accept::Posted(queue(tables, wish.chunk, wish.delay, wish.action))
        }
    }
}

/// An entity that is sent stands at this block again.
fn put_back(chunks: &mut Chunks, action: Action, back: Option<BlockPos>)
    requires room { 1 ≤ chunks.old.spare }
    requires free { StandsNowhere (flat_of chunks.old) action }
    ensures contents { flat_of chunks.new ≡ returned (flat_of chunks.old) action back }
    ensures spare { chunks.old.spare ≤ chunks.new.spare + 1 }
{
    if let Action::Arrive(entity) = action {
        if let Some(at) = back {
            chunks.put_entity(Entity { at, ..entity });
        }
    }
}
