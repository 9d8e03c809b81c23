//! The tick that a worker has begun in a replay.

ghost use Rattle.std.specs.Prelude.{◌≡◌, ◌↔◌, [], Some, IsTrue, IfOk, length, slice_get};
ghost use Rattle.std.specs.List.{filter_map, list_all};
ghost use Rattle.fol_model.specs.ActionStep.{plain_of as plain_action_of};
ghost use Rattle.fol_tick.specs.ListAnswers.{is_answer};
ghost use Rattle.fol_tick.specs.Runs.{MayRun};
ghost use Rattle.fol_check.specs.Asks.{ask_in};
ghost use Rattle.fol_check.specs.Running.{HasRun};

use fol_core::Tick;
use fol_model::{Action, ChunkPos, Task};
use fol_tick::{HostAnswer, ListHost, run_tick};
use std::alloc::{AllocError, Global};

/// What a due task asks of the world while its tick runs.
#[derive(Clone, Copy)]
pub(crate) enum Ask {
    /// A ticket more for the chunk.
    Load(ChunkPos),
    /// A ticket less.
    Unload(ChunkPos),
}

/// A tick between its Begin and its End.
#[derive(Drop)]
pub(crate) struct Open {
    /// The tick, of which nothing has run.
    pub(crate) tick: Tick,
    /// What its due tasks ask for, in order.
    pub(crate) asks: Vec<Ask>,
    /// The answers that the report gave so far.
    pub(crate) answers: Vec<HostAnswer>,
}

impl Open {
    /// Whether the next ask is this one.
    pub(crate) fn asks_for(&self, ask: Ask) -> bool
        ensures { IsTrue result ↔ (slice_get self.now.asks.items (length self.now.answers.items)
            ≡ Some ask) }
    {
        is_next(self.asks.as_slice(), self.answers.len(), ask)
    }

    /// Whether the tick may end as one of this region: it is of the region, and every ask has its answer.
    pub(crate) fn may_end(&self, region: u64) -> bool
        ensures { IsTrue result ↔ ((region ≡ self.now.tick.region)
            × (length self.now.answers.items ≡ length self.now.asks.items)) }
    {
        region == self.tick.region && self.answers.len() == self.asks.len()
    }

    /// The tick, once it has run with the answers.
    pub(crate) fn run(self, alloc: Global) -> Result<Tick, AllocError>
        requires may_run { MayRun self.tick }
        requires answers { IsTrue (list_all is_answer self.answers.items) }
        ensures { IfOk result (λ tick. HasRun self tick) }
    {
        let Open {
            mut tick,
            asks: _,
            answers,
        } = self;
        let mut host = ListHost::of(answers);
        run_tick(alloc, &mut tick, &mut host)?;
        Ok(tick)
    }
}

/// A tick that was begun just now, with what its due tasks ask for.
pub(crate) fn opened(alloc: Global, tick: Tick) -> Result<Open, AllocError>
    ensures tick { IfOk result (λ held. held.tick ≡ tick) }
    ensures asks { IfOk result (λ held. held.asks.items
        ≡ filter_map (λ t. ask_in (plain_action_of t.action)) tick.due) }
    ensures answers { IfOk result (λ held. held.answers.items ≡ []) }
{
    let asks = asks_of(alloc, tick.due.as_slice())?;
    let answers = Vec::new(alloc);
    Ok(Open {
        tick,
        asks,
        answers,
    })
}

/// Whether the ask in this place is this one.
fn is_next(asks: &[Ask], place: usize, ask: Ask) -> bool
    ensures { IsTrue result ↔ (slice_get asks.now place ≡ Some ask) }
{
    match asks.get(place) {
        Some(next) => same_ask(*next, ask),
        None => false,
    }
}

/// Whether two asks are the same.
fn same_ask(a: Ask, b: Ask) -> bool
    ensures { IsTrue result ↔ (a ≡ b) }
{
    match a {
        Ask::Load(c) => match b {
            Ask::Load(d) => c == d,
            Ask::Unload(_) => false,
        },
        Ask::Unload(c) => match b {
            Ask::Unload(d) => c == d,
            Ask::Load(_) => false,
        },
    }
}

/// What the due tasks ask for, in order.
fn asks_of(alloc: Global, due: &[Task]) -> Result<Vec<Ask>, AllocError>
    ensures { IfOk result (λ asks. asks.items
        ≡ filter_map (λ t. ask_in (plain_action_of t.action)) due.now) }
{
    due.iter().filter_map(|t| ask_of(&t.action)).collect(alloc)
}

/// What a task with this action asks for.
fn ask_of(action: &Action) -> Option<Ask>
    ensures { result ≡ ask_in (plain_action_of action.now) }
{
    let plain = match action {
        Action::Every { action: inner, .. } => inner.get(),
        plain => plain,
    };
    match plain {
        Action::Load(chunk) => Some(Ask::Load(*chunk)),
        Action::Unload(chunk) => Some(Ask::Unload(*chunk)),
        _ => None,
    }
}
