//! The state behind the lock of a book.

ghost use Rattle.std.specs.Prelude.{◌≡◌, ◌<◌, ◌≤◌, ◌^◌, [], IfOk, OnOk, OnErr, vec_len};
ghost use Rattle.std.specs.Vec.{vec_capacity};
ghost use Rattle.fol_follow.specs.Meaning.{Records, Stays, VisitRecords};
ghost use Rattle.fol_follow.specs.Visits.{AreLeft, IsRun, answer_to, book_after};

use crate::asks::Asks;
use crate::entries::{Asked, BookClosing, BookEntry, BookEvent, Visiting, Waiting};
use fol_data::Tick;
use fol_lock::Kept;
use fol_model::{Opening, Sequence};
use std::alloc::{AllocError, Global};
use std::collections::BTreeSet;
use std::marker::Model;
use std::snapshot::Snapshot;

/// How many entries a history may have; more are more than memory holds.
const MOST_ENTRIES: usize = 1 << 50;

/// The history of a book, which is a run, and what stands after it. Contracts see the opening and the history.
#[derive(Drop)]
pub struct Ledger {
    opening: Snapshot<Opening>,
    asks: Asks,
    /// The ticks of which there was a visit: the region, and where the tick began.
    made: BTreeSet<(u64, u64)>,
    history: Vec<BookEntry>,
    /// Empty, with room for each ask, so that the end takes no memory.
    left: Vec<Waiting>,
}

impl Model for Ledger {
    ghost use Rattle.std.specs.Prelude.{◌≡◌, ◌≤◌, [], length};
    ghost use Rattle.std.specs.Vec.{vec_capacity};
    ghost use Rattle.fol_follow.specs.Meaning.{Meaning};
    ghost use Rattle.fol_follow.specs.Kept.{Keeps};

    ghost Value = { Meaning };

    ghost view = { λ l. record { opening = l.opening.value; history = l.history.items } };

    ghost invariant = { λ l. Keeps l.opening.value l.history.items l.asks l.made × (l.left.items ≡ []) × (length l.asks.rows ≤ vec_capacity l.left) };
}

impl Kept for Ledger {
    type Origin = Opening;

    type Entry = BookEntry;

    ghost origin = { λ l. l.opening };

    ghost log = { λ l. l.history };

    ghost by = { λ e. e.by };
}

impl Ledger {
    /// The book of an opening, before any call.
    pub(crate) fn start(alloc: Global, opening: &Opening) -> Result<Ledger, AllocError>
        ensures opening { IfOk result (λ l. l.opening ≡ opening.now) }
        ensures empty { IfOk result (λ l. l.history ≡ []) }
    {
        let asks = Asks::new(alloc, opening.entities.as_slice())?;
        Ok(Ledger {
            opening: Snapshot::of(opening),
            asks,
            made: BTreeSet::new(alloc),
            history: Vec::new(alloc),
            left: Vec::new(alloc),
        })
    }

    /// Records an ask by the seat of this number. When out of memory, nothing has changed.
    pub(crate) fn ask(&mut self, by: u32, entity: u32, delay: u32) -> Result<Asked, AllocError>
        requires delay { (0 < delay) × (delay ≤ 1000000) }
        ensures opening { self.new.opening ≡ self.old.opening }
        ensures before { IsRun self.old.opening self.old.history }
        ensures after { IsRun self.new.opening self.new.history }
        ensures answer { IfOk result (λ a.
            a ≡ answer_to self.old.opening (book_after self.old.history) entity) }
        ensures recorded { IfOk result (λ a.
            Records self.old self.new by (BookEvent.Ask entity delay a)) }
        ensures refused { OnErr result (Stays self.old self.new) }
    {
        reserve_entry(&mut self.history)?;
        self.left.reserve(self.asks.len() + 1)?;
        let answer = self.asks.ask(entity, delay)?;
        self.history.push_reserved(BookEntry {
            by,
            event: BookEvent::Ask {
                entity,
                delay,
                answer,
            },
        });
        Ok(answer)
    }

    /// Records the visit of a tick by the seat of this number, unless there was one. When out of memory, nothing has changed.
    pub(crate) fn visit(
        &mut self,
        alloc: Global,
        by: u32,
        tick: &Tick,
    ) -> Result<Visiting, AllocError>
        ensures opening { self.new.opening ≡ self.old.opening }
        ensures before { IsRun self.old.opening self.old.history }
        ensures after { IsRun self.new.opening self.new.history }
        ensures recorded { IfOk result (λ a. VisitRecords self.old self.new by tick.now a) }
        ensures refused { OnErr result (Stays self.old self.new) }
    {
        let region = tick.region;
        let begun = tick.begun;
        if self.made.contains(&(region, begun)) {
            return Ok(Visiting::Again);
        }
        reserve_entry(&mut self.history)?;
        let standing = tick.body.chunks.entities_by_id(alloc)?;
        let here = self.asks.known_among(alloc, standing.as_slice())?;
        let made = self.asks.due(alloc, &here)?;
        let visits = Vec::from_slice(alloc, &made)?;
        self.made.insert((region, begun))?;
        self.asks.lower(&here);
        self.history.push_reserved(BookEntry {
            by,
            event: BookEvent::Visit {
                region,
                begun,
                here: Sequence::of(here),
                visits: Sequence::of(visits),
            },
        });
        Ok(Visiting::Made(Sequence::of(made)))
    }

    /// The history, and the asks that are left. Takes no memory.
    pub(crate) fn into_closing(self) -> BookClosing
        ensures history { result.history ≡ self.history }
        ensures run { IsRun self.opening self.history }
        ensures left { AreLeft (book_after self.history).asks result.left }
    {
        let Ledger {
            opening: _,
            asks,
            made: _,
            history,
            mut left,
        } = self;
        asks.list_left(&mut left);
        BookClosing {
            history: Sequence::of(history),
            left: Sequence::of(left),
        }
    }
}

/// Makes room for one entry more. The entries stay either way.
fn reserve_entry(history: &mut Vec<BookEntry>) -> Result<(), AllocError>
    ensures same { history.new.items ≡ history.old.items }
    ensures room { OnOk result (vec_len history.new < vec_capacity history.new) }
    ensures few { OnOk result (vec_len history.new < 2 ^ 50) }
{
    if history.len() >= MOST_ENTRIES {
        return Err(AllocError);
    }
    history.reserve(1)
}
