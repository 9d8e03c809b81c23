//! A host that gives the answers of a list.

ghost use Rattle.std.specs.Prelude.{◌≡◌, ◌≢◌, IsTrue, IfOk, drop};
ghost use Rattle.std.specs.List.{list_all};
ghost use Rattle.fol_model.specs.Geometry.{is_chunk};
ghost use Rattle.fol_tick.specs.ListAnswers.{is_answer, load_answer, unload_answer, Answers};
ghost use Rattle.fol_tick.specs.Calls.{load_call, unload_call};

use crate::host::Host;
use fol_model::{ChunkPos, Loaded, Unloaded};
use std::alloc::{AllocError, Global};
use std::collections::VecDeque;
use std::marker::Model;

/// One answer of a list.
#[derive(Clone, Copy, Debug, PartialEq, Eq)]
pub enum HostAnswer {
    /// To a load.
    Load(Loaded),
    /// To an unload.
    Unload(Unloaded),
    /// To either: no memory was found.
    NoMemory,
}

/// Gives its answers in order, one at each call. At their end, and where the next answer is one to the other kind of call, it
/// returns `Counted` or `Lowered`. Contracts see the answers that are left.
#[derive(Drop)]
pub struct ListHost {
    answers: VecDeque<HostAnswer>,
}

impl Model for ListHost {
    ghost use Rattle.std.specs.Prelude.{List, IsTrue};
    ghost use Rattle.std.specs.List.{list_all};
    ghost use Rattle.fol_tick.specs.declared.list_host.HostAnswer.{HostAnswer};

    ghost Value = { List HostAnswer };

    ghost use Rattle.fol_tick.specs.ListAnswers.{is_answer};

    ghost view = { λ h. h.answers.items };

    ghost invariant = { λ h. IsTrue (list_all is_answer h.answers.items) };
}

impl ListHost {
    /// A host with these answers, none of which is `Over`. Takes no memory.
    pub fn of(answers: Vec<HostAnswer>) -> ListHost
        requires { IsTrue (list_all is_answer answers.items) }
        ensures { result ≡ answers.items }
    {
        ListHost {
            answers: VecDeque::from(answers),
        }
    }
}

impl Host for ListHost {
    ghost use Rattle.fol_tick.specs.ListAnswers.{Answers, none, answers_follow};

    ghost reaches = { Answers };

    fn load(&mut self, _alloc: Global, c: ChunkPos) -> Result<Loaded, AllocError>
        ensures reaches { Answers self.old (load_call c result) self.new }
        ensures never_over { IfOk result (λ answer. answer ≢ Loaded.Over) }
        ensures answer { result ≡ load_answer self.old }
        ensures left { self.new ≡ drop 1 self.old }
    {
        match self.answers.pop_front() {
            Some(HostAnswer::Load(answer)) => Ok(answer),
            Some(HostAnswer::NoMemory) => Err(AllocError),
            Some(HostAnswer::Unload(_)) | None => Ok(Loaded::Counted),
        }
    }

    fn unload(&mut self, _alloc: Global, c: ChunkPos) -> Result<Unloaded, AllocError>
        ensures reaches { Answers self.old (unload_call c result) self.new }
        ensures never_over { IfOk result (λ answer. answer ≢ Unloaded.Over) }
        ensures answer { result ≡ unload_answer self.old }
        ensures left { self.new ≡ drop 1 self.old }
    {
        match self.answers.pop_front() {
            Some(HostAnswer::Unload(answer)) => Ok(answer),
            Some(HostAnswer::NoMemory) => Err(AllocError),
            Some(HostAnswer::Load(_)) | None => Ok(Unloaded::Lowered),
        }
    }

    ghost stays = { none };

    ghost follows = { answers_follow };
}
