//! Who answers the loads and unloads of a tick.

ghost use Rattle.std.specs.Prelude.{◌≢◌, ◌++◌, List, [], IsTrue, IfOk};
ghost use Rattle.fol_model.specs.Geometry.{is_chunk};
ghost use Rattle.fol_tick.specs.Calls.{HostCall, load_call, unload_call};

use fol_model::{ChunkPos, Loaded, Unloaded};
use std::alloc::{AllocError, Global};

/// Adds tickets to chunks and takes them away.
///
/// What it is to its user are the calls that it answered, in order, with their answers. A call that finds no memory is not answered.
/// A host never returns `Over`.
pub trait Host {
    ghost use Rattle.std.specs.Prelude.{List, [], ◌++◌};
    ghost use Rattle.fol_tick.specs.Calls.{HostCall};

    /// The first came to be the second by answering just these calls. Each host says here what else its calls leave as it was, and
    /// what they change.
    ghost reaches: { Self → List HostCall → Self → Type 0 };

    /// Adds a ticket to the chunk.
    fn load(&mut self, alloc: Global, c: ChunkPos) -> Result<Loaded, AllocError>
        requires { IsTrue (is_chunk c) }
        ensures reaches { reaches self.old (load_call c result) self.new }
        ensures never_over { IfOk result (λ answer. answer ≢ Loaded.Over) };

    /// Takes a ticket from the chunk.
    fn unload(&mut self, alloc: Global, c: ChunkPos) -> Result<Unloaded, AllocError>
        requires { IsTrue (is_chunk c) }
        ensures reaches { reaches self.old (unload_call c result) self.new }
        ensures never_over { IfOk result (λ answer. answer ≢ Unloaded.Over) };

    /// No call leaves a host as it is.
    ghost stays: { (h : Self) → reaches h [] h };

    /// Calls follow one another.
    ghost follows: { (a b c : Self) (xs ys : List HostCall) → reaches a xs b → reaches b ys c → reaches a (xs ++ ys) c };
}
