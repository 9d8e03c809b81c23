//! Where bytes are read by name.

ghost use Rattle.std.specs.Prelude.{◌≡◌, ◌≤◌, ℕ, List, Option, length};
ghost use Rattle.fol_io.specs.Counts.{raised, Rose};
ghost use Rattle.fol_io.specs.Shelf.{IsHeld, IsTooLong};
ghost use Rattle.fol_io.specs.Read.{IfWhole, OnFailed, OnTooLong, is_failed, byte_count};

use crate::bytes::Bytes;
use std::alloc::Global;

/// What a read of a whole file gave.
#[derive(Drop)]
pub enum Read {
    /// The bytes under the name, all of them.
    Whole(Bytes),
    /// The shelf met a fault, and counted it for this name.
    Failed,
    /// There are more bytes than the limit.
    TooLong,
    /// Memory was not found for the bytes.
    NoMemory,
}

impl Read {
    /// Whether the shelf met a fault.
    pub fn is_failed(&self) -> bool
        ensures { result ≡ is_failed self.now }
    {
        matches!(self, Read::Failed)
    }

    /// How many bytes were read: none, unless the answer is `Whole`.
    pub fn byte_count(&self) -> u64
        ensures { result ≡ byte_count self.now }
    {
        match self {
            Read::Whole(bytes) => bytes.as_slice().len() as u64,
            Read::Failed | Read::TooLong | Read::NoMemory => 0,
        }
    }
}

/// Holds bytes under names, and counts the faults of each name and the bytes that it takes.
///
/// A count that stands at 2^64 - 1 counts as risen.
pub trait Shelf {
    ghost use Rattle.std.specs.Prelude.{List, ℕ, Option};

    /// What it holds under a name, where it tells that.
    ghost held: { Self → List ℕ → Option (List ℕ) };

    /// How many faults it met for a name.
    ghost faults: { Self → List ℕ → ℕ };

    /// How many bytes it took from where it has them.
    ghost taken: { Self → ℕ };

    /// How often it was read.
    ghost reads: { Self → ℕ };

    /// Reads all the bytes held under the name, of which there may be `limit` at most.
    ///
    /// The answer is `Failed` only where the count of this name rose. Where it is `Whole` or `TooLong`, it
    /// is `TooLong` exactly where more than `limit` bytes are held; a shelf that does not tell what it
    /// holds answers so only where it took `limit + 1` bytes in this call. `NoMemory` may come at any time.
    fn read_whole(&mut self, alloc: Global, name: &str, limit: u64) -> Read
        ensures whole { IfWhole result (λ bytes. IsHeld (held self.old name.now) bytes) }
        ensures within { IfWhole result (λ bytes. length bytes ≤ limit) }
        ensures too_long { OnTooLong result
            (IsTooLong (held self.old name.now) limit (taken self.old) (taken self.new)) }
        ensures failed { OnFailed result
            (Rose (faults self.old name.now) (faults self.new name.now)) }

        // What it holds stays, and no count falls.
        ensures holds_the_same { (n : List ℕ) → held self.new n ≡ held self.old n }
        ensures faults_never_fall { (n : List ℕ) → faults self.old n ≤ faults self.new n }
        ensures taken_never_falls { taken self.old ≤ taken self.new }
        ensures numbers { reads self.new ≡ raised 1 (reads self.old) };
}
