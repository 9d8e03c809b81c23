//! What a lock can keep.

ghost use Rattle.std.specs.Prelude.{ℕ, List};

/// A state that a lock can keep. A program calls nothing of this trait: only contracts read it.
pub trait Kept: Drop {
    /// What stays the same while the log grows.
    type Origin;

    /// What the log is a list of.
    type Entry;

    // what this state began as
    ghost origin: { Self → Self.Origin };

    // all entries so far, oldest first
    ghost log: { Self → List Self.Entry };

    // the number of the seat that gave the entry
    ghost by: { Self.Entry → ℕ };
}
