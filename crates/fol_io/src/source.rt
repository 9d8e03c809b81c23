//! Where the bytes of an output come from.

ghost use Rattle.std.specs.Prelude.{◌≡◌, ◌≢◌, ◌≤◌, [], drop, length, take, true, false};
ghost use Rattle.fol_io.specs.Counts.{raised};
ghost use Rattle.fol_io.specs.Sink.{Takes};

use crate::sink::{Put, Sink};

/// How many bytes are put at a time.
pub const PIECE_SIZE: usize = 4096;

/// An output that is still to be put, or what is left of it. It takes no memory.
pub trait Source {
    ghost use Rattle.std.specs.Prelude.{List, ℕ};

    /// The bytes that are left.
    ghost left: { Self → List ℕ };

    /// Whether any byte is left.
    fn has_more(&mut self) -> bool
        ensures same { left self.new ≡ left self.old }
        ensures more { result ≡ true → left self.new ≢ [] }
        ensures none { result ≡ false → left self.new ≡ [] };

    /// Puts the next piece, from where it lies or from the carry.
    fn put_piece<K: Sink>(&mut self, sink: &mut K, carry: &mut [u8]) -> Put
        requires { length carry.old ≡ 4096 }
        ensures left { left self.new ≡ drop 4096 (left self.old) }
        ensures takes { Takes (K.received sink.old) (K.received sink.new) (K.faults sink.old)
            (K.faults sink.new) (take 4096 (left self.old)) result }
        ensures faults_never_fall { K.faults sink.old ≤ K.faults sink.new }
        ensures numbers { left self.old ≢ [] → K.puts sink.new ≡ raised 1 (K.puts sink.old) };
}
