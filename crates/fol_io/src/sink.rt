//! Where bytes are written to.

ghost use Rattle.std.specs.Prelude.{◌≡◌, ◌≢◌, ◌≤◌, ℕ, List, Option, []};
ghost use Rattle.fol_io.specs.Counts.{raised};
ghost use Rattle.fol_io.specs.Sink.{Takes};

/// What became of the bytes that were put.
#[derive(Clone, Copy, Debug, PartialEq, Eq)]
pub enum Put {
    /// All of them were received.
    Ok,
    /// The sink met a fault, and counted it; a first part of them may have been received.
    Failed,
}

/// Receives bytes, and counts its faults and the pieces that it was given.
///
/// A count that stands at 2^64 - 1 counts as risen.
pub trait Sink {
    ghost use Rattle.std.specs.Prelude.{List, ℕ, Option};

    /// All that it has received, where it tells that.
    ghost received: { Self → Option (List ℕ) };

    /// How many faults it met.
    ghost faults: { Self → ℕ };

    /// How many pieces that are not empty it was given.
    ghost puts: { Self → ℕ };

    /// Writes one piece. After `Ok` the sink has received the whole piece besides; after `Failed` it has
    /// received a prefix of the piece besides, and its count rose. An empty piece is always `Ok`. Takes
    /// no memory.
    fn put(&mut self, bytes: &[u8]) -> Put
        ensures takes { Takes (received self.old) (received self.new) (faults self.old)
            (faults self.new) bytes.now result }
        ensures faults_never_fall { faults self.old ≤ faults self.new }
        ensures empty { bytes.now ≡ [] → result ≡ Put.Ok }
        ensures numbers { bytes.now ≢ [] → puts self.new ≡ raised 1 (puts self.old) }
        ensures empty_has_no_number { bytes.now ≡ [] → puts self.new ≡ puts self.old };
}
