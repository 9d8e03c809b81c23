//! A whole output, written in pieces.

ghost use Rattle.std.specs.Prelude.{◌≡◌, ◌≤◌, [], flat_map};
ghost use Rattle.fol_io.specs.Sink.{ReceivedInPieces, Takes};

use crate::left::Left;
use crate::sink::{Put, Sink};
use crate::source::{PIECE_SIZE, Source};

/// Puts all the bytes, in pieces of 4,096 bytes of which the last may be shorter, and stops at the first
/// piece that fails.
///
/// After `Ok` the sink has received all the bytes besides. After `Failed` it has received whole pieces of them
/// besides and a prefix of the next, and its count rose. An empty output makes no put.
pub fn put_in_pieces<K: Sink>(sink: &mut K, bytes: &[u8]) -> Put
    ensures takes { Takes (K.received sink.old) (K.received sink.new) (K.faults sink.old)
        (K.faults sink.new) bytes.now result }
    ensures pieces { result ≡ Put.Failed
        → ReceivedInPieces (K.received sink.old) (K.received sink.new) (K.puts sink.old)
        (K.puts sink.new) bytes.now }
    ensures faults_never_fall { K.faults sink.old ≤ K.faults sink.new }
    ensures empty { bytes.now ≡ [] → result ≡ Put.Ok }
    ensures empty_makes_no_put { bytes.now ≡ [] → sink.new ≡ sink.old }
{
    put_source(
        sink,
        Left {
            row: bytes,
            parts: &[],
        },
    )
}

/// Puts the bytes of all the parts, one behind the other, as [`put_in_pieces`] puts them where they lie in a row: a piece may go over the
/// ends of parts. Takes no memory.
pub fn put_all_in_pieces<K: Sink>(sink: &mut K, parts: &[Vec<u8>]) -> Put
    ensures takes { Takes (K.received sink.old) (K.received sink.new) (K.faults sink.old)
        (K.faults sink.new) (flat_map (λ part. part.items) parts.now) result }
    ensures pieces { result ≡ Put.Failed
        → ReceivedInPieces (K.received sink.old) (K.received sink.new) (K.puts sink.old)
        (K.puts sink.new) (flat_map (λ part. part.items) parts.now) }
    ensures faults_never_fall { K.faults sink.old ≤ K.faults sink.new }
    ensures empty { flat_map (λ part. part.items) parts.now ≡ [] → result ≡ Put.Ok }
    ensures empty_makes_no_put { flat_map (λ part. part.items) parts.now ≡ []
        → sink.new ≡ sink.old }
{
    put_source(sink, Left { row: &[], parts })
}

/// Puts all the bytes of a source, as [`put_in_pieces`] puts them where they lie in a row. Takes no memory.
pub fn put_source<K: Sink, S: Source + Drop>(sink: &mut K, mut source: S) -> Put
    ensures takes { Takes (K.received sink.old) (K.received sink.new) (K.faults sink.old)
        (K.faults sink.new) (S.left source) result }
    ensures pieces { result ≡ Put.Failed
        → ReceivedInPieces (K.received sink.old) (K.received sink.new) (K.puts sink.old)
        (K.puts sink.new) (S.left source) }
    ensures faults_never_fall { K.faults sink.old ≤ K.faults sink.new }
    ensures empty { S.left source ≡ [] → result ≡ Put.Ok }
    ensures empty_makes_no_put { S.left source ≡ [] → sink.new ≡ sink.old }
{
    let mut carry = [0; PIECE_SIZE];
    while source.has_more() {
        match source.put_piece(sink, &mut carry) {
            Put::Ok => {}
            Put::Failed => return Put::Failed,
        }
    }
    Put::Ok
}
