//! What is left of an output.

ghost use Rattle.std.specs.Prelude.{◌≡◌, ◌≢◌, ◌≤◌, ◌<◌, [], ◌++◌, drop, flat_map, length, take, true, false};
ghost use Rattle.fol_io.specs.Left.{left_of};

use crate::sink::{Put, Sink};
use crate::source::{PIECE_SIZE, Source};

/// What is left to be put: bytes in a row, and the parts behind them.
#[derive(Drop)]
pub(crate) struct Left<'a> {
    pub(crate) row: &'a [u8],
    pub(crate) parts: &'a [Vec<u8>],
}

impl<'a> Source for Left<'a> {
    ghost left = { left_of };

    fn has_more(&mut self) -> bool {
        self.has_row()
    }

    /// A piece that goes over the end of a part is put from the carry.
    fn put_piece<K: Sink>(&mut self, sink: &mut K, carry: &mut [u8]) -> Put {
        if self.row.len() >= PIECE_SIZE {
            let (piece, rest) = self.row.split_at(PIECE_SIZE);
            self.row = rest;
            return sink.put(piece);
        }
        let count = self.fill(carry);
        sink.put(&carry[..count])
    }
}

impl<'a> Left<'a> {
    /// Whether anything is left. Goes on to the next part that has a byte, where the row is at its end.
    fn has_row(&mut self) -> bool
        ensures same { left_of self.new ≡ left_of self.old }
        ensures more { result ≡ true → 0 < length self.new.row.now }
        ensures none { result ≡ false → left_of self.new ≡ [] }
    {
        while self.row.is_empty() {
            let Some((next, later)) = self.parts.split_first() else {
                return false;
            };
            self.row = next.as_slice();
            self.parts = later;
        }
        true
    }

    /// Takes the next bytes into the carry, as many as it has room for, and says how many.
    fn fill(&mut self, carry: &mut [u8]) -> usize
        requires { length carry.old ≡ 4096 }
        ensures left { left_of self.new ≡ drop 4096 (left_of self.old) }
        ensures bytes { take result carry.new ≡ take 4096 (left_of self.old) }
        ensures within { result ≤ 4096 }
    {
        let mut len = 0;
        while len < PIECE_SIZE && self.has_row() {
            let count = self.row.len().min(PIECE_SIZE - len);
            let (next, rest) = self.row.split_at(count);
            carry[len..len + count].copy_from_slice(next);
            self.row = rest;
            len += count;
        }
        len
    }
}
