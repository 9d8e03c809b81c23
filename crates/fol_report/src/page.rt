//! A page of lines.

ghost use Rattle.std.specs.Prelude.{◌≡◌, ◌+◌, ◌≤◌, [], ◌∷◌, ◌++◌, ◌<◌, decimal, length, IfOk, IsAscii, string_bytes, true, false};
ghost use Rattle.std.specs.Fmt.{signed_decimal};
ghost use Rattle.fol_model.specs.ReportWords.{block_words, chunk_words};
ghost use Rattle.fol_report.specs.Spaced.{spaced};

use crate::digits::put_digits;
use crate::row::write_word;
use crate::stretch::Stretch;
use fol_model::{BlockPos, ChunkPos};
use std::alloc::AllocError;
use std::marker::Model;

/// How many bytes it can have.
const ROOM: usize = 1024;

/// A text that grows at its end, in which the lines of a history are made. Those of a report as text share one, which is put once it may have no
/// room for what comes next, and before the action of a post; a line of a JSON report has one of its own.
#[derive(Drop)]
pub struct Page {
    bytes: [u8; ROOM],
    len: usize,
    stretch: Stretch,
}

impl Model for Page {
    ghost use Rattle.std.specs.Prelude.{List, ℕ, take};
    ghost use Rattle.fol_report.specs.Pages.{IsPage};

    ghost Value = { List ℕ };

    ghost view = { λ p. take p.len p.bytes };

    ghost invariant = { λ p. IsPage p.len p.bytes };
}

impl Page {
    /// No text.
    #[inline]
    pub fn new() -> Page
        ensures { result ≡ [] }
    {
        Page {
            bytes: [0; ROOM],
            len: 0,
            stretch: Stretch::of(0, 0),
        }
    }

    /// The text.
    #[inline(always)]
    pub fn as_bytes(&self) -> &[u8]
        ensures text { result.now ≡ self.now }
        ensures within { length self.now ≤ 1024 }
    {
        &self.bytes[..self.len]
    }

    /// Leaves no text.
    #[inline(always)]
    pub fn clear(&mut self)
        ensures { self.new ≡ [] }
    {
        self.len = 0;
    }

    /// Whether there is room for a line of 128 bytes.
    #[inline(always)]
    pub fn has_room(&self) -> bool
        ensures room { result ≡ true → length self.now + 128 ≤ 1024 }
        ensures none { result ≡ false → 1024 < length self.now + 128 }
        ensures within { length self.now ≤ 1024 }
    {
        self.len <= ROOM - 128
    }

    /// Puts a word behind the text.
    #[inline]
    pub fn push_word(&mut self, word: &[u8])
        requires room { length self.old + length word.now ≤ 1024 }
        requires ascii { IsAscii word.now }
        ensures { self.new ≡ self.old ++ word.now }
    {
        self.len = write_word(&mut self.bytes, self.len, word);
    }

    /// Puts a number behind the text, of 20 digits at most.
    #[inline(always)]
    pub fn push_number(&mut self, number: u64)
        requires { length self.old + 20 ≤ 1024 }
        ensures text { self.new ≡ self.old ++ decimal number }
        ensures len { length self.new ≤ length self.old + 20 }
    {
        self.len = put_digits(&mut self.bytes, self.len, number);
    }

    /// Puts a number behind the text, of 10 digits at most.
    #[inline(always)]
    pub fn push_short(&mut self, number: u32)
        requires { length self.old + 10 ≤ 1024 }
        ensures text { self.new ≡ self.old ++ decimal number }
        ensures len { length self.new ≤ length self.old + 10 }
    {
        self.len = put_digits(&mut self.bytes, self.len, number as u64);
    }

    /// Puts a number behind the text, of 10 digits at most behind its sign.
    #[inline]
    pub fn push_signed(&mut self, number: i32)
        requires { length self.old + 11 ≤ 1024 }
        ensures text { self.new ≡ self.old ++ signed_decimal number }
        ensures len { length self.new ≤ length self.old + 11 }
    {
        if number < 0 {
            self.push_word(b"-");
        }
        self.push_short(number.unsigned_abs());
    }

    /// Puts a space and a coordinate behind the text.
    #[inline]
    fn push_coordinate(&mut self, place: i32)
        requires { length self.old + 12 ≤ 1024 }
        ensures text { self.new ≡ self.old ++ 32 ∷ signed_decimal place }
        ensures len { length self.new ≤ length self.old + 12 }
    {
        self.push_word(b" ");
        self.push_signed(place);
    }

    /// Puts the coordinates of a chunk behind the text.
    pub fn push_chunk(&mut self, at: ChunkPos)
        requires { length self.old + 24 ≤ 1024 }
        ensures text { self.new ≡ self.old ++ spaced (chunk_words at) }
        ensures len { length self.new ≤ length self.old + 24 }
    {
        self.push_coordinate(at.x);
        self.push_coordinate(at.z);
    }

    /// Puts the coordinates of a block behind the text.
    pub fn push_block(&mut self, at: BlockPos)
        requires { length self.old + 36 ≤ 1024 }
        ensures text { self.new ≡ self.old ++ spaced (block_words at) }
        ensures len { length self.new ≤ length self.old + 36 }
    {
        self.push_coordinate(at.x);
        self.push_coordinate(at.y);
        self.push_coordinate(at.z);
    }

    /// Puts the numbers of a worker and of a region behind the text.
    #[inline(always)]
    pub fn push_seat(&mut self, worker: u32, region: u64)
        requires { length self.old + 32 ≤ 1024 }
        ensures text { self.new ≡ self.old ++ decimal worker ++ 32 ∷ decimal region }
        ensures len { length self.new ≤ length self.old + 32 }
    {
        self.stretch.turn_to(worker, region);
        self.len = self.stretch.put(&mut self.bytes, self.len);
    }

    /// Puts the text behind another one, and leaves none.
    #[inline]
    pub fn put(&mut self, out: &mut String) -> Result<(), AllocError>
        ensures text { IfOk result (λ _. string_bytes out.new ≡ string_bytes out.old ++ self.old) }
        ensures none { IfOk result (λ _. self.new ≡ []) }
    {
        if self.len == 0 {
            return Ok(());
        }
        out.push_str(unsafe { std::str::from_utf8_unchecked(&self.bytes[..self.len]) })?;
        self.clear();
        Ok(())
    }

    /// Puts the text behind another one where it leaves no room for a line of 128 bytes.
    pub fn make_room(&mut self, out: &mut String) -> Result<(), AllocError>
        ensures text { IfOk result (λ _. string_bytes out.new ++ self.new
            ≡ string_bytes out.old ++ self.old) }
        ensures room { IfOk result (λ _. length self.new + 128 ≤ 1024) }
    {
        if !self.has_room() {
            return self.put(out);
        }
        Ok(())
    }
}
