//! The words of a line, read one after the other.

ghost use Rattle.std.specs.Prelude.{◌≡◌, IsTrue, ◌↔◌};

use crate::faults::Fault;
use crate::numbers::read_natural;
use fol_model::{BlockPos, ChunkPos, Reading};
use fol_script::{next_word, read_number};
use std::marker::Model;

/// The words of a line that are still to be read.
#[derive(Drop)]
pub struct Words<'a> {
    rest: &'a [u8],
    more: bool,
}

impl<'a> Model for Words<'a> {
    ghost use Rattle.std.specs.Prelude.{ℕ, List};
    ghost use Rattle.fol_script.specs.Marks.{left};

    ghost Value = { List (List ℕ) };

    ghost view = { λ w. left w.more w.rest.now };
}

/// Whether two words are the same.
pub fn is_word(word: &[u8], text: &[u8]) -> bool
    ensures { IsTrue result ↔ (word.now ≡ text.now) }
{
    word == text
}

impl<'a> Words<'a> {
    ghost use Rattle.std.specs.Prelude.{◌≡◌, ℕ, ◌≤◌, ◌<◌, ◌^◌, ◌≤ℤ◌, pos, negsuc, List, [], ◌∷◌, ◌++◌, true, decimal, IfOk, OnOk, OnErr, Err};
    ghost use Rattle.std.specs.Fmt.{signed_decimal};
    ghost use Rattle.fol_model.specs.TextLines.{words};
    ghost use Rattle.fol_model.specs.Geometry.{is_chunk, is_block};
    ghost use Rattle.fol_model.specs.ReportWords.{chunk_words, block_words};
    ghost use Rattle.fol_events.specs.declared.faults.Fault.TheVariants.{Unspelled};
    ghost use Rattle.fol_events.specs.Pieces.{NoneIn, one_word, signed_word};

    /// The words of a line.
    pub fn of(line: &'a [u8]) -> Words<'a>
        ensures { result ≡ words line.now }
    {
        Words {
            rest: line,
            more: true,
        }
    }

    /// The next word.
    pub fn next(&mut self) -> Result<&'a [u8], Fault>
        ensures found { IfOk result (λ w. self.old ≡ w.now ∷ self.new) }
        ensures none { OnErr result (self.old ≡ []) }
    {
        if !self.more {
            return Err(Fault::Unspelled);
        }
        let (word, rest, more) = next_word(self.rest);
        self.rest = rest;
        self.more = more;
        Ok(word)
    }

    /// Passes this word.
    pub fn pass(&mut self, text: &[u8]) -> Result<(), Fault>
        ensures found { OnOk result (self.old ≡ text.now ∷ self.new) }
        ensures none { OnErr result ((more : List (List ℕ)) → self.old ≡ text.now ∷ more → ⊥) }
    {
        let word = self.next()?;
        if is_word(word, text) {
            Ok(())
        } else {
            Err(Fault::Unspelled)
        }
    }

    /// Passes the end of the line: no word is left.
    pub fn end(&mut self) -> Result<(), Fault>
        ensures found { OnOk result (self.old ≡ []) }
        ensures none { OnErr result (self.old ≡ [] → ⊥) }
    {
        match self.next() {
            Ok(_) => Err(Fault::Unspelled),
            Err(_) => Ok(()),
        }
    }

    /// A number up to `most`.
    pub fn natural(&mut self, most: u64) -> Result<u64, Fault>
        ensures found { IfOk result (λ n. (n ≤ most) × (self.old ≡ decimal n ∷ self.new)) }
        ensures none { OnErr result (NoneIn one_word (λ n. n ≤ most) self.old) }
    {
        let word = self.next()?;
        match read_natural(word, most) {
            Some(n) => Ok(n),
            None => Err(Fault::Unspelled),
        }
    }

    /// A number from 1 to `most`.
    pub fn positive(&mut self, most: u64) -> Result<u64, Fault>
        ensures found { IfOk result (λ n. (1 ≤ n) × (n ≤ most)
            × (self.old ≡ decimal n ∷ self.new)) }
        ensures none { OnErr result (NoneIn one_word (λ n. (1 ≤ n) × (n ≤ most)) self.old) }
    {
        let n = self.natural(most)?;
        if n == 0 { Err(Fault::Unspelled) } else { Ok(n) }
    }

    /// A number of 32 bits.
    pub fn small(&mut self) -> Result<u32, Fault>
        ensures found { IfOk result (λ n. self.old ≡ decimal n ∷ self.new) }
        ensures none { OnErr result (NoneIn one_word (λ n. n < 2 ^ 32) self.old) }
    {
        let n = self.natural(4_294_967_295)?;
        Ok(n as u32)
    }

    /// A number of 64 bits.
    pub fn wide(&mut self) -> Result<u64, Fault>
        ensures found { IfOk result (λ n. self.old ≡ decimal n ∷ self.new) }
        ensures none { OnErr result (NoneIn one_word (λ n. n < 2 ^ 64) self.old) }
    {
        self.natural(u64::MAX)
    }

    /// A number from `low` to `high`.
    pub fn integer(&mut self, low: i64, high: i64) -> Result<i32, Fault>
        requires low { negsuc 2147483647 ≤ℤ low }
        requires high { high ≤ℤ pos 2147483647 }
        ensures found { IfOk result (λ z. (low ≤ℤ z) × (z ≤ℤ high)
            × (self.old ≡ signed_decimal z ∷ self.new)) }
        ensures none { OnErr result (NoneIn signed_word (λ z. (low ≤ℤ z) × (z ≤ℤ high)) self.old) }
    {
        let word = self.next()?;
        match read_number(word, low, high) {
            Reading::Is(z) => Ok(z as i32),
            _ => Err(Fault::Unspelled),
        }
    }

    /// A chunk.
    pub fn chunk(&mut self) -> Result<ChunkPos, Fault>
        ensures found { IfOk result (λ c. (is_chunk c ≡ true)
            × (self.old ≡ chunk_words c ++ self.new)) }
        ensures none { OnErr result (NoneIn chunk_words (λ c. is_chunk c ≡ true) self.old) }
    {
        let x = self.integer(-1_000_000, 1_000_000)?;
        let z = self.integer(-1_000_000, 1_000_000)?;
        Ok(ChunkPos { x, z })
    }

    /// A block.
    pub fn block(&mut self) -> Result<BlockPos, Fault>
        ensures found { IfOk result (λ b. (is_block b ≡ true)
            × (self.old ≡ block_words b ++ self.new)) }
        ensures none { OnErr result (NoneIn block_words (λ b. is_block b ≡ true) self.old) }
    {
        let x = self.integer(-16_000_000, 16_000_015)?;
        let y = self.integer(0, 255)?;
        let z = self.integer(-16_000_000, 16_000_015)?;
        Ok(BlockPos { x, y, z })
    }
}
