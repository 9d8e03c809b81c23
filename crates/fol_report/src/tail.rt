//! Text that is made from its last byte to its first.

ghost use Rattle.std.specs.Prelude.{◌≡◌, ◌+◌, ◌≤◌, [], ◌++◌, decimal, length, IfOk, IsAscii, string_bytes};
ghost use Rattle.std.specs.Fmt.{signed_decimal};

use itoa::write_digits;
use std::alloc::AllocError;
use std::marker::Model;

/// How many bytes it can have.
const ROOM: usize = 80;

/// A short text that grows at its front: each number is written where it stays, and the whole is put at once.
#[derive(Drop)]
pub struct Tail {
    bytes: [u8; ROOM],
    start: usize,
}

impl Model for Tail {
    ghost use Rattle.std.specs.Prelude.{List, ℕ, ◌≤◌, drop};
    ghost use Rattle.fol_report.specs.Tails.{IsTail};

    ghost Value = { List ℕ };

    ghost view = { λ t. drop t.start t.bytes };

    ghost invariant = { λ t. IsTail t.start t.bytes };
}

impl Tail {
    /// No text.
    #[inline]
    pub fn new() -> Tail
        ensures { result ≡ [] }
    {
        Tail {
            bytes: [0; ROOM],
            start: ROOM,
        }
    }

    /// Puts a number in front, of 20 digits at most.
    #[inline]
    pub fn push_number(&mut self, number: u64)
        requires { length self.old + 20 ≤ 80 }
        ensures text { self.new ≡ decimal number ++ self.old }
        ensures len { length self.new ≤ length self.old + 20 }
    {
        self.start = write_digits(number, &mut self.bytes, self.start);
    }

    /// Puts a number in front, of 10 digits at most.
    #[inline]
    pub fn push_short(&mut self, number: u32)
        requires { length self.old + 10 ≤ 80 }
        ensures text { self.new ≡ decimal number ++ self.old }
        ensures len { length self.new ≤ length self.old + 10 }
    {
        self.start = write_digits(number as u64, &mut self.bytes, self.start);
    }

    /// Puts a number in front, of 10 digits at most behind its sign.
    #[inline]
    pub fn push_signed(&mut self, number: i32)
        requires { length self.old + 11 ≤ 80 }
        ensures text { self.new ≡ signed_decimal number ++ self.old }
        ensures len { length self.new ≤ length self.old + 11 }
    {
        self.push_short(number.unsigned_abs());
        if number < 0 {
            self.push_word(b"-");
        }
    }

    /// Puts a word in front.
    #[inline]
    pub fn push_word(&mut self, word: &[u8])
        requires room { length self.old + length word.now ≤ 80 }
        requires ascii { IsAscii word.now }
        ensures text { self.new ≡ word.now ++ self.old }
        ensures len { length self.new ≡ length self.old + length word.now }
    {
        let start = self.start - word.len();
        self.bytes[start..self.start].copy_from_slice(word);
        self.start = start;
    }

    /// Puts the text behind another one.
    #[inline]
    pub fn put(&self, out: &mut String) -> Result<(), AllocError>
        ensures { IfOk result (λ _. string_bytes out.new ≡ string_bytes out.old ++ self.now) }
    {
        out.push_str(unsafe { std::str::from_utf8_unchecked(&self.bytes[self.start..]) })
    }
}
