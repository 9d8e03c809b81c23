//! The worker and the region of a stretch of lines.

ghost use Rattle.std.specs.Prelude.{◌≡◌, ◌+◌, ◌≤◌, ◌∷◌, ◌++◌, decimal, length, take};

use crate::digits::put_digits;
use std::marker::Model;

/// How many bytes the text can have, one more than the longest: it is copied whole, so that a copy is of a fixed size.
const ROOM: usize = 32;

/// A worker and a region as text. It is kept from line to line, since in a report most lines have both in common with the line before.
#[derive(Drop)]
pub struct Stretch {
    worker: u32,
    region: u64,
    bytes: [u8; ROOM],
    len: usize,
}

impl Model for Stretch {
    ghost use Rattle.std.specs.Prelude.{List, ℕ, take};
    ghost use Rattle.fol_report.specs.Stretches.{IsStretch};

    ghost Value = { List ℕ };

    ghost view = { λ s. take s.len s.bytes };

    ghost invariant = { λ s. IsStretch s.worker s.region s.len s.bytes };
}

impl Stretch {
    /// The text of a worker and a region.
    #[inline(never)]
    pub fn of(worker: u32, region: u64) -> Stretch
        ensures { result ≡ decimal worker ++ 32 ∷ decimal region }
    {
        let mut bytes = [0; ROOM];
        let space = put_digits(&mut bytes, 0, worker as u64);
        bytes[space] = b' ';
        let len = put_digits(&mut bytes, space + 1, region);
        Stretch {
            worker,
            region,
            bytes,
            len,
        }
    }

    /// Turns to a worker and a region, which costs two comparisons where they are those of the line before.
    #[inline(always)]
    pub fn turn_to(&mut self, worker: u32, region: u64)
        ensures { self.new ≡ decimal worker ++ 32 ∷ decimal region }
    {
        if worker == self.worker && region == self.region {
            return;
        }
        *self = Stretch::of(worker, region);
    }

    /// Puts the text in a row of bytes, and returns the place behind it.
    #[inline(always)]
    pub fn put(&self, bytes: &mut [u8], at: usize) -> usize
        requires { at + 32 ≤ length bytes.old }
        ensures end { result ≡ at + length self.now }
        ensures written { take result bytes.new ≡ take at bytes.old ++ self.now }
    {
        bytes[at..at + ROOM].copy_from_slice(&self.bytes);
        at + self.len
    }
}
