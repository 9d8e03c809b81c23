//! The parts of a set of sections.

ghost use Rattle.std.specs.Prelude.{◌≡◌, ◌+◌, ◌<◌, ◌≤◌, IsTrue, IfOk, [], length};
ghost use Rattle.std.specs.List.{All, IsDistinct, slice_index_or};
ghost use Rattle.std.specs.Vec.{vec_capacity};
ghost use Rattle.fol_model.specs.Geometry.{is_section, same_section};
ghost use Rattle.fol_split.specs.Parts.{ArePartsOf};
ghost use Rattle.fol_split.specs.Pool.{is_left};
ghost use Rattle.fol_split.specs.Runs.{AreRuns, run_at, first_of};
ghost use Rattle.fol_split.specs.Spans.{IsSplit};

use crate::pool::Pool;
use crate::spans::Span;
use fol_model::{MOST_SECTIONS, SectionPos};
use std::alloc::{AllocError, Global};
use std::marker::Model;

/// The parts that the last call of `parts` found.
///
/// Contracts see them as the list of the parts, each a list of sections.
#[derive(Drop)]
pub struct Splitter {
    pool: Pool,
    /// One for each part, over the sections that the pool gave.
    spans: Vec<Span>,
}

impl Model for Splitter {
    ghost use Rattle.fol_model.specs.declared.places.TheConstants.{MOST_SECTIONS};
    ghost use Rattle.std.specs.Prelude.{List, ◌≤◌, length};
    ghost use Rattle.std.specs.List.{All};
    ghost use Rattle.std.specs.Vec.{vec_capacity};
    ghost use Rattle.fol_model.specs.declared.places.SectionPos.{SectionPos};
    ghost use Rattle.fol_split.specs.Spans.{pieces_of, IsSpan};

    ghost Value = { List (List SectionPos) };

    ghost view = { λ s. pieces_of s.pool.found s.spans.items };

    ghost invariant = { λ s. All (IsSpan (length s.pool.found)) s.spans.items × (length s.spans.items ≤ MOST_SECTIONS) × (MOST_SECTIONS ≤ vec_capacity s.spans) };
}

impl Splitter {
    /// No part, with the memory for 16,384 sections.
    pub fn new(alloc: Global) -> Result<Splitter, AllocError>
        ensures { IfOk result (λ s. s ≡ []) }
    {
        Ok(Splitter {
            pool: Pool::new(alloc)?,
            spans: Vec::with_capacity(alloc, MOST_SECTIONS)?,
        })
    }

    /// Finds the parts of these sections, which are distinct, within the limits and at most 16,384; `merge` is 1 to 4.
    ///
    /// Two sections are in one part exactly where a list of the sections leads from one to the other, each at most `merge` away
    /// from the next. Each part is in order by `(z, x)`, and the parts are in order of their least sections. Takes no memory.
    pub fn parts(&mut self, sections: &[SectionPos], merge: u8)
        requires few { length sections.now ≤ MOST_SECTIONS }
        requires distinct { IsDistinct same_section sections.now }
        requires in_range { All (λ s. IsTrue (is_section s)) sections.now }
        requires reach_low { 1 ≤ merge }
        requires reach_high { merge ≤ 4 }
        ensures { ArePartsOf sections.now merge self.new }
    {
        self.spans.clear();
        self.pool.load(sections);
        split(&mut self.pool, &mut self.spans, merge);
    }

    /// The number of parts that the last call of `parts` found.
    pub fn count(&self) -> u32
        ensures { result ≡ length self.now }
    {
        self.spans.len() as u32
    }

    /// One of these parts; `i` is below `count`.
    pub fn part(&self, i: u32) -> &[SectionPos]
        requires { i < length self.now }
        ensures { result.now ≡ slice_index_or self.now i [] }
    {
        let span = self.spans[i as usize];
        &self.pool.found()[span.from..span.to]
    }
}

/// Finds the parts of a pool of which no section was taken.
fn split(pool: &mut Pool, spans: &mut Vec<Span>, merge: u8)
    requires none_taken { pool.old.found ≡ [] }
    requires no_part { spans.old.items ≡ [] }
    requires room { MOST_SECTIONS ≤ vec_capacity spans.old }
    requires reach_low { 1 ≤ merge }
    requires reach_high { merge ≤ 4 }
    ensures split { IsSplit pool.new spans.new.items merge (length pool.old.runs) }
    ensures runs { pool.new.runs ≡ pool.old.runs }
    ensures few { length spans.new.items ≤ MOST_SECTIONS }
    ensures room { MOST_SECTIONS ≤ vec_capacity spans.new }
{
    for k in 0..pool.len() {
        if pool.is_left(k) {
            take_part(pool, spans, merge, k);
        }
    }
}

/// Takes the part whose least section is the first one of the run at place `k`.
fn take_part(pool: &mut Pool, spans: &mut Vec<Span>, merge: u8, k: usize)
    requires before { IsSplit pool.old spans.old.items merge k }
    requires in_place { k < length pool.old.runs }
    requires sound { AreRuns pool.old.runs }
    requires left { IsTrue (is_left pool.old (first_of (run_at pool.old.runs k))) }
    requires room { MOST_SECTIONS ≤ vec_capacity spans.old }
    requires reach_low { 1 ≤ merge }
    requires reach_high { merge ≤ 4 }
    ensures after { IsSplit pool.new spans.new.items merge (k + 1) }
    ensures runs { pool.new.runs ≡ pool.old.runs }
    ensures few { length spans.new.items ≤ MOST_SECTIONS }
    ensures room { MOST_SECTIONS ≤ vec_capacity spans.new }
{
    let from = pool.taken();
    pool.take_class(k, merge);
    let _ = spans.push(Span {
        from,
        to: pool.taken(),
    });
}
