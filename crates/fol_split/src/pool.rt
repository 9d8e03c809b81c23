//! The sections that are to be split, and which of them were taken.

ghost use Rattle.std.specs.Prelude.{◌≡◌, ◌+◌, ◌<◌, ◌≤◌, IsTrue, IfOk, [], length, drop};
ghost use Rattle.std.specs.List.{All, IsDistinct};
ghost use Rattle.std.specs.List.Sorted.{IsStrictlySortedBy, IsPermutation};
ghost use Rattle.std.specs.Vec.{vec_capacity};
ghost use Rattle.fol_model.specs.declared.places.SectionPos.{SectionPos};
ghost use Rattle.fol_model.specs.Geometry.{is_section, same_section, is_among};
ghost use Rattle.fol_model.specs.Universe.{section_cmp};
ghost use Rattle.fol_split.specs.Pool.{TakesClass, IsApart, IsLoaded, is_left};
ghost use Rattle.fol_split.specs.Runs.{AreRuns, all_of, run_at, sections_of, first_of};

use crate::runs::Runs;
use fol_model::{MOST_SECTIONS, SectionPos};
use std::alloc::{AllocError, Global};
use std::marker::Model;

/// Sections in order by `(z, x)` as runs, and those that were taken, in the order in which they were.
#[derive(Drop)]
pub struct Pool {
    /// The sections of the runs, in order.
    order: Vec<SectionPos>,
    runs: Runs,
    found: Vec<SectionPos>,
}

impl Model for Pool {
    ghost use Rattle.fol_split.specs.Pool.{Taken};

    ghost Value = { Taken };

    ghost use Rattle.std.specs.Vec.{vec_capacity};
    ghost use Rattle.std.specs.Prelude.{◌≡◌};
    ghost use Rattle.fol_split.specs.Pool.{IsPool, HasRoom};
    ghost use Rattle.fol_split.specs.Runs.{all_of};

    ghost view = { λ p. record { runs = p.runs.runs; found = p.found.items } };

    ghost invariant = { λ p. IsPool p.runs p.found.items × HasRoom (vec_capacity p.order) (vec_capacity p.found) × (all_of p.runs.runs ≡ p.order.items) };
}

impl Pool {
    /// A pool of no sections, with the memory for 16,384.
    pub fn new(alloc: Global) -> Result<Pool, AllocError>
        ensures { IfOk result (λ p. p ≡ record { runs = []; found = [] }) }
    {
        Ok(Pool {
            order: Vec::with_capacity(alloc, MOST_SECTIONS)?,
            runs: Runs::new(alloc)?,
            found: Vec::with_capacity(alloc, MOST_SECTIONS)?,
        })
    }

    /// The number of runs of the pool.
    pub fn len(&self) -> usize
        ensures value { result ≡ length self.now.runs }
        ensures runs { AreRuns self.now.runs }
    {
        self.runs.len()
    }

    /// Whether the sections of the run at a place were not taken: of a run all sections were, or none.
    pub fn is_left(&self, k: usize) -> bool
        requires { k < length self.now.runs }
        ensures { (s : SectionPos) → IsTrue (is_among (sections_of (run_at self.now.runs k)) s)
            → is_left self.now s ≡ result }
    {
        self.runs.is_left(k)
    }

    /// The number of sections that were taken.
    pub fn taken(&self) -> usize
        ensures value { result ≡ length self.now.found }
        ensures bound { result ≤ MOST_SECTIONS }
    {
        self.found.len()
    }

    /// The sections that were taken.
    pub fn found(&self) -> &[SectionPos]
        ensures { result.now ≡ self.now.found }
    {
        self.found.as_slice()
    }

    /// A pool of these sections, of which none was taken.
    pub fn load(&mut self, sections: &[SectionPos])
        requires few { length sections.now ≤ MOST_SECTIONS }
        requires distinct { IsDistinct same_section sections.now }
        requires in_range { All (λ s. IsTrue (is_section s)) sections.now }
        ensures { IsLoaded self.new sections.now }
    {
        self.found.clear();
        self.order.clear();
        let _ = self.order.extend_from_slice(sections);
        load_sorted(&mut self.runs, &mut self.order);
    }

    /// Takes the sections that are joined with those of the run at a place, in order.
    pub fn take_class(&mut self, k: usize, merge: u8)
        requires in_place { k < length self.old.runs }
        requires sound { AreRuns self.old.runs }
        requires left { IsTrue (is_left self.old (first_of (run_at self.old.runs k))) }
        requires apart { IsApart self.old merge }
        requires reach_low { 1 ≤ merge }
        requires reach_high { merge ≤ 4 }
        ensures class { TakesClass self.old self.new merge (first_of (run_at self.old.runs k))
            (drop (length self.old.found) self.new.found) }
        ensures apart { IsApart self.new merge }
    {
        self.runs.take_class(k, merge);
        self.runs.append_class(&self.order, &mut self.found);
    }
}

/// Puts sections in order by `(z, x)`, unless they are so already, and makes runs of them, each of them left.
fn load_sorted(runs: &mut Runs, order: &mut Vec<SectionPos>)
    requires few { length order.old.items ≤ MOST_SECTIONS }
    requires distinct { IsDistinct same_section order.old.items }
    requires in_range { All (λ s. IsTrue (is_section s)) order.old.items }
    ensures permuted { IsPermutation order.old.items order.new.items }
    ensures room { vec_capacity order.new ≡ vec_capacity order.old }
    ensures all { all_of runs.new.runs ≡ order.new.items }
    ensures left { All IsTrue runs.new.left }
    ensures flags { length runs.new.left ≡ length runs.new.runs }
{
    if runs.load(order) {
        return;
    }
    sort(order);
    let _ = runs.load(order);
}

/// Puts sections in order by `(z, x)`.
fn sort(sections: &mut Vec<SectionPos>)
    requires distinct { IsDistinct same_section sections.old.items }
    ensures permuted { IsPermutation sections.old.items sections.new.items }
    ensures in_order { IsStrictlySortedBy section_cmp sections.new.items }
    ensures room { vec_capacity sections.new ≡ vec_capacity sections.old }
{
    sections.sort_unstable_by_key(|s| (s.z, s.x));
}
