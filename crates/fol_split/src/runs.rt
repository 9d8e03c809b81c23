//! Runs of sections, and the search for those that are joined.

ghost use Rattle.std.specs.Prelude.{◌≡◌, ◌↔◌, ℕ, pos, ◌+ℤ◌, ◌-ℤ◌, nat_abs, ◌&&◌, true, false, ◌+◌, ◌<◌, ◌≤◌, ◌<ℤ◌, IsTrue, IfOk, [], ◌∷◌, ◌++◌, length, take, nat_eq, nat_lt};
ghost use Rattle.std.specs.List.{All, slice_index_or};
ghost use Rattle.std.specs.List.Sorted.{IsStrictlySortedBy};
ghost use Rattle.std.specs.Ordering.{nat_cmp};
ghost use Rattle.std.specs.Vec.{vec_capacity};
ghost use Rattle.fol_model.specs.declared.places.SectionPos.{SectionPos};
ghost use Rattle.fol_model.specs.Geometry.{is_section};
ghost use Rattle.fol_model.specs.Universe.{section_cmp};
ghost use Rattle.fol_split.specs.Runs.{run_at, sections_of, all_of, sections_at, AreRuns, is_left_at, TakesRuns, IsClass, is_one_of, is_across, is_met, is_met_in, is_near, ends_before, begins_before, IsMarked, SortsClass};

use fol_model::{MOST_SECTIONS, SectionPos};
use std::alloc::{AllocError, Global};
use std::marker::Model;

/// Among up to so many runs a search looks at each one: that costs less than a search by halves in each row that may be near.
const FEW: usize = 16;

/// Sections that stand side by side in one row: those at `z` with an `x` from `from` up to but not including `to`.
#[derive(Clone, Copy)]
pub struct Run {
    pub z: i32,
    pub from: i32,
    pub to: i32,
}

impl Run {
    /// The run of one section.
    fn of(s: SectionPos) -> Run
        requires { IsTrue (is_section s) }
        ensures { result ≡ record { z = s.z; from = s.x; to = s.x +ℤ pos 1 } }
    {
        Run {
            z: s.z,
            from: s.x,
            to: s.x + 1,
        }
    }

    /// The run with one section more behind it.
    fn with(self, s: &SectionPos) -> Run
        requires { IsTrue (is_section s.now) }
        ensures { result ≡ record { z = self.z; from = self.from; to = s.now.x +ℤ pos 1 } }
    {
        Run {
            z: self.z,
            from: self.from,
            to: s.x + 1,
        }
    }

    /// The number of its sections.
    fn len(self) -> usize
        requires { self.from <ℤ self.to }
        ensures { result ≡ length (sections_of self) }
    {
        (self.to as i64 - self.from as i64) as usize
    }

    /// The run `merge` rows before this one that goes `merge` further at either end.
    fn grown(self, merge: u8) -> Run
        requires near { (nat_abs self.z ≤ 1000009) × (nat_abs self.from ≤ 1000009)
            × (nat_abs self.to ≤ 1000009) }
        requires reach { merge ≤ 4 }
        ensures grown { result ≡ record {
          z = self.z -ℤ pos merge;
          from = self.from -ℤ pos merge;
          to = self.to +ℤ pos merge;
        } }
        ensures near { nat_abs result.z ≤ 1000020 }
    {
        let reach = merge as i32;
        Run {
            z: self.z - reach,
            from: self.from - reach,
            to: self.to + reach,
        }
    }

    /// The run that many rows behind this one.
    fn behind(self, rows: u32) -> Run
        requires near { nat_abs self.z ≤ 1000020 }
        requires few { rows ≤ 9 }
        ensures { result ≡ record { z = self.z +ℤ pos rows; from = self.from; to = self.to } }
    {
        Run {
            z: self.z + rows as i32,
            from: self.from,
            to: self.to,
        }
    }

    /// Whether a section stands right behind the run.
    fn is_before(self, s: &SectionPos) -> bool
        ensures { IsTrue result ↔ ((s.now.z ≡ self.z) × (s.now.x ≡ self.to)) }
    {
        s.z == self.z && s.x == self.to
    }

    /// Whether the run stands in a row before that of `window`, or in its row and does not go beyond its `from`.
    #[tactic(auto, unfolding(crate::specs::Runs::ends_before))]
    fn ends_before(self, window: Run) -> bool
        ensures { result ≡ ends_before window.z window.from self }
    {
        self.z < window.z || self.z == window.z && self.to <= window.from
    }

    /// Whether the run stands in the row of `window` and begins before its `to`.
    #[tactic(auto, unfolding(crate::specs::Runs::begins_before))]
    fn begins_before(self, window: Run) -> bool
        ensures { result ≡ begins_before window.z window.to self }
    {
        self.z == window.z && self.from < window.to
    }

    /// Whether the run stands in one of `rows` rows from `z` on.
    #[tactic(auto, unfolding(crate::specs::Runs::is_one_of))]
    fn is_in_rows(self, z: i32, rows: u32) -> bool
        requires near { nat_abs z ≤ 1000020 }
        requires few { rows ≤ 9 }
        ensures { result ≡ is_one_of z rows self.z }
    {
        let end = z + rows as i32;
        z <= self.z && self.z < end
    }

    /// Whether the run ends behind `low` and begins before `high`.
    #[tactic(auto, unfolding(crate::specs::Runs::is_across))]
    fn is_across(self, low: i32, high: i32) -> bool
        ensures { result ≡ is_across low high self }
    {
        low < self.to && self.from < high
    }
}

/// Runs in order by `(z, x)`, which of them are left, and those that the last search took.
#[derive(Drop)]
pub struct Runs {
    runs: Vec<Run>,
    /// Whether each run is left.
    left: Vec<bool>,
    /// The places of the runs that the last search took.
    class: Vec<usize>,
}

impl Model for Runs {
    ghost use Rattle.fol_split.specs.Runs.{Marks};

    ghost Value = { Marks };

    ghost use Rattle.std.specs.Vec.{vec_capacity};
    ghost use Rattle.fol_split.specs.Runs.{IsMarked, HasRoom};

    ghost view = { λ r. record { runs = r.runs.items; left = r.left.items; class = r.class.items } };

    ghost invariant = { λ r. IsMarked (record { runs = r.runs.items; left = r.left.items; class = r.class.items }) × HasRoom (vec_capacity r.runs) (vec_capacity r.left) (vec_capacity r.class) };
}

impl Runs {
    /// No run, with the memory for 16,384.
    pub fn new(alloc: Global) -> Result<Runs, AllocError>
        ensures { IfOk result (λ r. r ≡ record { runs = []; left = []; class = [] }) }
    {
        Ok(Runs {
            runs: Vec::with_capacity(alloc, MOST_SECTIONS)?,
            left: Vec::with_capacity(alloc, MOST_SECTIONS)?,
            class: Vec::with_capacity(alloc, MOST_SECTIONS)?,
        })
    }

    /// The number of runs.
    pub fn len(&self) -> usize
        ensures value { result ≡ length self.now.runs }
        ensures runs { AreRuns self.now.runs }
    {
        self.runs.len()
    }

    /// Whether the run at a place is left.
    pub fn is_left(&self, k: usize) -> bool
        requires { k < length self.now.runs }
        ensures { result ≡ is_left_at self.now k }
    {
        self.left[k]
    }

    /// The runs of these sections, each of them left, and whether the sections are in order: where they are not, some of them are
    /// in no run.
    pub fn load(&mut self, order: &[SectionPos]) -> bool
        requires few { length order.now ≤ MOST_SECTIONS }
        requires in_range { All (λ s. IsTrue (is_section s)) order.now }
        ensures all { IsTrue result → all_of self.new.runs ≡ order.now }
        ensures in_order { IsTrue result ↔ IsStrictlySortedBy section_cmp order.now }
        ensures left { All IsTrue self.new.left }
        ensures flags { length self.new.left ≡ length self.new.runs }
    {
        self.runs.clear();
        self.left.clear();
        self.class.clear();
        let mut done = 0;
        while done < order.len() {
            let run = first_run(order[done], &order[done + 1..]);
            if !self.is_behind(run) {
                return false;
            }
            self.add(run);
            done += run.len();
        }
        true
    }

    /// Whether the sections of a run are behind all others.
    fn is_behind(&self, run: Run) -> bool
        requires { run.from <ℤ run.to }
        ensures { IsTrue result
            ↔ IsStrictlySortedBy section_cmp (all_of self.now.runs ++ sections_of run) }
    {
        let n = self.runs.len();
        if n == 0 {
            return true;
        }
        self.runs[n - 1].ends_before(run)
    }

    /// Adds a run of sections that are behind all others.
    fn add(&mut self, run: Run)
        requires few { length (all_of self.old.runs ++ sections_of run) ≤ MOST_SECTIONS }
        requires solid { run.from <ℤ run.to }
        requires in_order { IsStrictlySortedBy section_cmp (all_of self.old.runs ++ sections_of run) }
        requires in_range { All (λ s. IsTrue (is_section s)) (sections_of run) }
        requires left { All IsTrue self.old.left }
        ensures all { all_of self.new.runs ≡ all_of self.old.runs ++ sections_of run }
        ensures left { All IsTrue self.new.left }
        ensures flags { length self.new.left ≡ length self.new.runs }
    {
        let _ = self.runs.push(run);
        let _ = self.left.push(true);
    }

    /// The number of runs that the search took.
    fn taken(&self) -> usize
        ensures value { result ≡ length self.now.class }
        ensures bound { result ≤ length self.now.runs }
    {
        self.class.len()
    }

    /// The place of a run that the search took, by the order in which it was.
    fn taken_at(&self, i: usize) -> usize
        requires { i < length self.now.class }
        ensures value { result ≡ slice_index_or self.now.class i 0 }
        ensures bound { result < length self.now.runs }
    {
        self.class[i]
    }

    /// Takes a run that is left, and nothing where it is not.
    fn take(&mut self, k: usize)
        requires { k < length self.old.runs }
        ensures { TakesRuns self.old self.new (nat_eq k) }
    {
        if self.left[k] {
            self.left[k] = false;
            let _ = self.class.push(k);
        }
    }

    /// The place of the first run that does not end before `window`.
    fn first_from(&self, window: Run) -> usize
        ensures bound { result ≤ length self.now.runs }
        ensures before { (k : ℕ) → k < result
            → ends_before window.z window.from (run_at self.now.runs k) ≡ true }
        ensures after { (k : ℕ) → result ≤ k → k < length self.now.runs
            → ends_before window.z window.from (run_at self.now.runs k) ≡ false }
        ensures marked { IsMarked self.now }
    {
        self.runs.partition_point(|run| run.ends_before(window))
    }

    /// Whether there is a run at a place, and it stands in the row of `window` and begins before its `to`.
    fn begins_before(&self, k: usize, window: Run) -> bool
        ensures { result ≡ (nat_lt k (length self.now.runs)
            && begins_before window.z window.to (run_at self.now.runs k)) }
    {
        k < self.runs.len() && self.runs[k].begins_before(window)
    }

    /// Takes the runs that are left and stand in the row of `window`, end behind its `from` and begin before its `to`.
    fn take_row(&mut self, window: Run)
        ensures { TakesRuns self.old self.new
            (λ k. is_met window.z window.from window.to (run_at self.old.runs k)) }
    {
        let mut k = self.first_from(window);
        while self.begins_before(k, window) {
            self.take(k);
            k += 1;
        }
    }

    /// Takes the runs that are left and near the one at a place.
    fn take_near(&mut self, k: usize, merge: u8)
        requires in_place { k < length self.old.runs }
        requires reach { merge ≤ 4 }
        ensures { TakesRuns self.old self.new
            (λ j. is_near merge (run_at self.old.runs k) (run_at self.old.runs j)) }
    {
        let first = self.runs[k].grown(merge);
        let rows = 2 * merge as u32 + 1;
        if self.runs.len() <= FEW {
            self.take_each(first, rows);
        } else {
            self.take_rows(first, rows);
        }
    }

    /// Takes the runs that are left and stand in one of `rows` rows from that of `window` on, end behind its `from` and begin
    /// before its `to`. Looks at each run.
    fn take_each(&mut self, window: Run, rows: u32)
        requires near { nat_abs window.z ≤ 1000020 }
        requires few { rows ≤ 9 }
        ensures { TakesRuns self.old self.new
            (λ k. is_met_in window.z rows window.from window.to (run_at self.old.runs k)) }
    {
        for k in 0..self.runs.len() {
            if self.is_met_in(k, window, rows) {
                self.take(k);
            }
        }
    }

    /// Whether the run at a place is left, and stands in one of `rows` rows from that of `window` on, ends behind its `from` and
    /// begins before its `to`.
    fn is_met_in(&self, k: usize, window: Run, rows: u32) -> bool
        requires in_place { k < length self.now.runs }
        requires near { nat_abs window.z ≤ 1000020 }
        requires few { rows ≤ 9 }
        ensures { result ≡ (is_left_at self.now k
            && is_met_in window.z rows window.from window.to (run_at self.now.runs k)) }
    {
        self.left[k]
            && self.runs[k].is_in_rows(window.z, rows)
            && self.runs[k].is_across(window.from, window.to)
    }

    /// The same as `take_each`, by a search for each of the rows.
    fn take_rows(&mut self, window: Run, rows: u32)
        requires near { nat_abs window.z ≤ 1000020 }
        requires few { rows ≤ 9 }
        ensures { TakesRuns self.old self.new
            (λ k. is_met_in window.z rows window.from window.to (run_at self.old.runs k)) }
    {
        for row in 0..rows {
            self.take_row(window.behind(row));
        }
    }

    /// Takes the runs that are joined with the one at a place.
    pub fn take_class(&mut self, first: usize, merge: u8)
        requires left { IsTrue (is_left_at self.old first) }
        requires in_place { first < length self.old.runs }
        requires reach_low { 1 ≤ merge }
        requires reach_high { merge ≤ 4 }
        ensures { IsClass self.old self.new merge first }
    {
        self.class.clear();
        self.take(first);
        let mut next = 0;
        while next < self.taken() {
            self.take_near(self.taken_at(next), merge);
            next += 1;
        }
        self.sort_class();
    }

    /// Puts the places of the runs that the search took in order.
    fn sort_class(&mut self)
        ensures { SortsClass self.old self.new }
    {
        self.class.sort_unstable();
    }

    /// Whether the last search took all runs.
    fn took_all(&self) -> bool
        ensures value { IsTrue result ↔ (length self.now.class ≡ length self.now.runs) }
        ensures marked { IsMarked self.now }
    {
        self.class.len() == self.runs.len()
    }

    /// Appends the sections of the runs that the last search took; `order` has those of all runs.
    pub fn append_class(&self, order: &[SectionPos], found: &mut Vec<SectionPos>)
        requires order { all_of self.now.runs ≡ order.now }
        requires rising { IsStrictlySortedBy nat_cmp self.now.class }
        requires room { length found.old.items
            + length (sections_at self.now.runs self.now.class) ≤ vec_capacity found.old }
        ensures found { found.new.items
            ≡ found.old.items ++ sections_at self.now.runs self.now.class }
        ensures room { vec_capacity found.old ≤ vec_capacity found.new }
    {
        if self.took_all() {
            let _ = found.extend_from_slice(order);
        } else {
            self.append_each(found);
        }
    }

    /// Appends the sections of the runs that the last search took, one run after another.
    fn append_each(&self, found: &mut Vec<SectionPos>)
        requires { length found.old.items
            + length (sections_at self.now.runs self.now.class) ≤ vec_capacity found.old }
        ensures found { found.new.items
            ≡ found.old.items ++ sections_at self.now.runs self.now.class }
        ensures room { vec_capacity found.old ≤ vec_capacity found.new }
    {
        for k in &self.class {
            append_run(found, self.runs[*k]);
        }
    }
}

/// A run at the front of these sections, of `first` and those of `rest` that stand side by side behind it.
fn first_run(first: SectionPos, rest: &[SectionPos]) -> Run
    requires first { IsTrue (is_section first) }
    requires rest { All (λ s. IsTrue (is_section s)) rest.now }
    ensures solid { result.from <ℤ result.to }
    ensures front { take (length (sections_of result)) (first ∷ rest.now) ≡ sections_of result }
{
    let mut run = Run::of(first);
    for s in rest {
        if !run.is_before(s) {
            return run;
        }
        run = run.with(s);
    }
    run
}

/// Appends the sections of a run.
fn append_run(found: &mut Vec<SectionPos>, run: Run)
    requires solid { run.from <ℤ run.to }
    requires room { length found.old.items + length (sections_of run) ≤ vec_capacity found.old }
    ensures found { found.new.items ≡ found.old.items ++ sections_of run }
    ensures room { vec_capacity found.old ≤ vec_capacity found.new }
{
    for x in run.from..run.to {
        found.push_reserved(SectionPos { x, z: run.z });
    }
}
