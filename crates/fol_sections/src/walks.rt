//! The sections of a square, row by row, in runs of which each lies in one page.

ghost use Rattle.std.specs.Prelude.{◌≡◌, ◌+◌, ◌<◌, ◌≤◌, ◌++◌, [], pos, nat_abs, IfNone, IfSome};
ghost use Rattle.std.specs.Int.{int_rem_euclid};
ghost use Rattle.fol_model.specs.Universe.{square};
ghost use Rattle.fol_sections.specs.Rows.{row_of, section_at};

use fol_model::{SectionPos, beside, corner};
use fol_pages::run_len;

/// A walk over the sections of a square.
#[derive(Drop)]
pub struct SquareRuns {
    /// The corner with the least coordinates.
    first: SectionPos,
    /// How many sections a row has, and how many rows there are.
    side: u32,
    /// In which row the walk is.
    row: u32,
    /// How many sections of the row were given.
    column: u32,
    ghost near: { (nat_abs first.x ≤ 1000016) × (nat_abs first.z ≤ 1000016) },
    ghost few: { (side ≤ 17) × (row < side) × (column ≤ side) },
}

impl SquareRuns {
    ghost use Rattle.fol_sections.specs.SquareRuns.{rest};

    /// Of the sections within a radius of one, none was given.
    pub fn new(s: SectionPos, radius: u8) -> SquareRuns
        requires near { (nat_abs s.x ≤ 1000008) × (nat_abs s.z ≤ 1000008) }
        requires few { radius ≤ 8 }
        ensures { rest result ≡ square s radius }
    {
        SquareRuns {
            first: corner(s, radius),
            side: 2 * radius as u32 + 1,
            row: 0,
            column: 0,
        }
    }

    /// Goes on to the next row where all of this one was given.
    fn leave_row(&mut self)
        requires { self.old.column ≡ self.old.side → self.old.row + 1 < self.old.side }
        ensures rest { rest self.new ≡ rest self.old }
        ensures within { self.new.column < self.new.side }
    {
        if self.column == self.side {
            self.row += 1;
            self.column = 0;
        }
    }

    /// The next run: its first section, and how many there are of it.
    #[inline]
    pub fn next_run(&mut self) -> Option<(SectionPos, u32)>
        ensures run { IfSome result (λ r. rest self.old
            ≡ row_of section_at r.0.x r.0.z r.1 ++ rest self.new) }
        ensures some { IfSome result (λ r. 0 < r.1) }
        ensures page { IfSome result (λ r. nat_abs (int_rem_euclid r.0.x (pos 32)) + r.1 ≤ 32) }
        ensures near { IfSome result (λ r. nat_abs r.0.x ≤ 1000040) }
        ensures end { IfNone result (rest self.old ≡ []) }
    {
        if self.column == self.side && self.row + 1 == self.side {
            return None;
        }
        self.leave_row();
        let s = beside(self.first, self.column, self.row);
        let len = run_len(s.x, self.side - self.column);
        self.column += len;
        Some((s, len))
    }
}
