//! Those who look.

ghost use Rattle.std.specs.Prelude.{◌≡◌};
ghost use Rattle.fol_lock.specs.Log.{StartsWith};
ghost use Rattle.left_right.specs.Sides.{view};
ghost use Rattle.fol_view.specs.Looks.{Answers, Finds, KnowsBook};

use crate::board::{Found, SeenOwner};
use crate::publications::Publications;
use crate::read::read;
use crate::rule::Reader;
use crate::writer::Told;
use core::mem::replace_with;
use fol_model::SectionPos;
use std::marker::Model;
use std::sync::Wait;

/// The right to look. Contracts see which view it is of, and its list of publications.
#[derive(Drop)]
pub struct OwnerReader {
    pub(crate) reader: Reader,
    pub(crate) all: Publications,
}

impl Model for OwnerReader {
    ghost use Rattle.left_right.specs.Sides.{view as known};
    ghost use Rattle.fol_view.specs.Publications.{Listed};
    ghost use Rattle.fol_view.specs.Looks.{KnowsBook};

    ghost Value = { Listed };

    ghost view = { λ r. r.all };

    ghost invariant = { λ r. KnowsBook (known r.reader.place) r.all.book };
}

impl OwnerReader {
    /// The region of a section by the last of the reader's publications, which may be a newer one than before; `owner` is `None` exactly
    /// where no row of it names the section. Takes no memory and no lock.
    pub fn owner<R: Wait>(&mut self, rt: &R, s: SectionPos) -> SeenOwner
        ensures book { self.new.book ≡ self.old.book }
        ensures answer { Answers self.old.list self.new.list s result }
    {
        let known = &self.all;
        let found = replace_with(
            &mut self.reader,
            s,
            |reader: Reader, s: SectionPos| -> (Reader, Found)
                requires { KnowsBook (view reader.place) known.now.book }
                ensures { KnowsBook (view result.0.place) known.entry.now.book
                    × Finds known.entry.now s result.1 }
            { read(rt, reader, known, s) },
        );
        let Found { all, seen } = found;
        self.all = all;
        seen
    }

    /// Takes in what the writer of this view told: later look-ups are of the last publication that was told, or of a later one.
    pub fn learn(&mut self, told: Told)
        requires { told.book ≡ self.old.book }
        ensures book { self.new.book ≡ self.old.book }
        ensures list { StartsWith self.new.list self.old.list }
        ensures told { StartsWith self.new.list told.list }
    {
        let Told { front: _, all } = told;
        self.all = self.all.longer(&all);
    }
}
