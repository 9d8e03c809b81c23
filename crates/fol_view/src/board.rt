//! What readers look at: the value of which there are two copies.

ghost use Rattle.std.specs.Prelude.{◌≡◌, Some, IfOk};

use crate::publication::Publication;
use crate::publications::Publications;
use fol_model::SectionPos;
use left_right::Absorb;
use std::alloc::AllocError;
use std::marker::Model;

/// The last publication, and all publications up to it.
#[derive(Drop)]
pub struct Shown {
    pub(crate) last: Publication,
    pub(crate) all: Publications,
}

impl Model for Shown {
    ghost use Rattle.fol_view.specs.Boards.{Showing, showing};
    ghost use Rattle.fol_view.specs.Publications.{IsLast};

    ghost Value = { Showing };

    ghost view = { λ s. showing s.all s.last };

    ghost invariant = { λ s. IsLast s.all.list s.last };
}

/// What is shown, if anything is.
#[derive(Drop)]
pub struct Board {
    pub(crate) shown: Option<Shown>,
}

impl Model for Board {
    ghost use Rattle.std.specs.Prelude.{Option};
    ghost use Rattle.fol_view.specs.Boards.{Showing};

    ghost Value = { Option Showing };

    ghost view = { λ b. b.shown };
}

/// The region of a section, after so much of the history.
#[derive(Clone, Copy, Debug, PartialEq, Eq)]
pub struct SeenOwner {
    /// How many entries of the history come before.
    pub front: u64,
    /// `None` where the section is not present.
    pub owner: Option<u64>,
}

/// What a look found, and all publications up to the one that it looked at.
#[derive(Drop)]
pub(crate) struct Found {
    pub all: Publications,
    pub seen: SeenOwner,
}

impl Shown {
    /// The same once more. Takes no memory; refused only where there are too many copies.
    fn again(&self) -> Result<Shown, AllocError>
        ensures { IfOk result (λ s. s ≡ self.now) }
    {
        let all = self.all.again();
        Ok(Shown {
            last: self.last.again()?,
            all,
        })
    }
}

impl Absorb<Shown> for Board {
    type State = Board;

    ghost state = { λ b. b };

    ghost applied = { λ before shown. Some shown };

    fn absorb_first(&mut self, operation: &Shown, _other: &Board) -> Result<(), AllocError> {
        self.shown = Some(operation.again()?);
        Ok(())
    }

    fn absorb_second(&mut self, operation: Shown, _other: &Board) -> Result<(), Shown> {
        self.shown = Some(operation);
        Ok(())
    }
}

impl Board {
    ghost use Rattle.fol_view.specs.Looks.{HasBook, Looks};

    /// The owner of a section by what is shown, unless that is older than these publications.
    pub(crate) fn look(&self, known: &Publications, s: SectionPos) -> Option<Found>
        requires { HasBook self.now known.now.book }
        ensures { Looks known.now s result }
    {
        let Some(shown) = &self.shown else {
            unreachable!()
        };
        if shown.all.len() < known.len() {
            return None;
        }
        Some(Found {
            all: known.longer(&shown.all),
            seen: SeenOwner {
                front: shown.last.front(),
                owner: shown.last.owner(s),
            },
        })
    }
}
