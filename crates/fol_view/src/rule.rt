//! The rule of the two copies: who knows a history of publications knows that of the board.

ghost use Rattle.std.specs.Prelude.{◌≡◌, None};
ghost use Rattle.fol_view.specs.Boards.{listed_of};
ghost use Rattle.fol_view.specs.Ties.{Ties, Tied};

use crate::board::{Board, Shown};
use crate::publications::Publications;
use atomic_table::{Join, Split};
use crossbeam_utils::rule::{Outcome, Protocol};

pub(crate) type Writer = left_right::writer::Writer<Board, Shown, Option<Publications>, OneHistory>;

pub(crate) type Reader = left_right::reader::Reader<Board, Option<Publications>, OneHistory>;

/// What one knows are publications, if anything.
pub struct OneHistory;

impl Protocol<Board, Option<Publications>> for OneHistory {
    ghost holds = { Tied };

    ghost first = { None };
}

/// The writer shows another publication.
pub(crate) struct Shows;

impl Outcome<Board, Option<Publications>> for Shows {
    ghost then = { λ v x y w. w ≡ listed_of y };
}

/// A reader looks.
pub(crate) struct Reads;

impl Outcome<Board, Option<Publications>> for Reads {
    ghost then = { λ v x y w. (w ≡ v) × Ties y v };
}

/// The writer tells a new reader what it knows.
pub(crate) struct Tell;

impl Split<Option<Publications>> for Tell {
    ghost left = { λ v. v };

    ghost right = { λ v. v };
}

/// A new reader knows what it is told.
pub(crate) struct Hear;

impl Join<Option<Publications>> for Hear {
    ghost both = { λ v w. w };

    ghost spent = { None };
}
