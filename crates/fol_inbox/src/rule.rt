//! The rule of the queue, and what a step of a pass comes to. `specs/Rule.antt` says it, and `proofs/Steps.antt` shows that each step keeps
//! it.

ghost use Rattle.std.specs.Prelude.{◌≡◌, [], ◌∷◌, ◌++◌};
ghost use Rattle.fol_inbox.specs.Notes.{first_notes, notes_dealing, notes_dealt, notes_joined, notes_left, notes_sent, notes_taken, spent_notes};
ghost use Rattle.fol_inbox.specs.Rule.{AreSent, IsLetter, Ruled};

use crate::letter::Letter;
use crate::notes::Notes;
use crossbeam_queue::protocol::{Join, Lesson, Outcome, Protocol, Split};
use crossbeam_queue::{RuledSegQueue, SegPass};

pub(crate) type Queue = RuledSegQueue<Letter, Notes, InOrder>;

pub(crate) type Pass = SegPass<Letter, Notes>;

/// Of each sender, what was taken and what the queue holds is all that it sent, in its order.
pub struct InOrder;

impl Protocol<Letter, Notes> for InOrder {
    ghost holds = { Ruled };

    ghost first = { first_notes };
}

/// A sender puts a letter in.
pub(crate) struct Sends;

impl Outcome<Letter, Notes> for Sends {
    ghost then = { λ v x w. w ≡ notes_sent v x };
}

/// The drainer takes a letter.
pub(crate) struct Takes;

impl Outcome<Letter, Notes> for Takes {
    ghost then = { λ v x w. (w ≡ notes_taken v x) × IsLetter v.dealt x };
}

impl Lesson<Letter, Notes> for Takes {
    ghost fact = { λ v items. Unit {0} };
}

/// A pass that was joined with all senders' takes a letter, and knows what is left then.
pub(crate) struct TakesFirst;

impl Outcome<Letter, Notes> for TakesFirst {
    ghost then = { λ v x w. (w ≡ notes_left v x w.rest) × AreSent v ((v.taken ++ x ∷ []) ++ w.rest) };
}

impl Lesson<Letter, Notes> for TakesFirst {
    ghost fact = { λ v items. AreSent v (v.taken ++ items) };
}

/// The pass that knows what is left takes the next letter.
pub(crate) struct TakesNext;

impl Outcome<Letter, Notes> for TakesNext {
    ghost then = { λ v x w. (v.rest ≡ x ∷ w.rest) × (w ≡ notes_left v x w.rest) };
}

impl Lesson<Letter, Notes> for TakesNext {
    ghost fact = { λ v items. v.rest ≡ items };
}

/// The next sender gets a pass of its own.
pub(crate) struct Deal;

impl Split<Notes> for Deal {
    ghost left = { notes_dealing };

    ghost right = { notes_dealt };
}

/// A sender's pass is joined to the one that takes.
pub(crate) struct Gather;

impl Join<Notes> for Gather {
    ghost both = { notes_joined };

    ghost spent = { spent_notes };
}
