//! The rule of the lock's table, and what each atomic step tells the seat that makes it. `specs/Rule.antt` says the rule
//! and `specs/Steps.antt` what the steps tell; `proofs/` shows that each step keeps the rule.
ghost use Rattle.fol_lock.specs.View.{first_view, dealer_of, dealt_of, both_of, spent};
ghost use Rattle.fol_lock.specs.Rule.{Ruled};
ghost use Rattle.fol_lock.specs.Steps.{drew, looked, passed};

use crate::kept::Kept;
use crate::view::View;
use atomic_table::{Join, Play, Split, TableRule};
use std::snapshot::Snapshot;

/// What the table is told once, when it is made.
#[derive(Drop)]
pub struct Founding<S> {
    /// How many seats the lock deals.
    pub count: u32,

    /// The state that the lock began with, as contracts see it.
    pub state: Snapshot<S>,
}

/// What holds of the words, the slot and all seats between any two steps.
pub struct LockRule;

impl<S: Kept> TableRule<Option<S>, View<S::Origin, S::Entry>, Founding<S>> for LockRule {
    ghost holds = { λ founding.
        Ruled S.log S.origin S.by (S.origin founding.state.value) founding.count };

    ghost first = { λ founding. first_view (S.origin founding.state.value) };
}

/// Draws the next ticket.
pub struct Draw;

impl<S: Kept> Play<Option<S>, View<S::Origin, S::Entry>> for Draw {
    ghost then = { drew };
}

/// Looks which ticket is served, and takes the state where it is the seat's own.
pub struct Look;

impl<S: Kept> Play<Option<S>, View<S::Origin, S::Entry>> for Look {
    ghost then = { looked S.log S.origin S.by };
}

/// Puts the state back for all to take, and serves the next ticket.
pub struct PassOn;

impl<S: Kept> Play<Option<S>, View<S::Origin, S::Entry>> for PassOn {
    ghost then = { passed S.log S.by };
}

/// The dealer's number goes to a new seat, and the dealer goes on to the next number.
pub struct Deal;

impl<O, E> Split<View<O, E>> for Deal {
    ghost left = { dealer_of };

    ghost right = { dealt_of };
}

/// One seat takes in the claims of another, which is then spent.
pub struct Gather;

impl<O, E> Join<View<O, E>> for Gather {
    ghost both = { both_of };

    ghost spent = { spent };
}
