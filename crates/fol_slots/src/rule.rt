//! The rule of the table, and what each step tells. `specs/Hands.antt` has the rule, `specs/Steps.antt` the steps.
ghost use Rattle.fol_slots.specs.Hands.{Ruled};
ghost use Rattle.fol_slots.specs.Steps.{first_view, looks, claims, empties, keeps, offers, takes_out, puts_back, meets, meets_out, takes_in, made_left, made_right, parted_left, parted_right, both_of, spent};
ghost use Rattle.std.specs.Prelude.{length};

use crate::body::Body;
use crate::view::View;
use atomic_table::{Join, Play, Split, TableRule};
use std::snapshot::Snapshot;

/// What the table is told when it is made: the bodies that it begins with.
#[derive(Drop)]
pub struct About<T> {
    /// One for each slot, in order.
    pub bodies: Snapshot<Vec<T>>,
}

/// One pair of hands for each body.
pub struct Hands;

impl<T: Body> TableRule<Option<T>, View<T>, About<T>> for Hands {
    ghost holds = { λ k. Ruled T.fit (length k.bodies.value.items) };

    ghost first = { λ k. first_view k.bodies.value.items };
}

/// A worker looks whether a slot is Ready.
pub struct Looking;

impl<T> Play<Option<T>, View<T>> for Looking {
    ghost then = { looks };
}

/// A worker claims a slot.
pub struct Claiming;

impl<T: Body> Play<Option<T>, View<T>> for Claiming {
    ghost then = { claims T.fit };
}

/// A worker's slot goes home empty.
pub struct Emptying;

impl<T> Play<Option<T>, View<T>> for Emptying {
    ghost then = { empties };
}

/// The keeper tries to keep a slot.
pub struct Keeping;

impl<T: Body> Play<Option<T>, View<T>> for Keeping {
    ghost then = { keeps T.fit };
}

/// The keeper offers a slot.
pub struct Offering;

impl<T> Play<Option<T>, View<T>> for Offering {
    ghost then = { offers };
}

/// A kept slot comes out.
pub struct TakingOut;

impl<T: Body> Play<Option<T>, View<T>> for TakingOut {
    ghost then = { takes_out T.fit };
}

/// A kept slot goes home with a new body.
pub struct PuttingBack;

impl<T> Play<Option<T>, View<T>> for PuttingBack {
    ghost then = { puts_back };
}

/// The keeper meets the worker that holds a slot.
pub struct Meeting;

impl<T: Body> Play<Option<T>, View<T>> for Meeting {
    ghost then = { meets T.fit };
}

/// The same, and the slot comes out.
pub struct MeetingOut;

impl<T: Body> Play<Option<T>, View<T>> for MeetingOut {
    ghost then = { meets_out T.fit };
}

/// The keeper takes a slot in from the worker, and it goes home with a body.
pub struct TakingIn;

impl<T> Play<Option<T>, View<T>> for TakingIn {
    ghost then = { takes_in };
}

/// The keeper makes the seat of the next worker.
pub struct Making;

impl<T> Split<View<T>> for Making {
    ghost left = { made_left };

    ghost right = { made_right };
}

/// The keeper gives a worker's seat back.
pub struct Parting;

impl<T> Split<View<T>> for Parting {
    ghost left = { parted_left };

    ghost right = { parted_right };
}

/// The keeper's seat takes a worker's seat in.
pub struct Joining;

impl<T> Join<View<T>> for Joining {
    ghost both = { both_of };

    ghost spent = { spent };
}
