//! What lies in a slot.

ghost use Rattle.std.specs.Prelude.{◌≡◌, Some, IsSome};
ghost use Rattle.fol_offers.specs.Offered.{nothing, of_tick};

use fol_data::Tick;
use fol_slots::Body;
use std::marker::Model;

/// The tick of a region that owes one, or nothing. One that is offered has a tick, which was made in some world that a run leads to: that of
/// a Begin there, but for its worker, and nothing of it ran. The tick lies behind a pointer, so that it is claimed at little cost.
#[derive(Drop)]
pub struct Offer {
    tick: Option<Box<Tick>>,
}

impl Model for Offer {
    ghost use Rattle.fol_offers.specs.Offered.{Offered, unboxed};

    ghost Value = { Offered };

    ghost view = { λ o. unboxed o.tick };
}

impl Body for Offer {
    ghost use Rattle.fol_offers.specs.Fit.{IsFit};

    ghost fit = { IsFit };
}

impl Offer {
    /// No tick. Takes no memory.
    pub fn nothing() -> Offer
        ensures { result ≡ nothing }
    {
        Offer { tick: None }
    }

    /// This tick.
    pub fn of(tick: Box<Tick>) -> Offer
        ensures { result ≡ of_tick tick.value }
    {
        Offer { tick: Some(tick) }
    }

    /// The tick, where there is one.
    pub fn into_tick(self) -> Box<Tick>
        requires { IsSome self.tick }
        ensures { self.tick ≡ Some result.value }
    {
        match self.tick {
            Some(tick) => tick,
            None => unreachable!(),
        }
    }
}
