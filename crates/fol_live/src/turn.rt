//! What a seat does first in its turn, and how it ends its tick.

ghost use Rattle.std.specs.Prelude.{◌≡◌, None, Some, IfErr, OnErr, OnOk};
ghost use Rattle.std.specs.Option.{ForSome};
ghost use Rattle.fol_core.specs.Ticks.{SameTick};
ghost use Rattle.fol_live.specs.Turns.{EndsAndPasses};
ghost use Rattle.fol_slots.specs.Shown.{freed};
ghost use Rattle.fol_slots.specs.Table.{slots_id};
ghost use Rattle.fol_live.specs.Turned.{GivesIn, IsAt, Meets};

use crate::hand::Hand;
use crate::world::World;
use fol_data::Tick;
use fol_offers::Offer;
use fol_slots::Slots;

/// If the seat holds a tick, its Begin is recorded, unless it was learnt before.
pub(crate) fn meet(world: &mut World, slots: &Slots<Offer>, hand: Option<Hand>) -> Option<Hand>
    requires own { world.old.slots ≡ slots_id slots.now }
    requires seat { IsAt (slots_id slots.now) hand }
    ensures meets { Meets world.old world.new hand }
    ensures same { result ≡ hand }
{
    match hand {
        Some(hand) => Some(hand.meet(slots, world)),
        None => {
            world.keeps();
            None
        }
    }
}

/// Ends the tick that the seat holds, once all of its tasks ran, as `World::end` does.
pub(crate) fn end(
    world: &mut World,
    slots: &Slots<Offer>,
    hand: Option<Hand>,
    tick: Box<Tick>,
    most: u32,
) -> (Option<Hand>, Result<u64, Box<Tick>>)
    requires own { world.old.slots ≡ slots_id slots.now }
    requires seat { IsAt (slots_id slots.now) hand }
    requires ran { GivesIn hand tick.value }
    ensures ends { EndsAndPasses world.old world.new tick.value most result.1 }
    ensures freed { OnOk result.1 (ForSome hand (λ w. result.0 ≡ Some (freed w))) }
    ensures kept { OnErr result.1 (result.0 ≡ hand) }
    ensures back { IfErr result.1 (λ t. SameTick tick.value t.value) }
{
    match hand {
        Some(hand) => {
            let (hand, answer) = hand.end(slots, world, tick, most);
            (Some(hand), answer)
        }
        None => unreachable!(),
    }
}
