//! Someone who looks at the map.

ghost use Rattle.std.specs.Prelude.{◌≡◌};
ghost use Rattle.fol_server.specs.Crew.{IsSameReader};

use crate::towns::Town;
use fol_view::OwnerReader;
use std::sync::Wait;
use std::thread::yield_now;

/// How often it looks.
const LOOKS: u32 = 1_000;

/// What the watcher came to.
#[derive(Clone, Copy)]
pub struct Watched {
    /// How many times it looked.
    pub looks: u32,
    /// Whether no look was at an older map than the one before.
    pub went_on: bool,
}

/// Looks up who owns the second town, while chunks are loaded and regions tick. A look takes no lock, and no memory.
pub fn watch<R: Wait>(rt: &R, reader: &mut OwnerReader) -> Watched
    ensures same { IsSameReader reader.old reader.new }
{
    let mut front = 0;
    let mut went_on = true;
    for _ in 0..LOOKS {
        let seen = reader.owner(rt, Town::Second.section());
        went_on = went_on && seen.front >= front;
        front = seen.front;
        yield_now();
    }
    Watched {
        looks: LOOKS,
        went_on,
    }
}
