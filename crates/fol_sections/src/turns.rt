//! A chunk more or less of a section.

ghost use Rattle.std.specs.Prelude.{◌≡◌, ◌+◌, ◌<◌, ◌≤◌, ◌^◌};
ghost use Rattle.fol_sections.specs.Turns.{fall, rise};

/// How the number of loaded chunks of a section changes.
#[derive(Clone, Copy, Debug, PartialEq, Eq)]
pub enum Turn {
    /// There is one more.
    Filled,
    /// There is one less.
    Emptied,
}

/// The number after it.
pub fn turned(number: u16, turn: Turn) -> u16
    requires low { fall turn 1 ≤ number }
    requires few { number + 1 < 2 ^ 16 }
    ensures { result + fall turn 1 ≡ number + rise turn 1 }
{
    match turn {
        Turn::Filled => number + 1,
        Turn::Emptied => number - 1,
    }
}
