//! What a page keeps of a section, in four bytes.

ghost use Rattle.std.specs.Prelude.{◌≡◌, ◌+◌, ◌<◌, ◌≤◌, ◌^◌, not, IsTrue, None, Some, is_some};
ghost use Rattle.std.specs.Option.{unwrap_or};
ghost use Rattle.fol_sections.specs.Pages.{left, no_counts, reached};
ghost use Rattle.fol_sections.specs.Turns.{fall, rise};

use crate::pages::Counts;
use crate::turns::{Turn, turned};
use std::marker::Model;

/// What stands in place of the loaded chunks of a section that is not present. A section has at most 1,024.
const ABSENT: u16 = u16::MAX;

/// What is kept of a section, if it is present. Contracts see an `Option` of its `Counts`, which would take six bytes.
#[derive(Clone, Copy)]
pub struct PackedCounts {
    loaded: u16,
    near: u16,
}

impl Model for PackedCounts {
    ghost use Rattle.std.specs.Prelude.{Option};
    ghost use Rattle.fol_sections.specs.declared.pages.Counts.{Counts};

    ghost Value = { Option Counts };

    ghost use Rattle.fol_sections.specs.Packed.{IsPacked, packed, packs, unpacked};

    ghost view = { unpacked };

    ghost invariant = { IsPacked };

    ghost inverse = { packed };

    ghost inverse_ok = { packs };
}

impl PackedCounts {
    /// The section is not present.
    pub fn absent() -> PackedCounts
        ensures { result ≡ None }
    {
        PackedCounts {
            loaded: ABSENT,
            near: 0,
        }
    }

    /// The numbers, if the section is present.
    pub fn counts(self) -> Option<Counts>
        ensures value { result ≡ self }
        ensures few { (unwrap_or result no_counts).loaded + 1 < 2 ^ 16 }
    {
        if self.loaded == ABSENT {
            None
        } else {
            Some(Counts {
                loaded: self.loaded,
                near: self.near,
            })
        }
    }

    /// Whether the section is not present.
    pub fn is_absent(&self) -> bool
        ensures { result ≡ not (is_some self.now) }
    {
        self.loaded == ABSENT
    }

    /// How many sections with a loaded chunk are near the section; 0 where it is not present.
    pub fn near(&self) -> u16
        ensures { result ≡ (unwrap_or self.now no_counts).near }
    {
        self.near
    }

    /// Counts a section more with a loaded chunk near the section, which is made present where it is not, and says whether it was made.
    pub fn reach(&mut self) -> bool
        requires few { (unwrap_or self.old no_counts).near + 1 < 2 ^ 16 }
        ensures made { result ≡ not (is_some self.old) }
        ensures reached { self.new ≡ Some (reached self.old) }
    {
        let is_made = self.is_absent();
        if is_made {
            self.loaded = 0;
        }
        self.near += 1;
        is_made
    }

    /// Counts a section less with a loaded chunk near the section, which is present, and gives the number after.
    pub fn leave(&mut self) -> u16
        requires here { IsTrue (is_some self.old) }
        requires low { 0 < (unwrap_or self.old no_counts).near }
        ensures after { result ≡ (left (unwrap_or self.old no_counts)).near }
        ensures left { self.new ≡ Some (left (unwrap_or self.old no_counts)) }
    {
        self.near -= 1;
        self.near
    }

    /// Changes the number of loaded chunks of the section, which is present, by one, and gives the number after.
    pub fn count(&mut self, turn: Turn) -> u16
        requires here { IsTrue (is_some self.old) }
        requires low { fall turn 1 ≤ (unwrap_or self.old no_counts).loaded }
        requires few { (unwrap_or self.old no_counts).loaded + 2 < 2 ^ 16 }
        ensures after { result + fall turn 1 ≡ (unwrap_or self.old no_counts).loaded + rise turn 1 }
        ensures counted { self.new
            ≡ Some (record { loaded = result; near = (unwrap_or self.old no_counts).near }) }
    {
        self.loaded = turned(self.loaded, turn);
        self.loaded
    }
}
