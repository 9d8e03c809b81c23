//! The regions near the section that was looked at last.

ghost use Rattle.std.specs.Prelude.{◌≡◌, ◌≤◌, IfOk, IsTrue, None, Some, length, nat_abs};
ghost use Rattle.fol_regions.specs.Near.{near_ids};
ghost use Rattle.fol_regions.specs.Nearby.{StillStands};

use crate::near::NearRegions;
use fol_model::SectionPos;
use fol_region_tables::Tables;
use std::alloc::{AllocError, Global};

/// The regions near a section, which are not looked for again until they are forgotten.
#[derive(Drop)]
pub struct Nearby {
    pub regions: NearRegions,
    /// The section that they are near; none where they were forgotten.
    pub home: Option<SectionPos>,
}

impl Nearby {
    /// Nothing is known yet. Takes the memory for as many as there can be.
    pub fn new(alloc: Global) -> Result<Nearby, AllocError>
        ensures { IfOk result (λ n. n.home ≡ None) }
    {
        Ok(Nearby {
            regions: NearRegions::new(alloc)?,
            home: None,
        })
    }

    /// Finds the regions with a section within a radius, rising, where these are not the ones that were found last. Takes no memory.
    pub fn find(&mut self, tables: &Tables, home: SectionPos, reach: u8)
        requires stands { StillStands self.old tables.now reach }
        requires home { (nat_abs home.x ≤ 1000008) × (nat_abs home.z ≤ 1000008) }
        requires reach { reach ≤ 12 }
        ensures near { self.new.regions ≡ near_ids tables.now home reach }
        ensures few { length self.new.regions ≤ 625 }
        ensures stands { StillStands self.new tables.now reach }
    {
        if self.is_near(home) {
            return;
        }
        self.regions.find(tables, home, reach);
        self.home = Some(home);
    }

    /// Whether the regions that were found last are those near this section.
    fn is_near(&self, home: SectionPos) -> bool
        ensures { IsTrue result → self.now.home ≡ Some home }
    {
        match self.home {
            Some(last) => last == home,
            None => false,
        }
    }

    /// Their ids, rising.
    pub fn ids(&self) -> &[u64]
        ensures { result.now ≡ self.now.regions }
    {
        self.regions.ids()
    }

    /// Forgets them: they have to be looked for again.
    pub fn forget(&mut self)
        ensures { self.new ≡ record self.old { home = None } }
    {
        self.home = None;
    }
}
