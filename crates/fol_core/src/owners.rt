//! Which region owns each present section.

ghost use Rattle.std.specs.Prelude.{◌≡◌, IfOk};
ghost use Rattle.fol_model.specs.Outputs.{owner_rows};
ghost use Rattle.fol_core.specs.Meaning.{world_of};

use crate::machine::Core;
use fol_model::OwnerRow;
use fol_world::owners::list_owners;
use std::alloc::AllocError;

impl Core {
    /// A row for each present section, by `(z, x)`, with the region that owns it: the owners of a closing after this history. Goes over
    /// the present sections alone, and takes memory for their rows. Fails only when out of memory.
    pub fn owner_rows(&self) -> Result<Vec<OwnerRow>, AllocError>
        ensures { IfOk result (λ rows. rows.items ≡ owner_rows (world_of self.now)) }
    {
        let regions = &self.tables.regions;
        let live = regions.live(self.alloc)?;
        list_owners(self.alloc, regions, live.as_slice())
    }
}
