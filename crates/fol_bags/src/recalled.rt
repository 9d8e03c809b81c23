//! A list that only contracts see.

ghost use Rattle.std.specs.Prelude.{◌≡◌};

use fol_keyed::ChunkSet;
use std::marker::Model;
use std::snapshot::Snapshot;

/// The chunks of a list as they were once, for contracts alone: it takes no memory, and no chunk is copied for it.
#[derive(Drop)]
pub struct Recalled {
    list: Snapshot<ChunkSet>,
}

impl Model for Recalled {
    ghost use Rattle.std.specs.Prelude.{List};
    ghost use Rattle.fol_model.specs.declared.places.ChunkPos.{ChunkPos};

    ghost Value = { List ChunkPos };

    ghost view = { λ r. r.list.value };
}

impl Recalled {
    /// The chunks that the list has now.
    pub fn of(list: &ChunkSet) -> Recalled
        ensures { result ≡ list.now }
    {
        Recalled {
            list: Snapshot::of(list),
        }
    }
}
