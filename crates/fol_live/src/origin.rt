//! What a world began as.

ghost use Rattle.std.specs.Borrow.{ftrue};
ghost use Rattle.std.specs.Prelude.{ℕ};
ghost use Rattle.fol_model.specs.declared.openings.Opening.{Opening};
ghost use Rattle.atomic_table.specs.Seated.{TableId, table_id_coded};

use std::marker::Model;

/// What stays the same while the history of a world grows. A program has no value of it: only contracts speak of it.
#[derive(Drop)]
pub struct Origin {
    pub ghost opening: { Opening },
    /// The slots in which its ticks are offered.
    pub ghost slots: { TableId } by { table_id_coded },
    /// How many workers may claim them.
    pub ghost workers: { ℕ },
}

impl Model for Origin {
    ghost also_owns = { λ _. ftrue };
}
