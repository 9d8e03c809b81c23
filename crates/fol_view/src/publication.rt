//! One publication.

ghost use Rattle.std.specs.Prelude.{◌≡◌, IfOk};
ghost use Rattle.fol_view.specs.Rows.{AreInOrder, owner_in};

use fol_keyed::compare_sections;
use fol_live::Owners;
use fol_model::{OwnerRow, SectionPos, Sequence};
use std::alloc::{AllocError, Global};
use std::marker::Model;
use std::sync::Arc;

/// The owners after so much of the history. The rows are shared by all copies of a publication.
#[derive(Drop)]
pub struct Publication {
    front: u64,
    rows: Arc<Sequence<OwnerRow>, Global>,
}

impl Model for Publication {
    ghost use Rattle.std.specs.Arc.{arc_value};
    ghost use Rattle.fol_view.specs.Publications.{Publication as Published, publication};
    ghost use Rattle.fol_view.specs.Rows.{AreInOrder};

    ghost Value = { Published };

    ghost view = { λ p. publication p.front (arc_value p.rows) };

    ghost invariant = { λ p. AreInOrder (arc_value p.rows) };
}

impl Publication {
    /// These owners, whose rows are in order.
    pub(crate) fn of(alloc: Global, owners: Owners) -> Result<Publication, AllocError>
        requires { AreInOrder owners.rows.items }
        ensures front { IfOk result (λ p. p.front ≡ owners.front) }
        ensures rows { IfOk result (λ p. p.rows ≡ owners.rows.items) }
    {
        let Owners { front, rows } = owners;
        match Arc::new(alloc, Sequence::of(rows)) {
            Ok(rows) => Ok(Publication { front, rows }),
            Err(_) => Err(AllocError),
        }
    }

    /// The same once more. Takes no memory; refused only where there are too many copies.
    pub(crate) fn again(&self) -> Result<Publication, AllocError>
        ensures { IfOk result (λ p. p ≡ self.now) }
    {
        Ok(Publication {
            front: self.front,
            rows: Arc::try_clone(&self.rows)?,
        })
    }

    /// How much of the history it is after.
    pub(crate) fn front(&self) -> u64
        ensures { result ≡ self.now.front }
    {
        self.front
    }

    /// The region of a section; `None` exactly where no row names the section.
    pub(crate) fn owner(&self, s: SectionPos) -> Option<u64>
        ensures { result ≡ owner_in self.now.rows s }
    {
        let rows: &Sequence<OwnerRow> = &self.rows;
        find(rows.as_slice(), s)
    }
}

/// The region of a section by rows in order, found by halves.
fn find(rows: &[OwnerRow], s: SectionPos) -> Option<u64>
    requires { AreInOrder rows.now }
    ensures { result ≡ owner_in rows.now s }
{
    match rows.binary_search_by(|row| compare_sections(row.at, s)) {
        Ok(i) => Some(rows[i].region),
        Err(_) => None,
    }
}
