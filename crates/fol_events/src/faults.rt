//! Why a value is not read.

use std::alloc::AllocError;

/// Why a value is not read.
#[derive(Clone, Copy)]
pub enum Fault {
    /// The words spell no such value.
    Unspelled,
    /// Memory ran out.
    NoMemory(AllocError),
}

impl From<AllocError> for Fault {
    ghost use Rattle.std.specs.Prelude.{◌≡◌};
    ghost use Rattle.fol_events.specs.declared.faults.Fault.TheVariants.{NoMemory};

    ghost from_gives = { λ a e. e ≡ NoMemory a };

    fn from(error: AllocError) -> Fault {
        Fault::NoMemory(error)
    }
}
