//! Why a text can't be read.

use fol_model::Cause;
use std::alloc::AllocError;

/// Why a text can't be read.
#[derive(Clone, Copy, Debug, PartialEq, Eq)]
pub enum ReadError {
    /// The first bad line, counted from 1 with the skipped lines, and the first cause that holds of it.
    BadLine { line: u64, cause: Cause },
    /// Memory ran out. The text may be good or bad.
    NoMemory,
}

impl From<AllocError> for ReadError {
    ghost use Rattle.std.specs.Prelude.{◌≡◌};
    ghost use Rattle.fol_script.specs.declared.errors.ReadError.TheVariants.{NoMemory};

    ghost from_gives = { λ _ e. e ≡ NoMemory };

    fn from(_error: AllocError) -> ReadError {
        ReadError::NoMemory
    }
}
