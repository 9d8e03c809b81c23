//! What became of a line.

use fol_model::{Cause, Keyword};

/// What became of a line that is not skipped.
#[derive(Clone, Copy)]
pub enum Taken {
    /// It is bad, and this is the first cause.
    Bad(Cause),
    /// It is good, and begins with this word.
    Row(Keyword),
}
