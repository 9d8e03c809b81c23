//! What follows from the contracts of the calls. Each law is the contract of a function with an empty body.

ghost use Rattle.fol_view.specs.Looks.{FrontsNeverFall};

/// A look-up's front is not below that of any publication of the reader's list before it: so a reader's fronts never fall, and after
/// `learn` they are not below any that was told.
pub fn fronts_never_fall()
    ensures { FrontsNeverFall }
{}
