//! What a history is read for.
//!
//! The world after a history is a function of the opening and the history, `world` of `fol_model`, so there is exactly one.

ghost use Rattle.fol_laws.specs.ByUnread.{ByIsNotRead};
ghost use Rattle.fol_laws.specs.MoreWorkers.{LegalOfMore};

/// Two histories that differ only in who recorded the entries lead to one world, and one is a run where the other is.
pub fn by_is_not_read()
    ensures { ByIsNotRead }
{}

/// A legal history stays legal where there may be more workers.
pub fn legal_of_more()
    ensures { LegalOfMore }
{}
