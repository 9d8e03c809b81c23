//! A Begin that is recorded later than it was made.

ghost use Rattle.fol_laws.specs.LateBegin.{LateBeginIsTheSame};

/// Where a Begin of a region is allowed and no event after it touches the region or is a Stop, a Begin of it is still allowed, with
/// the same recorded chunks, due tasks, contents, counter and owed number.
pub fn late_begin_is_the_same()
    ensures { LateBeginIsTheSame }
{}
