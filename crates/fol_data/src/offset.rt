//! By how much deadlines move from one region to another.

ghost use Rattle.std.specs.Prelude.{◌≡◌, ◌≤◌, ◌^◌};
ghost use Rattle.fol_data.specs.Rests.{offset as offset_between};

/// What is added to a deadline of a region with the counter `from`, so that it is as far ahead of the counter `to`.
pub fn offset(from: u64, to: u64) -> i64
    requires from { from ≤ 2 ^ 62 }
    requires to { to ≤ 2 ^ 62 }
    ensures { result ≡ offset_between from to }
{
    to as i64 - from as i64
}
