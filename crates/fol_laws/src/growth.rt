//! How far the numbers of a world grow.

ghost use Rattle.fol_laws.specs.Tasks.{EachTaskIsWithinLimits, EachTaskIsBelowNext};
ghost use Rattle.fol_laws.specs.Growth.{CountersCountEnds, NewRegionsBeginAtZero, TaskNumbersGrow, RegionIdsGrow};

/// Each task is within its limits: a queued one has a rest of 1 to 1,000,000, and a taken one belongs to a Ticking region.
pub fn each_task_is_within_limits()
    ensures { EachTaskIsWithinLimits }
{}

/// Each task has a number below the next one.
pub fn each_task_is_below_next()
    ensures { EachTaskIsBelowNext }
{}

/// The counter of a region is at most the number of Ends.
pub fn counters_count_ends()
    ensures { CountersCountEnds }
{}

/// The next task number is at most 1 and one more for each entry and for each answer that an End lists.
pub fn task_numbers_grow()
    ensures { TaskNumbersGrow }
{}

/// The next region id is at most 1, one more for each entry and for each answer that an End lists, and 1,820 more for each End.
pub fn region_ids_grow()
    ensures { RegionIdsGrow }
{}

/// A region that was not given out yet has counter 0.
pub fn new_regions_begin_at_zero()
    ensures { NewRegionsBeginAtZero }
{}
