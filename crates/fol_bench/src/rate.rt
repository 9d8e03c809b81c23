//! Rates.

use std::time::Duration;

/// How many a second, rounded down; 0 where no time was measured.
pub fn per_second(count: u64, time: Duration) -> u128 {
    let nanos = time.as_nanos();
    if nanos == 0 {
        return 0;
    }
    u128::from(count) * 1_000_000_000 / nanos
}
