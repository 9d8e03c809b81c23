//! How a test compares.

use std::fmt::Debug;
use std::process::Abort;

/// What was found is what was wanted. This one call is proved once, where each comparison that prints what differs would be proved by itself.
pub fn same<T: Debug + PartialEq>(rt: &impl Abort, found: &T, wanted: &T) {
    assert_eq!(rt; *found, *wanted);
}
