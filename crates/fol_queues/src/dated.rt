//! A task that waits, and when it is due.

use fol_model::Task;

/// A task that waits until its region has begun so many ticks.
#[derive(Drop)]
pub struct Dated {
    pub task: Task,
    /// The tick that runs the task is this one, counted from 1 over the ticks that the region begins.
    pub deadline: u64,
}
