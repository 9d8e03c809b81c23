//! The forms of an output.

/// The form in which a closing is written.
#[derive(Clone, Copy)]
pub(crate) enum Form {
    /// The report.
    Text,
    /// The report as JSON.
    Json,
    /// The summary of the made texts of so many clusters.
    Summary(u32),
}
