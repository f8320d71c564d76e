//! What a run prints, and its status.

/// What a run over one file prints, and the status that it asks for.
#[derive(Debug, Drop)]
pub struct Report {
    /// The text for standard output.
    pub out: String,
    /// The text for standard error.
    pub err: String,
    /// The status: 0, or 1 where the file isn't sorted under a check or the run failed.
    pub status: u8,
}
