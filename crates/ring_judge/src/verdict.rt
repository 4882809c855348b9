//! What a judge says.

/// What a judge says of a run.
#[derive(Clone, Copy, Debug, PartialEq, Eq)]
pub enum Verdict {
    /// Some history explains the run.
    Yes,
    /// No history explains the run. The number is the index of the first line that none explains.
    No(usize),
}
