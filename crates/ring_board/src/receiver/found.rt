//! The types for what a receiver finds.

/// The result of a look at the receiver's place.
#[derive(Clone, Copy)]
pub(crate) enum Found {
    /// The tail that was loaded is not beyond the place.
    Nothing(u64),
    /// There is an entry at this place, with this header.
    Entry(u64, u64),
    /// The validation at this place failed, at this intent.
    Missed(u64, u64),
}

/// A copy at the front of the scratch.
#[derive(Clone, Copy)]
pub(crate) struct CopiedMessage {
    pub(crate) place: u64,
    pub(crate) type_id: i32,
    pub(crate) len: usize,
}

/// A validation that failed, and the intent that showed it.
#[derive(Clone, Copy)]
pub(crate) struct FailedValidation {
    pub(crate) place: u64,
    pub(crate) intent: u64,
}
