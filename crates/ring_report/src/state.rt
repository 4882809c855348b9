//! The states of records and counters.
use crate::colour::Colour;
use crate::picture::Mark;

/// The state of a record or a counter.
#[derive(Clone, Copy, Debug)]
pub enum State {
    /// A claim of a ring that is neither committed nor aborted.
    Open,
    /// A message of a ring.
    Committed,
    /// An aborted claim of a ring.
    Aborted,
    /// A record of a ring that is passed over.
    AbortedOrPadding,
    /// Claims of a ring whose headers are not yet stored.
    Unstored,
    /// A message of a broadcast buffer.
    Valid,
    /// A message of a broadcast buffer that receivers may have lost.
    Lapped,
    /// Padding of a broadcast buffer.
    Padding,
    /// Padding of a broadcast buffer in the lap before.
    LappedPadding,
    /// A counter that is allocated.
    InUse,
    /// A counter that was freed.
    Freed,
}

impl State {
    /// Returns the name of the state.
    pub fn name(self) -> &'static str {
        match self {
            State::Open => "open",
            State::Committed => "committed",
            State::Aborted => "aborted",
            State::AbortedOrPadding => "aborted or padding",
            State::Unstored => "not stored yet",
            State::Valid => "valid",
            State::Lapped => "lapped",
            State::Padding => "padding",
            State::LappedPadding => "lapped padding",
            State::InUse => "in use",
            State::Freed => "freed",
        }
    }

    /// Returns the colour of the state at a terminal.
    pub(crate) fn colour(self) -> Colour {
        match self {
            State::Open | State::Unstored => Colour::Yellow,
            State::Committed | State::Valid | State::InUse => Colour::Plain,
            _ => Colour::Dim,
        }
    }

    /// Returns the mark of a piece of the buffer that has a record of this state.
    pub(crate) fn mark(self) -> Mark {
        match self {
            State::Open => Mark::Open,
            State::Committed | State::Valid => Mark::Committed,
            State::Aborted => Mark::Aborted,
            State::Unstored => Mark::Unstored,
            State::Lapped => Mark::Lapped,
            State::AbortedOrPadding | State::Padding | State::LappedPadding =>
                Mark::AbortedOrPadding,
            State::InUse | State::Freed => Mark::Free,
        }
    }
}
