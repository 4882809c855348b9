//! What a handler returns.
ghost use Rattle.std.specs.Prelude.{◌≡◌};
ghost use Rattle.ring_words.specs.Controlled.{heard};

/// What a read does after it has shown a message to its handler.
#[derive(Clone, Copy, Debug, PartialEq, Eq)]
pub enum Action {
    /// Leave this message in the ring, and stop.
    Abort,
    /// Consume this message, and stop.
    Break,
    /// Consume the messages up to this one now, and go on.
    Commit,
    /// Go on.
    Continue,
}

impl Action {
    /// The action that a read goes by: this one if the read heeds its handler, otherwise `Continue`.
    pub(crate) fn heard(self, heeds: bool) -> Action
        ensures { result ≡ heard heeds self }
    {
        if heeds { self } else { Action::Continue }
    }
}
