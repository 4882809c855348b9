//! The names of calls.
ghost use Rattle.std.specs.Prelude.{◌≡◌, ◌≢◌, MatchOption};

/// The call that the first word of a line names.
#[derive(Clone, Copy, Debug, PartialEq, Eq)]
pub enum Name {
    Write,
    Claim,
    Put,
    Commit,
    Abort,
    Read,
    Control,
    Positions,
    Correlation,
    Beat,
    Heartbeat,
    Transmit,
    Subscribe,
    Receive,
    Leave,
    Storm,
    Send,
    Allocate,
    Own,
    Free,
    Set,
    Close,
    Work,
    Listen,
    Hear,
    Counters,
    Owner,
    Watch,
    Peek,
    Unwatch,
}

impl Name {
    ghost use Rattle.ring_scenario.specs.{declared.lines.name.Name.Name, Forms.spelled};

    /// Returns the name that a word spells.
    pub fn of(word: &[u8]) -> Option<Name>
        ensures { MatchOption result ((name : Name) → spelled name ≢ word.now) (λ name. spelled name ≡ word.now) }
    {
        Some(match word {
            _ if word == b"write".as_slice() => Name::Write,
            _ if word == b"claim".as_slice() => Name::Claim,
            _ if word == b"put".as_slice() => Name::Put,
            _ if word == b"commit".as_slice() => Name::Commit,
            _ if word == b"abort".as_slice() => Name::Abort,
            _ if word == b"read".as_slice() => Name::Read,
            _ if word == b"control".as_slice() => Name::Control,
            _ if word == b"positions".as_slice() => Name::Positions,
            _ if word == b"correlation".as_slice() => Name::Correlation,
            _ if word == b"beat".as_slice() => Name::Beat,
            _ if word == b"heartbeat".as_slice() => Name::Heartbeat,
            _ if word == b"transmit".as_slice() => Name::Transmit,
            _ if word == b"subscribe".as_slice() => Name::Subscribe,
            _ if word == b"receive".as_slice() => Name::Receive,
            _ if word == b"leave".as_slice() => Name::Leave,
            _ if word == b"storm".as_slice() => Name::Storm,
            _ if word == b"send".as_slice() => Name::Send,
            _ if word == b"allocate".as_slice() => Name::Allocate,
            _ if word == b"own".as_slice() => Name::Own,
            _ if word == b"free".as_slice() => Name::Free,
            _ if word == b"set".as_slice() => Name::Set,
            _ if word == b"close".as_slice() => Name::Close,
            _ if word == b"work".as_slice() => Name::Work,
            _ if word == b"listen".as_slice() => Name::Listen,
            _ if word == b"hear".as_slice() => Name::Hear,
            _ if word == b"counters".as_slice() => Name::Counters,
            _ if word == b"owner".as_slice() => Name::Owner,
            _ if word == b"watch".as_slice() => Name::Watch,
            _ if word == b"peek".as_slice() => Name::Peek,
            _ if word == b"unwatch".as_slice() => Name::Unwatch,
            _ => return None,
        })
    }
}
