//! The conductor, and the types of what its calls return.
pub(crate) mod heartbeat;
pub(crate) mod run;
pub(crate) mod subscriptions;
pub(crate) mod working;

ghost use Rattle.std.specs.Prelude.{◌≡◌, ◌+◌, ◌*◌, ◌≤◌, length};
ghost use Rattle.ring_rings.specs.Seats.{taken_of};
ghost use Rattle.ring_board.specs.Seats.{view_of};
ghost use Rattle.ring_service.specs.Account.{HasFold};

use ring_board::Transmitter;
use ring_counters::CountersManager;
use ring_rings::Consumer;

/// Takes commands from a ring, applies them to the counters that it owns, and transmits one reply to each.
///
/// A conductor belongs to the ring, the broadcast buffer and the values of the parts of which it was made. Each call
/// that takes these requires exactly these. One thread at a time uses a conductor. A conductor may move between
/// threads. If it is dropped, neither the ring nor the broadcast buffer can ever be closed.
#[derive(Drop)]
pub struct Conductor {
    pub(crate) consumer: Consumer,
    pub(crate) transmitter: Transmitter,
    pub(crate) counters: CountersManager,
    /// The number of commands that the conductor took. Each has a reply of at least 8 bytes on the broadcast buffer.
    pub(crate) received: u64,
    ghost counted: { received ≡ length (taken_of consumer) },
    ghost answered: { 8 * received ≤ (view_of transmitter).at },
    ghost folded: { ∥ HasFold consumer counters transmitter ∥₁ },
}

/// The reason why the conductor stopped.
#[derive(Clone, Copy, Debug, PartialEq, Eq)]
pub enum WorkStop {
    /// The limit was reached.
    Limit,
    /// The end of the ring's buffer was reached. The next call goes on after it.
    Block,
    /// There was no settled command.
    Unpublished,
    /// A reply might end above 2^62 on the broadcast buffer. The command stays in the ring, and is not applied.
    BoardEnd,
}

/// The result of the conductor's work.
#[derive(Clone, Copy, Debug, PartialEq, Eq)]
pub struct Work {
    /// The number of commands that were taken.
    pub messages: u64,
    pub stopped: WorkStop,
}

/// The arguments of a call of `do_work`.
#[derive(Clone, Copy, Debug, PartialEq, Eq)]
pub struct Cycle {
    /// The moment, in milliseconds, which is at most 2^62.
    pub now: u64,
    /// The largest number of commands that the call takes.
    pub limit: u32,
}
