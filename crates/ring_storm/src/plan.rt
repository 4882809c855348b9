//! The plan of a storm, and its report.
ghost use Rattle.std.specs.Prelude.{◌≡◌, ◌*◌, ◌↔◌, IsTrue};
ghost use Rattle.ring_storm.specs.Storming.{IsBoardFor, IsPlan, storm_code};

use ring_layout::refusal_codes::{BAD_PLAN, OUT_OF_MEMORY, TURNS_SPENT};
use ring_service::Finished;
use std::snapshot::Snapshot;
use thiserror::Error;

/// The plan of a storm.
#[derive(Clone, Copy, Debug, PartialEq, Eq)]
pub struct StormPlan {
    /// The number of clients, from 1 to 64.
    pub clients: u32,
    /// The number of commands of each client, from 1 to 10,000.
    pub commands: u32,
    /// The capacity of the command ring in bytes, which is a power of two from 256 to 2^24.
    pub ring: u32,
    /// The number of turns that each wait may take, which is at least one.
    pub turns: u64,
}

/// The report of a storm.
#[derive(Drop)]
pub struct StormReport {
    /// The number of commands that the conductor took.
    pub received: u64,
    /// The number of commands left in the ring.
    pub left: u64,
    /// The number of replies that came to the clients that had sent their commands.
    pub seen: u64,
    /// The number of counters in use, which is one for each client.
    pub live: u32,
    /// The sum of the counters' values. Each client adds the last number that it set, or 0 if it sent only one command.
    pub sum: i64,
    /// The parts with which the storm finished. This field is for contracts, and has no bytes.
    pub finished: Snapshot<Finished>,
}

/// The reason why a storm gives no report.
#[derive(Clone, Copy, Debug, PartialEq, Eq, Error)]
pub enum StormFault {
    /// A number of the plan is not allowed.
    #[error("{} BadPlan", self.code())]
    BadPlan,
    /// Out of memory, or a thread could not be started.
    #[error("{} OutOfMemory", self.code())]
    OutOfMemory,
    /// A wait took the number of turns that it was allowed.
    #[error("{} TurnsSpent", self.code())]
    TurnsSpent,
}

impl StormFault {
    /// Returns the number of the refusal.
    pub fn code(self) -> i32
        ensures { result ≡ storm_code self }
    {
        match self {
            StormFault::BadPlan => BAD_PLAN,
            StormFault::OutOfMemory => OUT_OF_MEMORY,
            StormFault::TurnsSpent => TURNS_SPENT,
        }
    }
}

impl StormPlan {
    /// Returns whether each number is allowed.
    pub(crate) fn is_lawful(&self) -> bool
        ensures { IsTrue result ↔ IsPlan self.now }
    {
        1 <= self.clients
            && self.clients <= 64
            && 1 <= self.commands
            && self.commands <= 10_000
            && 256 <= self.ring
            && self.ring <= 1 << 24
            && self.ring.is_power_of_two()
            && 1 <= self.turns
    }

    /// Returns the number of commands of all clients.
    pub(crate) fn all_commands(&self) -> u32
        requires { IsPlan self.now }
        ensures { result ≡ self.now.clients * self.now.commands }
    {
        self.clients * self.commands
    }

    /// Returns a capacity of the broadcast buffer with which no reply is overtaken.
    pub(crate) fn board_capacity(&self) -> u32
        requires { IsPlan self.now }
        ensures { IsBoardFor self.now result }
    {
        (24 * self.all_commands() + 1).next_power_of_two().max(256)
    }
}
