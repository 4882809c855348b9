//! The clients and the conductor of a storm, with their seats.
ghost use Rattle.std.specs.Prelude.{◌≡◌, ◌≢◌};
ghost use Rattle.ring_storm.specs.{declared.plan.StormFault.TheVariants.BadPlan, Storming.fault_of};

use crate::plan::StormFault;
use ring_rings::Producer;
use ring_service::{Client, Conductor, Finished};

/// A client of a storm.
#[derive(Drop)]
pub(crate) struct StormClient {
    /// The number of the client, from 0 on.
    pub(crate) index: u32,
    pub(crate) client: Client,
    /// The id of the client's counter, after the counter was allocated.
    pub(crate) counter: u32,
    /// The number of the client's commands that had their replies.
    pub(crate) seen: u64,
}

/// The seats from which those of the clients are split.
#[derive(Drop)]
pub(crate) struct Endpoints {
    pub(crate) producer: Producer,
    pub(crate) conductor: Conductor,
}

/// The reason why a storm does not go on.
#[derive(Clone, Copy)]
pub(crate) enum Failure {
    /// Out of memory, or a thread could not be started.
    OutOfMemory,
    /// A wait took the number of turns that it was allowed.
    TurnsSpent,
}

impl From<Failure> for StormFault {
    ghost from_gives = { λ failure fault. (fault ≡ fault_of failure) × (fault ≢ BadPlan) };

    fn from(failure: Failure) -> Self {
        match failure {
            Failure::OutOfMemory => StormFault::OutOfMemory,
            Failure::TurnsSpent => StormFault::TurnsSpent,
        }
    }
}

/// The parts that the clients and the conductor return, with all their seats.
#[derive(Drop)]
pub(crate) struct LevelEnd {
    pub(crate) endpoints: Endpoints,
    /// The number of replies that came to the clients that had sent their commands.
    pub(crate) seen: u64,
    pub(crate) failure: Option<Failure>,
}

/// The parts that are left when all threads have ended and the conductor has finished.
#[derive(Drop)]
pub(crate) struct StormEnd {
    pub(crate) finished: Finished,
    /// The number of replies that came to the clients that had sent their commands.
    pub(crate) seen: u64,
    pub(crate) failure: Option<Failure>,
}
