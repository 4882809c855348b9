//! The reasons why a conductor does not finish, and what comes back.
ghost use Rattle.std.specs.Prelude.{◌≡◌};
ghost use Rattle.ring_service.specs.Finishing.{finish_code};

use crate::conductor::Conductor;
use ring_board::Board;
use ring_counters::CounterValues;
use ring_layout::refusal_codes::{CLAIMS_OPEN, PRODUCERS_OUT, RECEIVERS_OUT};
use ring_rings::Producer;
use thiserror::Error;

/// The reason why a conductor does not finish.
#[derive(Clone, Copy, Debug, PartialEq, Eq, Error)]
pub enum FinishFault {
    /// This many claims of the producer are open.
    #[error("{} ClaimsOpen {claims}", self.code())]
    ClaimsOpen { claims: u64 },
    /// Other producers have this many shares of the ring.
    #[error("{} ProducersOut {shares}", self.code())]
    ProducersOut { shares: u32 },
    /// Receivers have this many shares of the broadcast buffer.
    #[error("{} ReceiversOut {receivers}", self.code())]
    ReceiversOut { receivers: u32 },
}

impl FinishFault {
    /// Returns the number of the refusal.
    pub fn code(self) -> i32
        ensures { result ≡ finish_code self }
    {
        match self {
            FinishFault::ClaimsOpen { claims: _ } => CLAIMS_OPEN,
            FinishFault::ProducersOut { shares: _ } => PRODUCERS_OUT,
            FinishFault::ReceiversOut { receivers: _ } => RECEIVERS_OUT,
        }
    }
}

/// The conductor did not finish, and all arguments come back as they were.
#[derive(Drop)]
pub struct FinishRefused<R> {
    pub reason: FinishFault,
    pub ring: R,
    pub board: Board,
    pub values: CounterValues,
    pub conductor: Conductor,
    pub producer: Producer,
}
