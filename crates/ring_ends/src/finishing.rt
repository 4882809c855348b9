//! How a conductor ends.
ghost use Rattle.std.specs.Prelude.{◌≡◌, IfErr, IfOk, MatchOption, None};
ghost use Rattle.ring_table.specs.Staged.{elsewhere};
ghost use Rattle.ring_rings.specs.Closing.{IsRefusedAs};
ghost use Rattle.ring_rings.specs.Seats.{capacity_of, start_of};
ghost use Rattle.ring_service.specs.Finishing.{refusal_to, HandsOn, HandsOnWithout, Headline, HeadlineWithout};
ghost use Rattle.ring_ends.specs.Stopping.{IsStopped};

use crate::conductor::ConductorEnd;
use crate::lending::Shared;
use ring_layout::ALL_SHARES;
use ring_service::{FinishFault, Finished, FinishedWithout, finish};
use std::sync::Arc;
use thiserror::Error;

/// The reason why a conductor did not finish.
#[derive(Clone, Copy, Debug, PartialEq, Eq, Error)]
pub enum StopFault {
    /// Shares of the ring or of the broadcast buffer are not back.
    #[error("{0}")]
    Refused(FinishFault),
    /// All shares are back, but another end has what the conductor shares.
    #[error("InUse")]
    InUse,
}

/// A conductor that did not finish: the reason, and the conductor, which is unchanged.
#[derive(Drop)]
pub struct NotFinished {
    pub reason: StopFault,
    pub conductor: ConductorEnd,
}

impl ConductorEnd {
    /// Tests whether all shares of the ring and the broadcast buffer are back.
    fn test_finish(&self) -> Result<(), FinishFault>
        ensures { IsRefusedAs (λ fault. fault) (refusal_to self.now.conductor self.now.producer) result }
    {
        if self.producer.shares() < ALL_SHARES {
            return Err(FinishFault::ProducersOut {
                shares: ALL_SHARES - self.producer.shares(),
            });
        }
        if self.shares < ALL_SHARES {
            return Err(FinishFault::ReceiversOut {
                receivers: ALL_SHARES - self.shares,
            });
        }
        Ok(())
    }

    /// Takes the conductor apart, after all clients and receivers were joined. Returns, in this order, `Refused` if
    /// shares are not back, and `InUse` if another end has what the conductor shares. After an error the conductor
    /// comes back unchanged.
    pub fn finish(self) -> Result<Finished, NotFinished>
        ensures headline { IfOk result (Headline (capacity_of self.shared.ring) (start_of self.shared.ring)
            self.producer self.conductor) }
        ensures hands_on { IfOk result (HandsOn (capacity_of self.shared.ring) self.shared.board self.shared.values
            self.producer self.conductor) }
        ensures stopped { IsStopped self result }
    {
        if let Err(fault) = self.test_finish() {
            return Err(NotFinished {
                reason: StopFault::Refused(fault),
                conductor: self,
            });
        }
        let ConductorEnd {
            shared,
            conductor,
            producer,
            shares,
        } = self;
        let Shared {
            ring,
            board,
            values,
        } = match Arc::try_unwrap(shared) {
            Ok(parts) => parts,
            Err(shared) => {
                return Err(NotFinished {
                    reason: StopFault::InUse,
                    conductor: ConductorEnd {
                        shared,
                        conductor,
                        producer,
                        shares,
                    },
                });
            }
        };
        match finish(ring, board, values, conductor, producer) {
            Ok(finished) => Ok(finished),
            Err(_refused) => unreachable!(),
        }
    }

    /// Takes the conductor apart without any producer or receiver, even if some of them were lost. If another end has
    /// what the conductor shares, the conductor comes back unchanged.
    pub fn finish_without(self) -> Result<FinishedWithout, ConductorEnd>
        ensures headline { IfOk result (HeadlineWithout elsewhere (capacity_of self.shared.ring)
            (start_of self.shared.ring) self.conductor) }
        ensures hands_on { IfOk result (HandsOnWithout self.shared.board self.shared.values self.conductor) }
        ensures in_use { IfErr result (λ conductor. conductor ≡ self) }
    {
        let ConductorEnd {
            shared,
            conductor,
            producer,
            shares,
        } = self;
        match Arc::try_unwrap(shared) {
            Ok(parts) => Ok(conductor.finish_without(parts.ring, parts.board, parts.values)),
            Err(shared) => Err(ConductorEnd {
                shared,
                conductor,
                producer,
                shares,
            }),
        }
    }
}
