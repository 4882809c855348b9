//! How a conductor in a handle ends, also if clients and receivers are lost.
ghost use Rattle.std.specs.Prelude.{◌≡◌, IfErr, IfOk};
ghost use Rattle.ring_handles.specs.Closing.{EndsWith, WhyNotFinished};

use crate::code::IN_USE;
use crate::conductor::ConductorSide;
use ring_ends::{NotFinished, StopFault};

/// The number of commands that a conductor received, and of those still in its ring.
#[derive(Clone, Copy)]
pub struct Ended {
    pub received: u64,
    pub left: u64,
}

impl ConductorSide {
    /// Ends the conductor, if no other handle has what it shares. Clients and receivers that were freed are not missed.
    /// Otherwise it comes back.
    pub fn finish(self) -> Result<Ended, (i32, ConductorSide)>
        ensures ended { IfOk result (λ e. EndsWith self.end e.received e.left) }
        ensures refused { IfErr result (λ r. (r.1 ≡ self) × WhyNotFinished self r.0) }
    {
        let ConductorSide { end, identity } = self;
        let NotFinished {
            reason,
            conductor: end,
        } = match end.finish() {
            Ok(mut finished) => {
                return Ok(Ended {
                    received: finished.received,
                    left: u64::from(finished.rest.drain()),
                });
            }
            Err(kept) => kept,
        };
        let StopFault::Refused(fault) = reason else {
            return Err((IN_USE, ConductorSide { end, identity }));
        };
        match end.finish_without() {
            Ok(mut parts) => Ok(Ended {
                received: parts.received,
                left: u64::from(parts.rescued.rest.drain()),
            }),
            Err(end) => Err((fault.code(), ConductorSide { end, identity })),
        }
    }
}
