//! The end of each use.
ghost use Rattle.std.specs.Prelude.{IfOk};
ghost use Rattle.ring_ends.specs.End.{AreOfOneRing};
ghost use Rattle.ring_uses.specs.Closing.{IsClosedWith};

use ring_ends::{ConsumerEnd, LastEnd, ProducerEnd};
use ring_rings::{InSlots, Kind};
use ring_words::SoloRing;
use std::snapshot::Snapshot;
use thiserror::Error;

/// The error of a ring that another end still owns.
#[derive(Clone, Copy, Debug, Error)]
#[error("another end owns the ring")]
pub struct RingInUse;

/// A ring that was closed.
#[derive(Drop)]
pub struct Closed<Ends> {
    /// The messages that are still in the ring.
    pub rest: SoloRing,
    /// The ends that were given to the call. This field is for contracts, and has no bytes. Contracts read in it what
    /// was sent and what was received.
    pub ends: Snapshot<Ends>,
}

/// Closes a ring, and gives up if it cannot be closed.
pub fn close<K: Kind>(
    producer: ProducerEnd<K, InSlots>,
    consumer: ConsumerEnd<K, InSlots>,
) -> anyhow::Result<Closed<LastEnd<K, InSlots>>>
    requires { AreOfOneRing consumer producer }
    ensures { IfOk result (IsClosedWith producer consumer) }
{
    let last = match consumer.close(producer) {
        Ok(last) => last,
        Err(refused) => return Err(refused.reason.into()),
    };
    let ends = Snapshot::of(&last);
    match last.finish() {
        Ok(rest) => Ok(Closed { rest, ends }),
        Err(_last) => Err(RingInUse.into()),
    }
}
