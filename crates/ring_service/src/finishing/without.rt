//! The call that finishes a conductor whose producers were lost.
ghost use Rattle.ring_service.specs.{Conducting.IsConductorOf, Finishing.HandsOnWithout, Finishing.HeadlineWithout};

use crate::conductor::Conductor;
use ring_board::{Board, ClosedBoard};
use ring_counters::{CounterValues, CountersManager};
use ring_rings::{Rescue, Rescued};
use std::snapshot::Snapshot;

/// The parts that a conductor returns when its producers were lost.
#[derive(Drop)]
pub struct FinishedWithout {
    /// The messages that are still in the ring, and how much was claimed and not settled.
    pub rescued: Rescued,
    /// The broadcast buffer with all replies.
    pub board: ClosedBoard,
    /// The values of the counters, for readers that still exist.
    pub values: CounterValues,
    pub counters: CountersManager,
    /// The number of commands that were taken.
    pub received: u64,
    /// The conductor that was given to the call. This field is for contracts, and has no bytes. Contracts read in it
    /// the messages that the conductor received, its replies, and its joined receivers.
    pub conductor: Snapshot<Conductor>,
}

impl Conductor {
    /// Takes the ring and the broadcast buffer apart without any producer or receiver, even if some of them were lost.
    /// Returns what is still in the ring, the broadcast buffer with all replies, and the counters. Claims that were not
    /// settled are aborted, and the result says how many claims these were.
    ///
    /// This call refuses nothing. The call takes the ring and the broadcast buffer by value. So no thread is still
    /// inside a call on them. If a producer with all shares exists, `finish` promises more.
    pub fn finish_without<R: Rescue>(
        self,
        ring: R,
        board: Board,
        values: CounterValues,
    ) -> FinishedWithout
        requires conductor { IsConductorOf R.is_consumer ring board values self }

        // When it was taken apart, the ring had histories of all claims. For each of them, the received messages,
        // followed by those that are still in the ring, are the committed records. The claims of lost producers are
        // among them. The copies of each joined receiver are runs of the replies. Counters and replies are the fold of
        // the received messages.
        ensures headline { HeadlineWithout R.bodies (R.bytes ring) (R.start ring) self result }

        // The counters, the replies and the values are handed on.
        ensures hands_on { HandsOnWithout board values self result }
    {
        let conductor = Snapshot::of(&self);
        let Conductor {
            consumer,
            transmitter,
            counters,
            received,
        } = self;
        FinishedWithout {
            rescued: ring.rescue(consumer),
            board: board.rescue(transmitter),
            values,
            counters,
            received,
            conductor,
        }
    }
}
