//! One run of the whole service, from its making to its finish.

ghost use Rattle.std.specs.Prelude.{◌^◌, ◌≤◌, IfOk};
ghost use Rattle.ring_service.specs.Whole.{Concludes};

use crate::client::{Client, Polled, SendFault};
use crate::conductor::{Conductor, Work};
use crate::finishing::{Finished, finish};
use ring_board::{Board, CopyReceiver};
use ring_counters::CountersManager;
use ring_protocol::Request;
use ring_rings::{Bodies, InWords, ManyToOne, Ring};
use std::alloc::Global;
use std::snapshot::Snapshot;
use thiserror::Error;

/// The client and the conductor of a run, at one moment.
#[derive(Drop)]
pub struct Parties {
    pub conductor: Conductor,
    pub client: Client,
}

/// The result of `whole_run`.
///
/// The snapshots in it are for contracts, and have no bytes.
#[derive(Drop)]
pub struct WholeRun {
    pub finished: Finished,
    /// The result of the conductor's work at the moment `early`.
    pub first: Work,
    /// The result of the conductor's work at the moment `late`.
    pub second: Work,
    /// The result of the client's poll for the reply to its first command.
    pub polled: Polled,
    /// The parties after the first command was sent.
    pub begun: Snapshot<Parties>,
    /// The parties after the work at the moment `early`.
    pub halfway: Snapshot<Parties>,
    /// The parties after the listener had subscribed, and the second command was sent.
    pub resumed: Snapshot<Parties>,
    /// The parties after the work at the moment `late`.
    pub worked: Snapshot<Parties>,
    /// The client's receiver after the poll.
    pub receiver: Snapshot<CopyReceiver>,
}

/// The reason why `whole_run` did not reach its end.
#[derive(Clone, Copy, Debug, PartialEq, Eq, Error)]
pub enum WholeFault {
    /// Out of memory.
    #[error("out of memory")]
    OutOfMemory,
    /// The ring refused one of the two commands.
    #[error("{0}")]
    NotSent(#[from] SendFault),
}

/// Runs the whole service once. These are the steps:
/// - A client asks for a counter, and the conductor works at the moment `early`.
/// - A listener subscribes.
/// - The client sets the counter to 7, and the conductor works at the moment `late`.
/// - The client polls for the first reply.
/// - The client and the listener are joined, and the conductor finishes.
///
/// Moments are in milliseconds, and at most 2^62.
///
/// This function exists to be read. For this one run its contract states what `finish` states to each caller. It also
/// names, in order, what the client sent and what the conductor did. And it names when the receivers subscribed, and
/// what each of them received.
///
/// Returns `OutOfMemory` if memory runs out, and `NotSent` if the ring refuses a command.
pub fn whole_run(alloc: Global, early: u64, late: u64) -> Result<WholeRun, WholeFault>
    requires moments { (early ≤ 2 ^ 62) × (late ≤ 2 ^ 62) }
    ensures { IfOk result (Concludes early late) }
{
    whole_run_over::<InWords>(alloc, early, late)
}

/// Does what `whole_run` does, over a ring of either form. With `InSlots` the bodies are in plain memory.
pub fn whole_run_over<B: Bodies>(
    alloc: Global,
    early: u64,
    late: u64,
) -> Result<WholeRun, WholeFault>
    requires moments { (early ≤ 2 ^ 62) × (late ≤ 2 ^ 62) }
    ensures { IfOk result (Concludes early late) }
{
    let Ok((ring, producer, consumer)) = Ring::<ManyToOne, B>::new(alloc, 1024) else {
        return Err(WholeFault::OutOfMemory);
    };
    let Ok((board, transmitter)) = Board::new(alloc, 256) else {
        return Err(WholeFault::OutOfMemory);
    };
    let Ok((values, counters)) = CountersManager::new(alloc, 4, 50) else {
        return Err(WholeFault::OutOfMemory);
    };
    let mut conductor = Conductor::new(consumer, transmitter, counters);
    let Ok(receiver) = conductor.subscribe(alloc, &board) else {
        return Err(WholeFault::OutOfMemory);
    };
    let client = Client::new(producer, receiver);
    let mut both = Parties { conductor, client };
    let allocate: Request<&[u8]> = Request::Allocate {
        type_id: 1,
        key: &[],
        label: b"requests",
    };
    let asked = both.client.send(&ring, allocate)?;
    let begun = Snapshot::of(&both);
    let limit = u32::MAX;
    let first = both.conductor.do_work(&ring, &board, &values, early, limit);
    let halfway = Snapshot::of(&both);

    let Ok(listener) = both.conductor.subscribe(alloc, &board) else {
        return Err(WholeFault::OutOfMemory);
    };
    both.client.send(&ring, Request::Set { id: 0, value: 7 })?;
    let resumed = Snapshot::of(&both);
    let second = both.conductor.do_work(&ring, &board, &values, late, limit);
    let worked = Snapshot::of(&both);

    let polled = both.client.poll(&board, asked);
    let (producer, receiver) = both.client.into_parts();
    let heard = Snapshot::of(&receiver);
    both.conductor.join_receiver(&board, receiver);
    both.conductor.join_receiver(&board, listener);
    match finish(ring, board, values, both.conductor, producer) {
        Ok(finished) => Ok(WholeRun {
            finished,
            first,
            second,
            polled,
            begun,
            halfway,
            resumed,
            worked,
            receiver: heard,
        }),
        Err(_refused) => unreachable!(),
    }
}
