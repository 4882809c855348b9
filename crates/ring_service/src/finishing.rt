//! The call that finishes a conductor.
pub(crate) mod fault;
pub(crate) mod without;

ghost use Rattle.std.specs.Prelude.{◌≡◌, IfErr, IfOk, OnOk};
ghost use Rattle.ring_layout.specs.Refusals.{all_shares};
ghost use Rattle.ring_rings.specs.{Closing.IsRefusedAs, Seats.open_claims_of, Seats.shares_of};
ghost use Rattle.ring_board.specs.Seats.{shares_of as board_shares_of};
ghost use Rattle.ring_service.specs.Conducting.{IsConductorOf, transmitter_of};
ghost use Rattle.ring_service.specs.Finishing.{ComesBack, HandsOn, Headline, handed_back, refusal_to};

use crate::conductor::Conductor;
use crate::finishing::fault::{FinishFault, FinishRefused};
use ring_board::{Board, ClosedBoard};
use ring_counters::{CounterValues, CountersManager};
use ring_layout::ALL_SHARES;
use ring_rings::{CommandSource, Producer};
use ring_words::SoloRing;
use std::snapshot::Snapshot;

/// The parts that a conductor returns when it finishes.
#[derive(Drop)]
pub struct Finished {
    /// The messages that are still in the ring.
    pub rest: SoloRing,
    /// The broadcast buffer with all replies.
    pub board: ClosedBoard,
    /// The values of the counters, for readers that still exist.
    pub values: CounterValues,
    pub counters: CountersManager,
    /// The number of commands that were taken.
    pub received: u64,
    /// The producer that was given to the call. This field is for contracts, and has no bytes. Contracts read the
    /// claims of all producers in it.
    pub producer: Snapshot<Producer>,
    /// The conductor that was given to the call. This field is for contracts, and has no bytes. Contracts read in it
    /// the messages that the conductor received, its replies, and its joined receivers.
    pub conductor: Snapshot<Conductor>,
}

/// Tests whether a conductor may finish with this producer.
fn test_finish(conductor: &Conductor, producer: &Producer) -> Result<(), FinishFault>
    ensures refused { IsRefusedAs (λ fault. fault) (refusal_to conductor.now producer.now) result }
    ensures ok { OnOk result ((open_claims_of producer.now ≡ 0) × (shares_of producer.now ≡ all_shares)
        × (board_shares_of (transmitter_of conductor.now) ≡ all_shares)) }
{
    let claims = producer.open_claims();
    if claims > 0 {
        return Err(FinishFault::ClaimsOpen { claims });
    }
    let producing = producer.shares();
    if producing < ALL_SHARES {
        return Err(FinishFault::ProducersOut {
            shares: ALL_SHARES - producing,
        });
    }
    let transmitting = conductor.transmitter.shares();
    if transmitting < ALL_SHARES {
        return Err(FinishFault::ReceiversOut {
            receivers: ALL_SHARES - transmitting,
        });
    }
    Ok(())
}

/// Closes the ring and the broadcast buffer, after all producers and all receivers were joined and while no claim is
/// open. Returns what is still in the ring, the broadcast buffer with all replies, and the counters. Readers of the
/// values may still exist.
///
/// Returns `ClaimsOpen`, `ProducersOut` or `ReceiversOut`, in this order, before anything is closed. All five arguments
/// are then returned unchanged, and the call can be made again.
pub fn finish<R: CommandSource>(
    ring: R,
    board: Board,
    values: CounterValues,
    conductor: Conductor,
    producer: Producer,
) -> Result<Finished, FinishRefused<R>>
    requires conductor { IsConductorOf R.is_consumer ring board values conductor }
    requires producer { R.is_producer ring producer }

    // The call succeeds only after the producers have returned. Otherwise all five arguments are returned unchanged.
    ensures refused { IsRefusedAs (handed_back ring board values conductor producer)
        (refusal_to conductor producer) result }
    ensures back { IfErr result (ComesBack R.is_consumer R.is_producer ring board values conductor producer) }

    // The received messages, followed by the messages that are still in the ring, are the committed records in the
    // order of the tail exchanges. Each record is there whole and once. The copies of each receiver are runs of the
    // replies. Counters and replies are the fold of the received messages.
    ensures headline { IfOk result (Headline (R.bytes ring) (R.start ring) producer conductor) }

    // The counters, the replies and the values are handed on. The words of ids and of the heartbeat are those that were
    // drawn and stored.
    ensures hands_on { IfOk result (HandsOn (R.bytes ring) board values producer conductor) }
{
    if let Err(reason) = test_finish(&conductor, &producer) {
        return Err(FinishRefused {
            reason,
            ring,
            board,
            values,
            conductor,
            producer,
        });
    }
    let named = (Snapshot::of(&producer), Snapshot::of(&conductor));
    let Conductor {
        consumer,
        transmitter,
        counters,
        received,
    } = conductor;
    let rest = match ring.close(producer, consumer) {
        Ok(rest) => rest,
        Err(_refused) => unreachable!(),
    };
    let board = match board.close(transmitter) {
        Ok(board) => board,
        Err(_refused) => unreachable!(),
    };
    Ok(Finished {
        rest,
        board,
        values,
        counters,
        received,
        producer: named.0,
        conductor: named.1,
    })
}
