//! The call that closes a ring.
ghost use Rattle.std.specs.Prelude.{◌≡◌, vec_len, IfOk, OnOk};
ghost use Rattle.ring_layout.specs.Refusals.{all_shares};
ghost use Rattle.ring_table.specs.Closed.{IsClosed, IsLast, LeavesRest};
ghost use Rattle.ring_rings.specs.Closing.{close_refusal_of, kept_open, HandsOut, IsRefusedAs, Serves};
ghost use Rattle.ring_rings.specs.{Ring.received, Ring.sent, Ring.IsWhole, Seats.IsConsumerOf, Seats.IsProducerOf};
ghost use Rattle.ring_rings.specs.Seats.{capacity_of, consumer_view, open_claims_of, shares_of, start_of, view_of};

use crate::bodies::Bodies;
use crate::fault::CloseFault;
use crate::ring::{CloseRefused, Consumer, Producer, Ring};
use ring_layout::ALL_SHARES;
use ring_table::{RingSeat, RingTable, join_consumer};
use ring_words::SoloRing;

/// Tests whether a ring may be closed by this producer.
fn test_close(producer: &Producer) -> Result<(), CloseFault>
    ensures refused { IsRefusedAs (λ fault. fault)
        (close_refusal_of (open_claims_of producer.now) (shares_of producer.now)) result }
    ensures ok { OnOk result ((open_claims_of producer.now ≡ 0) × (shares_of producer.now ≡ all_shares)) }
{
    if producer.open_claims > 0 {
        return Err(CloseFault::ClaimsOpen {
            claims: producer.open_claims,
        });
    }
    if producer.shares != ALL_SHARES {
        return Err(CloseFault::ProducersOut {
            shares: ALL_SHARES - producer.shares,
        });
    }
    Ok(())
}

/// Writes the words of a ring into `room`, in the ring's format, by its last seat, and returns them.
fn take_words<B: Bodies>(table: RingTable<B>, seat: RingSeat, room: Vec<u64>) -> Vec<u64>
    requires table { (seat.table_id ≡ table.shared.table_id)
        × (table.shared.table_id.slots ≡ B.slots_for table.shared.key.capacity) }
    requires room { vec_len room ≡ table.shared.table_id.words }
    requires last { IsLast seat.me.0 }
    ensures closed { IsClosed table.shared.key.capacity table.shared.key.start result.items seat.me.0 }
    ensures rest { LeavesRest table.shared.key.capacity result.items seat.me.0 }
{
    B::show(table.close_with(seat), room)
}

impl<K, B: Bodies> Ring<K, B> {
    /// Takes the ring apart, and returns what is in it as a ring of one owner. These are the messages that were
    /// committed and not read, and the words of the trailer. Returns `ClaimsOpen` if claims of this producer are open.
    /// Otherwise returns `ProducersOut` if other producers have shares. After an error all arguments come back
    /// unchanged.
    pub fn close(
        self,
        producer: Producer,
        consumer: Consumer,
    ) -> Result<SoloRing, CloseRefused<Self>>
        requires producer { IsProducerOf self producer }
        requires consumer { IsConsumerOf self consumer }
        ensures refused { IsRefusedAs (kept_open self producer consumer)
            (close_refusal_of (open_claims_of producer) (shares_of producer)) result }
        ensures whole { IfOk result (IsWhole (sent producer) (received consumer)) }
        ensures rest { IfOk result
            (HandsOut (capacity_of self) (start_of self) (view_of producer) (consumer_view consumer)) }
        ensures service { IfOk result (Serves (capacity_of self) (view_of producer) (consumer_view consumer)) }
    {
        match test_close(&producer) {
            Ok(()) => {}
            Err(reason) => {
                return Err(CloseRefused {
                    reason,
                    ring: self,
                    producer,
                    consumer,
                });
            }
        }
        let Producer {
            mut seat,
            shares: _,
            open_claims: _,
            own_tail: _,
        } = producer;
        let Consumer {
            seat: reader,
            head: _,
            run: _,
            scratch,
        } = consumer;
        let Ring {
            table,
            room,
            capacity,
            kind: _,
        } = self;
        join_consumer(&table.shared, &mut seat, reader);
        let words = take_words(table, seat, room);
        Ok(SoloRing::from_words(capacity, words, scratch))
    }
}
