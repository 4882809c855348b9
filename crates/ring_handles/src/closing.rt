//! How a ring that is no conductor's ends, also if producers are lost.
ghost use Rattle.std.specs.Prelude.{◌≡◌, IfErr, IfOk, MatchOption, MatchResult, None, OnOk};
ghost use Rattle.ring_table.specs.{OpenClaims.open_count, Views.with_consumer_of};
ghost use Rattle.ring_rings.specs.{Closing.close_code, Closing.IsRefusedAs, Seats.IsConsumerOf, Seats.IsProducerOf};
ghost use Rattle.ring_rings.specs.Seats.{capacity_of, claims_of, consumer_view, start_of, view_of};
ghost use Rattle.ring_handles.specs.Finishing.{Finishes, IsNotLast, IsUnfinished, LeavesCommitted, LeavesUnread};
ghost use Rattle.ring_handles.specs.{Finishing.TakesLast, Side.close_refusal, Side.IsOfThisRing};

use crate::code::{CLAIMS_OPEN, IN_USE, OTHER_RING, PRODUCERS_OUT};
use crate::consumer::ConsumerSide;
use crate::producer::ProducerSide;
use crate::ring::{AnyConsumer, on_end};
use ring_layout::ALL_SHARES;
use ring_rings::{Consumer, PlainRing, Producer};

/// Tests whether a producer has all shares and no open claim.
fn test_last(producer: &Producer) -> Result<(), i32>
    ensures { IsRefusedAs close_code (close_refusal (view_of producer.now)) result }
{
    if producer.open_claims() > 0 {
        return Err(CLAIMS_OPEN);
    }
    if producer.shares() != ALL_SHARES {
        return Err(PRODUCERS_OUT);
    }
    Ok(())
}

/// Tests whether a consumer can take this producer in: it has no open claim, and no other producer is in a handle. The
/// others were freed if the ring has two owners, which are these.
fn test_close(side: &ProducerSide) -> Result<(), i32>
    ensures { MatchResult result (λ _. open_count side.now.view.producer.claims ≡ 0)
        (λ code. MatchOption (close_refusal side.now.view) ⊥ (λ fault. code ≡ close_code fault)) }
{
    if on_end!(&side.end, end => end.open_claims()) > 0 {
        return Err(CLAIMS_OPEN);
    }
    let owners = on_end!(&side.end, end => end.owners());
    if on_end!(&side.end, end => end.shares()) != ALL_SHARES && owners > 2 {
        return Err(PRODUCERS_OUT);
    }
    Ok(())
}

/// Takes a ring apart of which this producer has all shares and no open claim, and returns the number of messages that
/// were still in it.
fn end<K>(ring: PlainRing<K>, producer: Producer, consumer: Consumer) -> u64
    requires producer { IsProducerOf ring producer }
    requires consumer { IsConsumerOf ring consumer }
    requires ready { close_refusal (view_of producer) ≡ None }
    ensures left { LeavesUnread (capacity_of ring) (start_of ring) (claims_of producer)
        (consumer_view consumer).consumer.taken result }
{
    let mut rest = match ring.close(producer, consumer) {
        Ok(rest) => rest,
        Err(_refused) => unreachable!(),
    };
    u64::from(rest.drain())
}

/// Takes a ring apart whose producers are all lost, and returns the number of committed messages that were still in it.
fn end_without<K>(ring: PlainRing<K>, consumer: Consumer) -> u64
    requires consumer { IsConsumerOf ring consumer }
    ensures left { LeavesCommitted (capacity_of ring) (start_of ring) (consumer_view consumer) result }
{
    let mut rescued = ring.rescue(consumer);
    u64::from(rescued.rest.drain())
}

/// The same if this producer is left.
fn end_with<K>(ring: PlainRing<K>, producer: Producer, consumer: Consumer) -> u64
    requires producer { IsProducerOf ring producer }
    requires consumer { IsConsumerOf ring consumer }
    ensures left { LeavesCommitted (capacity_of ring) (start_of ring)
        (with_consumer_of (view_of producer) (consumer_view consumer)) result }
{
    let mut rescued = ring.rescue_with(producer, consumer);
    u64::from(rescued.rest.drain())
}

/// Takes a ring apart that no handle has any more, and returns the number of messages that were still in it.
fn conclude<K>(ring: PlainRing<K>, last: Option<Producer>, consumer: Consumer) -> u64
    requires last { MatchOption last (Unit {0}) (λ p. IsProducerOf ring p) }
    requires consumer { IsConsumerOf ring consumer }
    ensures left { MatchOption last
        (LeavesCommitted (capacity_of ring) (start_of ring) (consumer_view consumer) result)
        (λ p. MatchOption (close_refusal (view_of p))
        (LeavesUnread (capacity_of ring) (start_of ring) (claims_of p) (consumer_view consumer).consumer.taken result)
        (λ _. LeavesCommitted (capacity_of ring) (start_of ring)
        (with_consumer_of (view_of p) (consumer_view consumer)) result)) }
{
    let Some(producer) = last else {
        return end_without(ring, consumer);
    };
    match test_last(&producer) {
        Ok(()) => end(ring, producer, consumer),
        Err(_) => end_with(ring, producer, consumer),
    }
}

impl ConsumerSide {
    /// Takes a producer of the ring in, if it has no open claim and no other one is in a handle. Otherwise it comes back.
    pub fn close(&mut self, producer: ProducerSide) -> Result<(), (i32, ProducerSide)>
        requires { IsOfThisRing self.old producer }
        ensures closed { OnOk result (TakesLast self.old producer self.new) }
        ensures refused { IfErr result (λ r. (self.new ≡ self.old) × (r.1 ≡ producer)
            × IsNotLast self.old producer r.0) }
    {
        if self.last.is_some()
            || !self.end.is_like(&producer)
            || !self.identity.is(producer.identity)
        {
            return Err((OTHER_RING, producer));
        }
        if let Err(code) = test_close(&producer) {
            return Err((code, producer));
        }
        let ProducerSide { end, identity: _ } = producer;
        self.last = Some(on_end!(end, end => end.into_producer()));
        Ok(())
    }

    /// Takes the ring apart if no other handle has it, and returns the number of messages that were still in it.
    /// Producers that were freed are not missed. Otherwise the consumer comes back.
    pub fn finish(self) -> Result<u64, (i32, ConsumerSide)>
        ensures finished { IfOk result (Finishes self) }
        ensures refused { IfErr result (λ r. (r.1 ≡ self) × IsUnfinished self r.0) }
    {
        let ConsumerSide {
            end,
            identity,
            last,
        } = self;
        let end = match end {
            AnyConsumer::Many(end) => match end.into_ring() {
                Ok((ring, consumer)) => return Ok(conclude(ring, last, consumer)),
                Err(end) => AnyConsumer::Many(end),
            },
            AnyConsumer::One(end) => match end.into_ring() {
                Ok((ring, consumer)) => return Ok(conclude(ring, last, consumer)),
                Err(end) => AnyConsumer::One(end),
            },
        };
        let code = if last.is_some() {
            IN_USE
        } else {
            PRODUCERS_OUT
        };
        let kept = ConsumerSide {
            end,
            identity,
            last,
        };
        Err((code, kept))
    }
}
