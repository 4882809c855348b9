//! When a conductor finishes, and what it hands out.
ghost use Rattle.std.specs.Prelude.{◌≡◌};
ghost use Rattle.ring_rings.specs.Seats.{IsConsumerOf, IsProducerOf};
ghost use Rattle.ring_service.specs.Conducting.{IsConductorOf};

use crate::compare::same;
use crate::conductor::bench::Bench;
use crate::conductor::sending::work;
use ring_board::Board;
use ring_counters::CounterValues;
use ring_rings::{Bodies, InSlots, InWords, ManyToOne, Producer, Ring};
use ring_service::{Conductor, FinishFault, FinishRefused, WorkStop, finish};
use std::alloc::Global;
use std::process::Abort;

/// All of a conductor that does not finish yet, for this reason.
fn refused<B: Bodies>(
    rt: &impl Abort,
    ring: Ring<ManyToOne, B>,
    board: Board,
    values: CounterValues,
    conductor: Conductor,
    producer: Producer,
    reason: FinishFault,
) -> FinishRefused<Ring<ManyToOne, B>>
    requires conductor { IsConductorOf IsConsumerOf ring board values conductor }
    requires producer { IsProducerOf ring producer }
    ensures ring { result.ring ≡ ring }
    ensures conductor { IsConductorOf IsConsumerOf result.ring result.board result.values result.conductor }
    ensures producer { result.producer ≡ producer }
{
    let back = finish(ring, board, values, conductor, producer)
        .err()
        .expect(rt, "a refusal");
    same(rt, back.reason, reason);
    back
}

/// Finishes after a message that is no command was received.
fn finishes<B: Bodies>(rt: &impl Abort, back: FinishRefused<Ring<ManyToOne, B>>)
    requires conductor { IsConductorOf IsConsumerOf back.ring back.board back.values back.conductor }
    requires producer { IsProducerOf back.ring back.producer }
{
    let mut back = back;
    let one = back
        .conductor
        .do_work(&back.ring, &back.board, &back.values, 0, 9);
    same(rt, one, work(1, WorkStop::Unpublished));
    let finished = finish(
        back.ring,
        back.board,
        back.values,
        back.conductor,
        back.producer,
    )
    .ok()
    .expect(rt, "an end");
    same(rt, (finished.received, finished.board.tail()), (1, 24));
}

/// Does not finish before the other producer is back, which writes a message that is no command.
fn finishes_with_both<B: Bodies>(
    rt: &impl Abort,
    back: FinishRefused<Ring<ManyToOne, B>>,
    mut other: Producer,
)
    requires conductor { IsConductorOf IsConsumerOf back.ring back.board back.values back.conductor }
    requires producer { IsProducerOf back.ring back.producer }
    requires other { IsProducerOf back.ring other }
{
    let out = FinishFault::ProducersOut { shares: 1 };
    let mut back = refused(
        rt,
        back.ring,
        back.board,
        back.values,
        back.conductor,
        back.producer,
        out,
    );
    same(rt, back.ring.write_once(&mut other, 2, &[]), Ok(()));
    back.ring.join(&mut back.producer, other);
    finishes(rt, back);
}

/// Open claims are reported before producers that are out, and the conductor works on after it did not finish.
fn finishes_last<B: Bodies>(rt: &impl Abort, alloc: Global) {
    let Bench {
        ring,
        board,
        values,
        mut conductor,
        mut producer,
        listener,
    } = Bench::<ManyToOne, B>::new(rt, alloc, 4);
    conductor.join_receiver(&board, listener);
    let other = ring.split(&mut producer).expect(rt, "a producer");
    let claim = ring.claim_once(&mut producer, 2, 12).expect(rt, "a claim");
    let open = FinishFault::ClaimsOpen { claims: 1 };
    let mut back = refused(rt, ring, board, values, conductor, producer, open);
    back.ring.abort(&mut back.producer, claim);
    finishes_with_both(rt, back, other);
}

#[test]
fn finishes_once_claims_are_settled_and_producers_back(rt: HostRuntime) {
    finishes_last::<InWords>(&rt, rt.alloc());
    finishes_last::<InSlots>(&rt, rt.alloc());
}
