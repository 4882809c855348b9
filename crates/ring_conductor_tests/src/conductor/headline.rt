//! What `finish` states, of a ring whose bodies lie in slots.
ghost use Rattle.std.specs.Prelude.{IfErr, IfOk};
ghost use Rattle.ring_rings.specs.Closing.{IsRefusedAs};
ghost use Rattle.ring_rings.specs.Seats.{capacity_of, start_of, IsConsumerOf, IsProducerOf};
ghost use Rattle.ring_service.specs.Conducting.{IsConductorOf};
ghost use Rattle.ring_service.specs.Finishing.{ComesBack, HandsOn, Headline, handed_back, refusal_to};

use crate::compare::same;
use crate::conductor::bench::Bench;
use crate::conductor::sending::work;
use ring_board::Board;
use ring_counters::CounterValues;
use ring_rings::{InSlots, ManyToOne, Producer, Ring};
use ring_service::{Command, Conductor, FinishRefused, Finished, WorkStop, finish};

/// Finishes over a ring whose bodies lie in slots, with the clauses of `finish`.
fn finish_over_slots(
    ring: Ring<ManyToOne, InSlots>,
    board: Board,
    values: CounterValues,
    conductor: Conductor,
    producer: Producer,
) -> Result<Finished, FinishRefused<Ring<ManyToOne, InSlots>>>
    requires conductor { IsConductorOf IsConsumerOf ring board values conductor }
    requires producer { IsProducerOf ring producer }
    ensures refused { IsRefusedAs (handed_back ring board values conductor producer)
        (refusal_to conductor producer) result }
    ensures back { IfErr result (ComesBack IsConsumerOf IsProducerOf ring board values conductor producer) }
    ensures headline { IfOk result (Headline (capacity_of ring) (start_of ring) producer conductor) }
    ensures hands_on { IfOk result (HandsOn (capacity_of ring) board values producer conductor) }
{
    finish(ring, board, values, conductor, producer)
}

/// The same without its clauses, which a test does not need.
fn finished_over_slots(
    ring: Ring<ManyToOne, InSlots>,
    board: Board,
    values: CounterValues,
    conductor: Conductor,
    producer: Producer,
) -> Option<Finished>
    requires conductor { IsConductorOf IsConsumerOf ring board values conductor }
    requires producer { IsProducerOf ring producer }
{
    finish_over_slots(ring, board, values, conductor, producer).ok()
}

static COMMAND: Command<'static> = Command::Allocate {
    correlation: 0,
    type_id: 5,
    key: &[],
    label: &[],
};

#[test]
fn the_headline_holds_of_bodies_in_slots(rt: HostRuntime) {
    let mut bench = Bench::<ManyToOne, InSlots>::new(&rt, rt.alloc(), 4);
    assert!(rt; bench.send(&[COMMAND]));
    let Bench {
        ring,
        board,
        values,
        mut conductor,
        producer,
        listener,
    } = bench;
    let one = conductor.do_work(&ring, &board, &values, 0, 9);
    same(&rt, one, work(1, WorkStop::Unpublished));
    conductor.join_receiver(&board, listener);
    let finished = finished_over_slots(ring, board, values, conductor, producer).expect(
        &rt, "an end",
    );
    same(&rt, (finished.received, finished.board.tail()), (1, 24));
}
