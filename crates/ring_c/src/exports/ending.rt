//! Rings and broadcast buffers that end, and what broadcast buffers and counters take back.
// Written by c/bindings from felter.h and exports.txt. To change this file, change them and run c/bindings.
ghost use Rattle.ring_c.specs.Told.{EndsAs, JoinsInto, WhereBoth};
ghost use Rattle.ring_handles.specs.Finishing.{Finishes, IsNotLast, IsUnfinished, TakesLast};
ghost use Rattle.ring_handles.specs.Kinds.{a_consumer, a_producer, a_raw_receiver, a_reader, a_receiver, a_transmitter};
ghost use Rattle.ring_handles.specs.{Kinds.some_counters, Side.IsOfThisRing};
ghost use Rattle.ring_handles.specs.Returning.{BoardEndsAt, IsAstray, IsAtBoard, IsBoardKept, IsOfOthers, IsOfThese};
ghost use Rattle.ring_handles.specs.Returning.{IsOfThisBoard, IsRawAstray, TakesListener, TakesLoads, TakesWatcher};

use crate::work_on::{end_with, join_into};
use ring_handles::Handle;
use std::alloc::Global;

/// Closes a ring of either kind, and empties the handle of its last producer. Nothing can be written afterwards. The
/// messages in the ring can still be read. Before this call, all other producers must have been joined by felter_join,
/// or freed. Codes, in this order:
/// - FELTER_OTHER_RING, also if the ring was closed before;
/// - FELTER_CLAIMS_OPEN;
/// - FELTER_PRODUCERS_OUT if another producer is still in a handle.
#[unsafe(no_mangle)]
pub extern "C" fn felter_close(alloc: Global, consumer: &mut Handle, producer: &mut Handle) -> i32
    requires { WhereBoth a_consumer a_producer IsOfThisRing consumer.old.held producer.old.held }
    ensures { JoinsInto a_consumer a_producer TakesLast IsNotLast consumer.old.held producer.old.held consumer.new.held
        producer.new.held result }
{
    join_into!(consumer, producer, alloc, Consumer(side), Producer(joining) => side.close(joining))
}

/// Ends a ring that was closed, or whose producers were all freed, and empties the consumer's handle. Writes how many
/// committed messages were left unread. These messages are lost. Codes:
/// - FELTER_PRODUCERS_OUT if the ring was not closed, and a producer is still in a handle;
/// - FELTER_IN_USE if the ring was closed, and another handle of the ring still exists. This code does not occur if
///   rule 1 was kept.
#[unsafe(no_mangle)]
pub extern "C" fn felter_finish(alloc: Global, consumer: &mut Handle, left: &mut u64) -> i32
    ensures { EndsAs a_consumer Finishes IsUnfinished left.old left.new consumer.old.held consumer.new.held result }
{
    end_with!(consumer, alloc, Consumer(side) => side.finish(), count => *left = count)
}

/// Takes back a receiver of this board with its share, and empties the receiver's handle. Codes: FELTER_OTHER_RING if
/// the receiver is of another board, or if felter_conductor_subscribe made it.
#[unsafe(no_mangle)]
pub extern "C" fn felter_board_join(
    alloc: Global,
    transmitter: &mut Handle,
    receiver: &mut Handle,
) -> i32
    requires { WhereBoth a_transmitter a_receiver IsOfThisBoard transmitter.old.held receiver.old.held }
    ensures { JoinsInto a_transmitter a_receiver TakesListener IsAstray transmitter.old.held receiver.old.held
        transmitter.new.held receiver.new.held result }
{
    join_into!(transmitter, receiver, alloc, Transmitter(side), Receiver(joining) => side.join(joining))
}

/// Takes back a raw receiver of this board with its share, and empties the raw receiver's handle. Codes:
/// FELTER_OTHER_RING if the raw receiver is of another board.
#[unsafe(no_mangle)]
pub extern "C" fn felter_board_join_raw(
    alloc: Global,
    transmitter: &mut Handle,
    receiver: &mut Handle,
) -> i32
    requires { WhereBoth a_transmitter a_raw_receiver IsAtBoard transmitter.old.held receiver.old.held }
    ensures { JoinsInto a_transmitter a_raw_receiver TakesWatcher IsRawAstray transmitter.old.held receiver.old.held
        transmitter.new.held receiver.new.held result }
{
    join_into!(transmitter, receiver, alloc, Transmitter(side), RawReceiver(joining) => side.join_raw(joining))
}

/// Ends a board whose receivers of both kinds were all taken back or freed, and empties the transmitter's handle.
/// Writes the tail, which is the position at which the last transmission ended. Codes:
/// - FELTER_RECEIVERS_OUT if a receiver is still in a handle;
/// - FELTER_IN_USE if all receivers were taken back, and another handle of the board still exists. This code does not
///   occur if rule 1 was kept.
#[unsafe(no_mangle)]
pub extern "C" fn felter_board_close(alloc: Global, transmitter: &mut Handle, tail: &mut u64) -> i32
    ensures { EndsAs a_transmitter BoardEndsAt IsBoardKept tail.old tail.new transmitter.old.held transmitter.new.held
        result }
{
    end_with!(transmitter, alloc, Transmitter(side) => side.close(), end => *tail = end)
}

/// Takes back a reader of these counters with its share, and empties the reader's handle. Codes: FELTER_OTHER_RING if
/// the reader is of other counters, or if felter_conductor_reader made it.
#[unsafe(no_mangle)]
pub extern "C" fn felter_counters_join(
    alloc: Global,
    counters: &mut Handle,
    reader: &mut Handle,
) -> i32
    requires { WhereBoth some_counters a_reader IsOfThese counters.old.held reader.old.held }
    ensures { JoinsInto some_counters a_reader TakesLoads IsOfOthers counters.old.held reader.old.held counters.new.held
        reader.new.held result }
{
    join_into!(counters, reader, alloc, Counters(side), Reader(joining) => side.join(joining))
}
