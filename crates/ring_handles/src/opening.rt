//! What is made for handles: rings, broadcast buffers, counters, shared counters and conductors, each in a box.
ghost use Rattle.std.specs.Prelude.{◌≡◌, ◌≢◌, [], true, false, IfErr, IfOk, MatchResult};
ghost use Rattle.std.specs.declared.option.Option.TheVariants.{Some};
ghost use Rattle.ring_ends.specs.End.{AreOfOneRing};
ghost use Rattle.ring_handles.specs.Conducting.{conductor_code, IsConductorCode};
ghost use Rattle.ring_handles.specs.Opening.{HoldFirstAdder, HoldFresh, HoldFreshCounters, HoldNewBoard, IsMakeCode};
ghost use Rattle.ring_handles.specs.Opening.{HoldNewConductor, HoldPair, IsAdderCode, IsBoardCode, IsCountersCode};
ghost use Rattle.ring_handles.specs.Side.{consumer_in, numbered_in, IsOfKind, IsReaderOfKind};

use crate::adders::AdderSide;
use crate::boards::TransmitterSide;
use crate::code::{BAD_CAPACITY, BAD_COUNT, DONE, OUT_OF_MEMORY};
use crate::conductor::ConductorSide;
use crate::consumer::ConsumerSide;
use crate::counters::CountersSide;
use crate::held::Held;
use crate::identity::Identity;
use crate::producer::ProducerSide;
use crate::ring::{AnyConsumer, AnyProducer};
use ring_adders::SharedCounter;
use ring_ends::{ConductorEnd, ConductorFault, CountersEnd, NumberedEnd, Sizes, open};
use ring_rings::{InSlots, ManyToOne, OneToOne};
use std::alloc::Global;
use std::sync::Arc;

/// What two handles are filled with: a producer, and the consumer of its ring.
pub type Pair = (Box<Held>, Box<Held>);

/// Puts a value into a box. 3 if there is no memory.
fn boxed<T: Drop>(alloc: Global, held: T) -> Result<Box<T>, i32>
    ensures made { IfOk result (λ made. made.value ≡ held) }
    ensures refused { IfErr result (λ code. code ≡ OUT_OF_MEMORY) }
{
    match Box::new(alloc, held) {
        Ok(made) => Ok(made),
        Err(_) => Err(OUT_OF_MEMORY),
    }
}

/// Puts two values into boxes. 3 if there is no memory.
fn both_boxed<T: Drop>(alloc: Global, one: T, two: T) -> Result<(Box<T>, Box<T>), i32>
    ensures made { IfOk result (λ made. (made.0.value ≡ one) × (made.1.value ≡ two)) }
    ensures refused { IfErr result (λ code. code ≡ OUT_OF_MEMORY) }
{
    let one = boxed(alloc, one)?;
    let two = boxed(alloc, two)?;
    Ok((one, two))
}

/// Takes room for what a call makes. 3 if there is no memory.
pub fn room(alloc: Global) -> Result<Box<Held>, i32>
    ensures { IfErr result (λ code. code ≡ OUT_OF_MEMORY) }
{
    boxed(alloc, Held::Vacant)
}

/// Puts a new ring's producer and consumer into boxes, with its number. 3 if there is no memory.
fn box_both(
    alloc: Global,
    identity: Identity,
    producer: AnyProducer,
    consumer: AnyConsumer,
) -> Result<Pair, i32>
    requires kinds { IsOfKind producer × IsReaderOfKind consumer }
    requires ring { AreOfOneRing (consumer_in consumer) (numbered_in producer).end }
    requires none { (numbered_in producer).claims ≡ [] }
    ensures made { IfOk result (λ made. HoldPair (consumer_in consumer).many identity (consumer_in consumer).capacity
        (consumer_in consumer).start (numbered_in producer).end.view (consumer_in consumer).view
        (Some made.0.value) (Some made.1.value)) }
    ensures refused { IfErr result (λ code. code ≡ OUT_OF_MEMORY) }
{
    let one = Held::Producer(ProducerSide {
        end: producer,
        identity,
    });
    let two = Held::Consumer(ConsumerSide {
        end: consumer,
        identity,
        last: None,
    });
    both_boxed(alloc, one, two)
}

/// Makes a ring of many producers, with a producer that holds all shares, and its consumer.
///
/// The code of the library's refusal comes for a capacity or a start that no ring may have, and 3 if there is no
/// memory.
pub fn open_many_to_one(
    alloc: Global,
    identity: Identity,
    capacity: u32,
    start: u64,
) -> Result<Pair, i32>
    ensures made { IfOk result (λ made.
        HoldFresh true identity capacity start (Some made.0.value) (Some made.1.value)) }
    ensures code { MatchResult result (λ _. IsMakeCode capacity start DONE)
        (λ code. IsMakeCode capacity start code × (code ≢ DONE)) }
{
    let (producer, consumer) = match open::<ManyToOne, InSlots>(alloc, capacity, start) {
        Ok(made) => made,
        Err(fault) => return Err(fault.code()),
    };
    let producer = AnyProducer::Many(NumberedEnd::of(alloc, producer));
    box_both(alloc, identity, producer, AnyConsumer::Many(consumer))
}

/// Makes a ring of one producer, which holds all shares, with its consumer. It refuses as `open_many_to_one`.
pub fn open_one_to_one(
    alloc: Global,
    identity: Identity,
    capacity: u32,
    start: u64,
) -> Result<Pair, i32>
    ensures made { IfOk result (λ made.
        HoldFresh false identity capacity start (Some made.0.value) (Some made.1.value)) }
    ensures code { MatchResult result (λ _. IsMakeCode capacity start DONE)
        (λ code. IsMakeCode capacity start code × (code ≢ DONE)) }
{
    let (producer, consumer) = match open::<OneToOne, InSlots>(alloc, capacity, start) {
        Ok(made) => made,
        Err(fault) => return Err(fault.code()),
    };
    let producer = AnyProducer::One(NumberedEnd::of(alloc, producer));
    box_both(alloc, identity, producer, AnyConsumer::One(consumer))
}

/// Makes a broadcast buffer, with a transmitter that holds all shares. The errors are those of `open_many_to_one`.
pub fn open_board(
    alloc: Global,
    identity: Identity,
    capacity: u32,
    start: u64,
) -> Result<Box<Held>, i32>
    ensures made { IfOk result (λ made. HoldNewBoard identity capacity start (Some made.value)) }
    ensures code { MatchResult result (λ _. IsBoardCode capacity start DONE)
        (λ code. IsBoardCode capacity start code × (code ≢ DONE)) }
{
    match ring_ends::open_board(alloc, capacity, start) {
        Ok(end) => boxed(alloc, Held::Transmitter(TransmitterSide { end, identity })),
        Err(fault) => Err(fault.code()),
    }
}

/// Makes this many counters, of which none is used, with all shares of their values. Their ids are used again
/// `reuse_ms` milliseconds after they were freed.
///
/// The code of the library's refusal comes for a number that no counters may have, and 3 if there is no memory.
pub fn open_counters(
    alloc: Global,
    identity: Identity,
    count: u32,
    reuse_ms: u32,
) -> Result<Box<Held>, i32>
    ensures made { IfOk result (λ made. HoldFreshCounters identity count reuse_ms (Some made.value)) }
    ensures code { MatchResult result (λ _. IsCountersCode count DONE)
        (λ code. IsCountersCode count code × (code ≢ DONE)) }
{
    match CountersEnd::new(alloc, count, reuse_ms) {
        Ok(end) => boxed(alloc, Held::Counters(CountersSide { end, identity })),
        Err(fault) => Err(fault.code()),
    }
}

/// Makes a shared counter of value 0, with an adder that holds all shares. 3 if there is no memory.
pub fn open_adder(alloc: Global, identity: Identity) -> Result<Box<Held>, i32>
    ensures made { IfOk result (λ made. HoldFirstAdder identity (Some made.value)) }
    ensures code { MatchResult result (λ _. IsAdderCode DONE) (λ code. IsAdderCode code × (code ≢ DONE)) }
{
    let Ok((counter, adder)) = SharedCounter::new(alloc) else {
        return Err(OUT_OF_MEMORY);
    };
    let Ok(counter) = Arc::new(alloc, counter) else {
        return Err(OUT_OF_MEMORY);
    };
    boxed(
        alloc,
        Held::Adder(AdderSide {
            counter,
            identity,
            adder,
        }),
    )
}

/// The number of why no conductor was made.
fn conductor_code(fault: ConductorFault) -> i32
    ensures { result ≡ conductor_code fault }
{
    match fault {
        ConductorFault::BadCapacity => BAD_CAPACITY,
        ConductorFault::BadCount => BAD_COUNT,
        ConductorFault::OutOfMemory => OUT_OF_MEMORY,
    }
}

/// Makes a conductor of these sizes, to which nothing was sent.
///
/// The first refusal comes of ring, broadcast buffer and counters, and 3 if there is no memory.
pub fn open_conductor(alloc: Global, identity: Identity, sizes: Sizes) -> Result<Box<Held>, i32>
    ensures made { IfOk result (λ made.
        HoldNewConductor identity sizes.capacity sizes.replies sizes.counters sizes.reuse_ms (Some made.value)) }
    ensures code { MatchResult result (λ _. IsConductorCode sizes.capacity sizes.replies sizes.counters DONE)
        (λ code. IsConductorCode sizes.capacity sizes.replies sizes.counters code × (code ≢ DONE)) }
{
    match ConductorEnd::new(alloc, sizes) {
        Ok(end) => boxed(alloc, Held::Conductor(ConductorSide { end, identity })),
        Err(fault) => Err(conductor_code(fault)),
    }
}
