//! Rings of which producers are lost.
ghost use Rattle.ring_rings.specs.Seats.{IsProducerOf};

use crate::compare::{same, same_at};
use crate::rings::claims::claimed;
use crate::rings::forms::{OnEach, on_each, opened, read_nine};
use crate::rings::four::{Job, Tally, Written, run_four, split_in_four};
use crate::script::{BODY, Message, Script};
use ring_rings::{
    Bodies, Consumer, InSlots, InWords, Kind, ManyToOne, Positions, Producer, Rescued, Ring,
    Unsettled,
};
use ring_words::SoloRing;
use std::alloc::Global;
use std::process::Abort;
use std::thread::Threads;

/// The messages that were committed, in the order of their places.
static COMMITTED: [Message<'static>; 3] = [(1, b"first"), (2, b"second!!"), (3, b"third")];

/// Tests which messages the rest shows.
fn shows(rt: &impl Abort, rest: &mut SoloRing, messages: &[Message<'_>]) {
    let mut script = Script::new(&[], messages);
    let end = rest.read(9, &mut script);
    same(rt, end.messages as usize, messages.len());
    assert!(rt; script.is_done());
}

/// Writes a message into a ring that has room.
fn write<B: Bodies>(
    rt: &impl Abort,
    ring: &Ring<ManyToOne, B>,
    producer: &mut Producer,
    message: Message<'_>,
)
    requires { IsProducerOf ring.now producer.old }
    ensures { IsProducerOf ring.now producer.new }
{
    let written = ring.write_once(producer, message.0, message.1);
    same(rt, written, Ok(()));
}

/// Claims 12 bytes, puts 4 of them, and leaves the claim open.
fn leave_half<B: Bodies>(rt: &impl Abort, ring: &Ring<ManyToOne, B>, producer: &mut Producer)
    requires { IsProducerOf ring.now producer.old }
    ensures { IsProducerOf ring.now producer.new }
{
    let mut claim = ring.claim_once(producer, 7, 12).expect(rt, "a claim");
    let put = ring.put(producer, &mut claim, 0, b"half");
    same(rt, put.is_ok(), true);
    claim.leak();
}

/// Leaves a claim without a body open.
fn leave_open<B: Bodies>(rt: &impl Abort, ring: &Ring<ManyToOne, B>, producer: &mut Producer)
    requires { IsProducerOf ring.now producer.old }
    ensures { IsProducerOf ring.now producer.new }
{
    ring.claim_once(producer, 7, 0).expect(rt, "a claim").leak();
}

/// Both producers write, and the second one leaves a claim open between its messages and those of the first.
fn write_both<B: Bodies>(
    rt: &impl Abort,
    ring: &Ring<ManyToOne, B>,
    producer: &mut Producer,
    lost: &mut Producer,
)
    requires producers { IsProducerOf ring.now producer.old × IsProducerOf ring.now lost.old }
    ensures { IsProducerOf ring.now producer.new }
{
    write(rt, ring, producer, COMMITTED[0]);
    leave_half(rt, ring, lost);
    write(rt, ring, producer, COMMITTED[1]);
    write(rt, ring, lost, COMMITTED[2]);
}

/// Loses both producers, the second one with an open claim of 12 bytes of which 4 are put. With `left` the first one
/// stays, with an open claim of its own.
fn lose_two<B: Bodies>(rt: &impl Abort, alloc: Global, left: bool) -> Rescued {
    let (ring, mut producer, consumer) = opened::<ManyToOne, B>(rt, alloc, 0);
    let mut lost = ring.split(&mut producer).expect(rt, "a producer");
    write_both(rt, &ring, &mut producer, &mut lost);
    if left {
        leave_open(rt, &ring, &mut producer);
        ring.rescue_with(producer, consumer)
    } else {
        ring.rescue(consumer)
    }
}

/// Tests the words of the records, of which the second one has this header and this first word of its body.
fn holds_words(rt: &impl Abort, rest: &SoloRing, aborted: u64, half: u64) {
    let words = [
        0x0000_0001_0000_000D,
        0x0000_0074_7372_6966,
        aborted,
        half,
        0,
        0x0000_0002_0000_0010,
        0x2121_646E_6F63_6573,
        0x0000_0003_0000_000D,
        0x0000_0064_7269_6874,
    ];
    for (index, word) in words.iter().enumerate() {
        same_at(rt, index, rest.word(index), Some(*word));
    }
}

/// What of a ring with two lost producers does not depend on its form.
struct Found {
    /// With true the first producer stays.
    left: bool,
    /// The claims that were not settled.
    claims: u64,
    tail: u64,
    /// The word after the last message.
    after: u64,
}

static BOTH_LOST: Found = Found {
    left: false,
    claims: 1,
    tail: 72,
    after: 0,
};

/// The own open claim of the first producer is aborted too.
static ONE_LEFT: Found = Found {
    left: true,
    claims: 2,
    tail: 80,
    after: 0xFFFF_FFFF_0000_0008,
};

/// Tests what is rescued of a ring of this form.
fn rescues<B: Bodies>(rt: &impl Abort, alloc: Global, found: &Found, aborted: u64, half: u64) {
    let Rescued {
        mut rest,
        unsettled,
        ..
    } = lose_two::<B>(rt, alloc, found.left);
    let lost = (unsettled.claims, unsettled.silent);
    same(rt, lost, (found.claims, 0));
    let Positions { head, tail } = rest.positions();
    same(rt, (head, tail), (0, found.tail));
    same(rt, rest.word(9), Some(found.after));
    holds_words(rt, &rest, aborted, half);
    shows(rt, &mut rest, &COMMITTED);
}

// A mark shows how far an open claim's record goes, and not how long its body is.
#[test]
fn what_was_committed_is_rescued(rt: HostRuntime) {
    let (in_words, half) = (0xFFFF_FFFF_0000_0014, 0x666C_6168);
    rescues::<InWords>(&rt, rt.alloc(), &BOTH_LOST, in_words, half);
    rescues::<InSlots>(&rt, rt.alloc(), &BOTH_LOST, 0xFFFF_FFFF_0000_0018, 0);
}

#[test]
fn a_producer_that_is_left_changes_no_message(rt: HostRuntime) {
    let (in_words, half) = (0xFFFF_FFFF_0000_0014, 0x666C_6168);
    rescues::<InWords>(&rt, rt.alloc(), &ONE_LEFT, in_words, half);
    rescues::<InSlots>(&rt, rt.alloc(), &ONE_LEFT, 0xFFFF_FFFF_0000_0018, 0);
}

/// The one producer is lost with an open claim between two messages, of which the first one was read.
struct LosesTheOneProducer;

impl OnEach for LosesTheOneProducer {
    fn holds<K: Kind, B: Bodies>(rt: &impl Abort, alloc: Global) {
        let (ring, mut producer, mut consumer) = opened::<K, B>(rt, alloc, 0);
        let first = ring.try_write(&mut producer, 1, &BODY);
        same(rt, first, Ok(()));
        claimed(rt, &ring, &mut producer, 2, 8).leak();
        let last = ring.try_write(&mut producer, 3, &BODY);
        same(rt, last, Ok(()));
        let mut script = Script::new(&[], &[(1, &BODY)]);
        let read = read_nine(&ring, &mut consumer, &mut script);
        same(rt, read.messages, 1);
        assert!(rt; script.is_done());
        let Rescued {
            mut rest,
            unsettled,
            ..
        } = ring.rescue(consumer);
        same(rt, unsettled.claims, 1);
        same(rt, rest.positions(), Positions { head: 24, tail: 64 });
        shows(rt, &mut rest, &[(3, &BODY)]);
    }
}

#[test]
fn what_was_read_is_not_rescued_again(rt: HostRuntime) {
    on_each::<LosesTheOneProducer>(&rt, rt.alloc());
}

/// Tests that all messages that were written came, and that the claims that stayed open are counted.
fn all_came(rt: &impl Abort, seed: u64, tally: &Tally, all: [&Written; 4], unsettled: Unsettled) {
    let written = all.map(|lost| lost.count);
    let open = all.iter().filter(|lost| lost.open).count();
    same(rt, (seed, tally.counts()), (seed, written));
    same(rt, (seed, tally.is_right()), (seed, true));
    let lost = (unsettled.claims, unsettled.silent);
    same(rt, (seed, lost), (seed, (open as u64, 0)));
}

/// Loses four producers, which stop at random steps, rescues the ring, and tests that each committed message is shown once.
fn loses_no_message<R: Abort + Threads + Sync, B: Bodies + Sync>(rt: &R, alloc: Global, seed: u64) {
    let (ring, one, consumer) = Ring::<ManyToOne, B>::new(alloc, 4096).expect(rt, "a ring");
    let (first, last) = split_in_four(rt, &ring, one);
    let ((consumer, mut tally), ((a, b), (c, d))) = run_four(
        rt,
        &ring,
        first,
        last,
        consumer,
        Job::Stop(seed),
    );
    let Rescued {
        mut rest,
        unsettled,
        ..
    } = ring.rescue(consumer);
    let _end = rest.read(u32::MAX, &mut tally);
    same(rt, (seed, rest.drain()), (seed, 0));
    all_came(rt, seed, &tally, [&a, &b, &c, &d], unsettled);
}

#[test]
fn no_message_is_lost_with_four_producers(rt: HostRuntime) {
    for seed in 1..1_001 {
        loses_no_message::<HostRuntime, InWords>(&rt, rt.alloc(), seed);
        loses_no_message::<HostRuntime, InSlots>(&rt, rt.alloc(), seed);
    }
}
