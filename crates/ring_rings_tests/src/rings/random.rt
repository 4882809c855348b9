//! The same random calls on rings with bodies in words and with bodies in slots.
use crate::calls::Plays;
use crate::compare::same;
use crate::play::call::{Call, Said};
use crate::play::shared::{SharedBench, Shows};
use crate::play::team::Team;
use crate::rings::dice::Dice;
use ring_rings::{Action, Bodies, Handler, InSlots, InWords, ManyToOne, OneToOne};
use ring_words::SoloRing;
use std::alloc::Global;
use std::process::Abort;

/// The calls on each ring.
const CALLS: u32 = 5_000;

/// A capacity, the position at which the ring begins, and what the numbers begin with.
type Case = (u32, u64, u64);

/// What a call answers, and a sum of all that the handler was shown up to then.
type Answer = (Said, u64);

/// Sums up what it is shown, and answers at random. It needs no bytes of messages of some lengths.
#[derive(Drop)]
struct Summer {
    dice: Dice,
    sum: u64,
}

impl Summer {
    fn add(&mut self, number: u64) {
        self.sum = (self.sum ^ number).wrapping_mul(0x100_0000_01B3);
    }

    fn add_header(&mut self, type_id: i32, len: usize) {
        self.add(u64::from(type_id.unsigned_abs()));
        self.add(len as u64);
    }

    fn answer(&mut self) -> Action {
        match self.dice.below(8) {
            0 => Action::Abort,
            1 => Action::Break,
            2 | 3 => Action::Commit,
            _ => Action::Continue,
        }
    }
}

impl Handler for Summer {
    ghost step = { λ s m t action. Unit {0} };

    fn on_message(&mut self, type_id: i32, body: &[u8]) -> Action {
        self.add_header(type_id, body.len());
        for byte in body {
            self.add(u64::from(*byte));
        }
        self.answer()
    }

    fn on_header(&mut self, type_id: i32, len: usize) -> Option<Action> {
        if len % 4 != 3 {
            return None;
        }
        self.add_header(type_id, len);
        Some(self.answer())
    }
}

impl Shows for Summer {
    fn shown(&self) -> u64 {
        self.sum
    }
}

/// The first bytes.
fn front(bytes: &[u8], len: usize) -> &[u8] {
    &bytes[..len.min(bytes.len())]
}

/// A random call that has neither bytes nor a length.
fn call_of(dice: &mut Dice) -> Call<'static> {
    let limit = dice.below(9);
    let how = dice.below(4);
    match (dice.below(11), how) {
        (0 | 1, 0 | 1) => Call::Commit,
        (0 | 1, _) => Call::Abort,
        (2 | 3, _) => Call::Turn,
        (4..=7, 0) => Call::Read(limit),
        (4..=7, 1) => Call::ReadAcross(limit),
        (4..=7, _) => Call::ControlledRead(limit),
        (8, 0) => Call::Positions,
        (8, 1) => Call::CorrelationId,
        (8, 2) => Call::Heartbeat,
        (8, _) => Call::Holds,
        (9, _) => Call::SetHeartbeat(dice.roll()),
        (_, 0) => Call::Join,
        _ => Call::Swap,
    }
}

/// Makes a random call. The longest message has this many bytes, and a few calls ask for more.
fn made<K: Team, B: Bodies>(
    bench: &mut SharedBench<K, B, Summer>,
    dice: &mut Dice,
    longest: u32,
) -> Said {
    let len = dice.below(longest.saturating_add(3)) as usize;
    match dice.below(19) {
        0..=3 => bench.call(Call::Write(dice.type_id(), front(&dice.bytes(), len))),
        4 | 5 => bench.call(Call::Claim(dice.type_id(), len)),
        6 | 7 => {
            let offset = dice.below(longest.saturating_add(3)) as usize / 2;
            bench.call(Call::Put(offset, front(&dice.bytes(), len / 2)))
        }
        _ => bench.call(call_of(dice)),
    }
}

/// The calls that settle all claims.
const LAST: [Call<'static>; 5] = [
    Call::Join,
    Call::Commit,
    Call::Commit,
    Call::Turn,
    Call::Commit,
];

/// What is answered, and what is left.
fn played<K: Team, B: Bodies>(
    rt: &impl Abort,
    alloc: Global,
    case: Case,
) -> (Vec<Answer>, SoloRing) {
    let (capacity, start, seed) = case;
    let summer = Summer {
        dice: Dice(seed),
        sum: 0,
    };
    let mut bench = SharedBench::<K, B, Summer>::new(rt, alloc, capacity, start, summer);
    let mut dice = Dice(seed);
    let mut answers = Vec::new(alloc);
    for _ in 0..CALLS {
        let said = made(&mut bench, &mut dice, capacity / 8);
        answers
            .push((said, bench.handler.shown()))
            .expect(rt, "memory");
    }
    for call in LAST {
        let _said = bench.call(call);
    }
    let (rest, _summer) = bench.close();
    (answers, rest.expect(rt, "a closed ring"))
}

/// How many calls found what they were made on.
fn count_made(answers: &[Answer]) -> usize {
    answers
        .iter()
        .filter(|(said, _sum)| *said != Said::Missing)
        .count()
}

fn are_alike(rt: &impl Abort, case: Case, in_words: &[Answer], in_slots: &[Answer]) {
    for (at, (one, other)) in in_words.iter().zip(in_slots.iter()).enumerate() {
        same(rt, (case, at, one), (case, at, other));
    }
}

fn lie_alike(rt: &impl Abort, case: Case, words: &SoloRing, slots: &SoloRing) {
    for index in 0..256 {
        let (one, other) = (words.word(index), slots.word(index));
        same(rt, (case, index, one), (case, index, other));
    }
}

/// Tests whether both forms answer the same to calls that go far, and leave the same words.
fn compare<K: Team>(rt: &impl Abort, alloc: Global, case: Case) {
    let (in_words, words) = played::<K, InWords>(rt, alloc, case);
    let (in_slots, slots) = played::<K, InSlots>(rt, alloc, case);
    same(rt, (case, in_words.len()), (case, in_slots.len()));
    let calls_made = count_made(&in_words) as u64 > u64::from(CALLS) / 2;
    let goes_far = words.positions().tail.saturating_sub(case.1) > 8_000;
    same(rt, (case, calls_made, goes_far), (case, true, true));
    are_alike(rt, case, &in_words, &in_slots);
    lie_alike(rt, case, &words, &slots);
}

/// Rings that go around many times, and one that comes to the last position.
#[test]
fn both_forms_answer_alike_and_leave_the_same_words(rt: HostRuntime) {
    for case in [
        (128, 0, 1),
        (128, 4_611_686_018_427_379_712, 2),
        (256, 1_792, 3),
        (512, 512, 4),
        (1_024, 0, 5),
    ] {
        compare::<OneToOne>(&rt, rt.alloc(), case);
        compare::<ManyToOne>(&rt, rt.alloc(), case);
    }
}
