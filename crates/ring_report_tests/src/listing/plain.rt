//! Plain rings, whose words have marks and whose slots have headers and bodies.
use crate::compare::same;
use crate::listing::joined::{ABORTED, BAD, COMMITTED, HEAD, OPEN, OPENED, join};
use crate::listing::random::Numbers;
use crate::words::copy;
use ring_layout::is_capacity;
use ring_snapshot::{Record, RecordState, RingSnapshot, header_at};
use ring_words::{Action, Handler, SoloRing};
use std::process::Abort;

/// The header at the position 128 of a plain ring, at which the word and the slot are these.
fn header_of(rt: &impl Abort, word: u64, slot: u64) -> u64 {
    assert!(rt; is_capacity(128));
    let (mut words, mut slots) = ([0u64; 112], [0u64; 16]);
    words[0] = word;
    slots[0] = slot;
    header_at(&words, &slots, 128, 128)
}

/// A word and a slot, and the header that they show.
static HEADERS: [(u64, u64, u64); 7] = [
    (0, COMMITTED, 0),
    (16, COMMITTED, 0),
    (128, COMMITTED, 0),
    (144, COMMITTED, COMMITTED),
    (144 + 1, COMMITTED, 0xffff_ffff_0000_0010),
    (152 + 2, OPENED, OPEN),
    (144 + 3, COMMITTED, ABORTED),
];

/// Words and slots that make no sense.
static SENSELESS: [(u64, u64, u64); 11] = [
    (144 + 4, COMMITTED, BAD),
    (144 + 7, COMMITTED, BAD),
    (u64::MAX, COMMITTED, BAD),
    (152, COMMITTED, BAD),
    (136, COMMITTED, BAD),
    (128 + 2, COMMITTED, BAD),
    (144, OPEN, BAD),
    (144, ABORTED, BAD),
    (144, 0x0000_0000_0000_0010, BAD),
    (144 + 3, 0, BAD),
    ((1 << 40) + 1, COMMITTED, BAD),
];

/// Tests the headers that words and slots show.
fn have_headers(rt: &impl Abort, rows: &[(u64, u64, u64)]) {
    for (word, slot, header) in rows {
        same(
            rt,
            (*word, *slot, header_of(rt, *word, *slot)),
            (*word, *slot, *header),
        );
    }
}

#[test]
fn headers_of_marks(rt: HostRuntime) {
    have_headers(&rt, &HEADERS);
}

#[test]
fn marks_that_make_no_sense(rt: HostRuntime) {
    have_headers(&rt, &SENSELESS);
}

/// Passes over messages.
#[derive(Drop)]
struct Pass;

impl Handler for Pass {
    ghost step = { λ _ _ _ _. Unit {0} };

    fn on_message(&mut self, _type_id: i32, _body: &[u8]) -> Action {
        Action::Continue
    }
}

/// Claims, and commits, aborts or leaves open; now and then reads.
fn use_ring(ring: &mut SoloRing, numbers: &mut Numbers) {
    let body = numbers.next().to_le_bytes();
    let len = (numbers.next() % 9) as usize;
    if numbers.next() % 3 == 0 {
        let _ = ring.read(2, &mut Pass);
    }
    match ring.claim(9, len) {
        Ok(mut claim) => {
            let _ = ring.put(&mut claim, 0, &body[..len]);
            match numbers.next() % 8 {
                0 | 1 => ring.abort(claim),
                2 => claim.leak(),
                _ => ring.commit(claim),
            }
        }
        Err(_) => {}
    }
}

/// The words and the slots of the same ring as a plain ring, and the index of the mark of the record before, if it is
/// committed.
#[derive(Clone, Copy)]
struct Parts {
    words: [u64; 112],
    slots: [u64; 16],
    run: Option<usize>,
}

/// Stores a word at an index.
fn store(words: &mut [u64], index: usize, value: u64) {
    if let Some(word) = words.get_mut(index) {
        *word = value;
    }
}

/// The word at an index, or 0.
fn load(words: &[u64], index: usize) -> u64 {
    words.get(index).copied().unwrap_or(0)
}

/// Words of earlier laps, and slots with any words.
fn leftover(whole: &[u64; 112], numbers: &mut Numbers) -> Parts {
    let mut parts = Parts {
        words: *whole,
        slots: [0; 16],
        run: None,
    };
    let head = whole[HEAD];
    for k in 0..16u64 {
        let position = head.wrapping_add(8 * k);
        let word = match position.checked_add(1) {
            Some(above) => numbers.next() % above,
            None => 0,
        };
        store(&mut parts.words, (position % 128 / 8) as usize, word);
        store(&mut parts.slots, k as usize, numbers.next());
    }
    parts
}

/// The kind of a record with this state. Without bytes it may be padding.
fn kind_of(state: RecordState, may_be_padding: bool) -> u64 {
    match state {
        RecordState::AbortedOrPadding if may_be_padding => 1,
        RecordState::Open => 2,
        RecordState::Aborted | RecordState::AbortedOrPadding => 3,
        RecordState::Committed | RecordState::Unstored => 0,
    }
}

/// Stores the mark of a record, and its header and body in the slots. A committed record may get the mark of the record
/// before.
fn part_record(parts: &mut Parts, whole: &[u64], record: &Record<'_>, numbers: &mut Numbers) {
    let first = record.index as usize / 8;
    let count = record.length.div_ceil(8);
    let mut is_empty = true;
    for index in first + 1..first + count as usize {
        let word = load(whole, index);
        is_empty = is_empty && word == 0;
        store(&mut parts.slots, index, word);
    }
    let kind = kind_of(record.state, is_empty && numbers.next() % 2 == 0);
    let type_id = if record.type_id < 0 {
        1 + numbers.next() % 1000
    } else {
        record.type_id as u64
    };
    let end = record.place.wrapping_add(8 * u64::from(count));
    let in_run = kind == 0 && numbers.next() % 2 == 0;
    let at = match parts.run {
        Some(earlier) if in_run => earlier,
        _ => first,
    };
    store(&mut parts.words, at, end.wrapping_add(kind));
    parts.run = if kind == 0 { Some(at) } else { None };
    if kind != 1 {
        let header = (type_id << 32) | u64::from(record.length);
        store(&mut parts.slots, first, header);
    }
}

/// Makes a plain ring of words, with runs. What an earlier lap left is in the other words, and slots without a record
/// have any words.
fn part(rt: &impl Abort, whole: &[u64; 112], numbers: &mut Numbers) -> Parts {
    let ring = RingSnapshot::new(whole).expect(rt, "a ring");
    let mut parts = leftover(whole, numbers);
    for entry in ring.records().expect(rt, "records") {
        let record = entry.expect(rt, "a record");
        part_record(&mut parts, whole, &record, numbers);
    }
    parts
}

/// Makes a plain ring of a ring, and joins its words and slots again.
fn part_and_join(rt: &impl Abort, ring: &SoloRing, numbers: &mut Numbers) {
    let mut whole = [0; 112];
    copy(rt, ring, &mut whole);
    let mut parts = part(rt, &whole, numbers);
    same(rt, join(&mut parts.words, &parts.slots), Ok(()));
    same(rt, parts.words.as_slice(), whole.as_slice());
}

#[test]
fn gives_the_words_back(rt: HostRuntime) {
    let mut numbers = Numbers(0x2545_f491_4f6c_dd1d);
    let mut ring = SoloRing::new(rt.alloc(), 128).expect(&rt, "a ring");
    for _ in 0..2000 {
        use_ring(&mut ring, &mut numbers);
        part_and_join(&rt, &ring, &mut numbers);
        // (an open claim blocks the reader)
        if ring.positions().used() > 96 {
            ring = SoloRing::new(rt.alloc(), 128).expect(&rt, "a ring");
        }
    }
}
