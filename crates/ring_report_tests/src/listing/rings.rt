//! What is listed of rings.
use crate::compare::same;
use crate::listing::random::Numbers;
use crate::words::{Changes, change, copy};
use ring_snapshot::{RecordState, RingSnapshot};
use ring_words::{Action, Handler, SoloRing};

/// The words of a ring with a committed record, an open one, and one without a message. What is listed of them is in
/// `tests/snapshots/rings.txt`.
static CLAIMED: Changes = &[
    (0, 0x0000_0007_0000_000d),
    (1, 0x0000_006f_6c6c_6568),
    (2, 0x0000_0008_ffff_fff5),
    (4, 0x0000_0009_0000_0008),
    (16 + 16, 40),
];

#[test]
fn writes_what_is_claimed(rt: HostRuntime) {
    let mut ring = SoloRing::new(rt.alloc(), 128).expect(&rt, "a ring");
    same(&rt, ring.write(7, b"hello"), Ok(()));
    ring.claim(8, 3).expect(&rt, "a claim").leak();
    same(&rt, ring.write(9, b""), Ok(()));
    let (mut words, mut wanted) = ([0; 112], [0; 112]);
    copy(&rt, &ring, &mut words);
    change(&mut wanted, CLAIMED);
    same(&rt, words.as_slice(), wanted.as_slice());
}

/// What came of words.
#[derive(Clone, Copy)]
struct Sum {
    listed: u64,
    found: u64,
    refused: u64,
    bytes: u64,
}

impl Sum {
    /// Reads all that is in some words.
    fn add(&mut self, words: &[u64]) {
        let Ok(records) = RingSnapshot::new(words).and_then(|ring| ring.records()) else {
            self.refused = self.refused.wrapping_add(1);
            return;
        };
        for entry in records {
            match entry {
                Ok(record) => {
                    self.listed = self.listed.wrapping_add(1);
                    for byte in record.body {
                        self.bytes = self.bytes.wrapping_add(u64::from(byte));
                    }
                }
                Err(_finding) => self.found = self.found.wrapping_add(1),
            }
        }
    }
}

#[test]
fn ends_on_any_bytes(rt: HostRuntime) {
    let mut numbers = Numbers(0x9e37_79b9_7f4a_7c15);
    let mut words = [0u64; 112];
    let mut sum = Sum {
        listed: 0,
        found: 0,
        refused: 0,
        bytes: 0,
    };
    for _ in 0..100_000 {
        for word in words.iter_mut().take(16) {
            *word = numbers.next_header();
        }
        words[16 + 48] = numbers.next() % 512 & !7;
        words[16 + 16] = words[16 + 48] + (numbers.next() % 136 & !3);
        sum.add(&words);
    }
    assert!(rt; sum.listed > 0 && sum.found > 0 && sum.refused > 0 && sum.bytes > 0);
}

/// Keeps the type ids that it is shown.
#[derive(Drop)]
struct Seen {
    last: Option<i32>,
}

impl Handler for Seen {
    ghost step = { λ _ _ _ _. Unit {0} };

    fn on_message(&mut self, type_id: i32, _body: &[u8]) -> Action {
        self.last = Some(type_id);
        Action::Continue
    }
}

/// The type id of the message that a read of one gives. The first read may end at the end of the buffer.
fn next_read(ring: &mut SoloRing) -> Option<i32> {
    let mut seen = Seen { last: None };
    if ring.read(1, &mut seen).messages == 0 {
        let _ = ring.read(1, &mut seen);
    }
    seen.last
}

/// The type id of the first record that a reader would be shown, up to an open one.
fn first_committed(words: &[u64]) -> Option<i32> {
    let ring = RingSnapshot::new(words).ok()?;
    for entry in ring.records().ok()? {
        let Ok(record) = entry else {
            return None;
        };
        match record.state {
            RecordState::Committed => return Some(record.type_id),
            RecordState::Open | RecordState::Unstored => return None,
            RecordState::Aborted | RecordState::AbortedOrPadding => {}
        }
    }
    None
}

/// Writes a message, or aborts a claim, if there is room.
fn write_or_abort(ring: &mut SoloRing, numbers: &mut Numbers, type_id: i32) {
    let body = [7u8; 16];
    let len = (numbers.next() % 17) as usize;
    if numbers.next() % 3 == 0 {
        match ring.claim(type_id, len) {
            Ok(claim) => ring.abort(claim),
            Err(_) => {}
        }
    } else {
        let _ = ring.write(type_id, &body[..len]);
    }
}

#[test]
fn shows_what_a_read_gives_next(rt: HostRuntime) {
    let mut numbers = Numbers(0x2545_f491_4f6c_dd1d);
    let mut ring = SoloRing::new(rt.alloc(), 128).expect(&rt, "a ring");
    let mut compared = 0u64;
    for type_id in 1..2000 {
        write_or_abort(&mut ring, &mut numbers, type_id);
        if numbers.next() % 2 == 0 {
            let mut words = [0; 112];
            copy(&rt, &ring, &mut words);
            same(&rt, next_read(&mut ring), first_committed(&words));
            compared = compared.wrapping_add(1);
        }
    }
    assert!(rt; compared > 500);
}
