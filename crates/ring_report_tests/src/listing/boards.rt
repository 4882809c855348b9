//! What is listed of boards.
use crate::compare::same;
use crate::listing::random::Numbers;
use crate::words::copy;
use ring_board::{Board, ClosedBoard};
use ring_snapshot::{BoardRecord, BoardSnapshot};
use std::alloc::Global;
use std::process::Abort;

/// A closed board of 256 bytes, on which this many messages of lengths that look random were transmitted: message k has
/// the type id k and bytes k - 1 modulo 256.
fn transmitted(rt: &impl Abort, alloc: Global, numbers: &mut Numbers, sent: i32) -> ClosedBoard {
    let (board, mut transmitter) = Board::new(alloc, 256).expect(rt, "a board");
    'sends: for type_id in 0..sent {
        let len = (numbers.next() % 33) as usize;
        let body = [type_id.to_le_bytes()[0]; 32];
        let is_sent = board.transmit(&mut transmitter, type_id + 1, &body[..len]);
        same(rt, is_sent, Ok(()));
    }
    board.close(transmitter).ok().expect(rt, "a closed board")
}

/// What a listing has come to.
#[derive(Clone, Copy)]
struct Lap {
    place: u64,
    last: i32,
    listed: u64,
}

impl Lap {
    /// Goes on by a record, which has to be the message after the last one.
    fn goes_on(&mut self, record: BoardRecord<'_>) -> bool {
        let follows = self.listed == 0 || record.type_id.wrapping_sub(self.last) == 1;
        if record.place != self.place || record.is_padding || !follows {
            return false;
        }
        let span = record.length.div_ceil(8).wrapping_mul(8);
        self.place = self.place.wrapping_add(span.into());
        self.last = record.type_id;
        self.listed = self.listed.wrapping_add(1);
        for byte in record.body {
            if i32::from(byte) != self.last.wrapping_sub(1) & 255 {
                return false;
            }
        }
        true
    }
}

/// How many records are listed, which have to be the last messages.
fn listed_of(rt: &impl Abort, closed: &ClosedBoard, sent: i32) -> u64 {
    let mut words = [0; 48];
    copy(rt, closed, &mut words);
    let board = BoardSnapshot::new(&words).expect(rt, "a board");
    let mut lap = Lap {
        place: closed.latest() & !255,
        last: 0,
        listed: 0,
    };
    for entry in board.records().expect(rt, "records") {
        assert!(rt; lap.goes_on(entry.expect(rt, "a record")), "another record");
    }
    same(rt, (lap.place, lap.last), (closed.tail(), sent));
    lap.listed
}

#[test]
fn lists_the_running_lap(rt: HostRuntime) {
    let mut numbers = Numbers(0x2545_f491_4f6c_dd1d);
    let mut listed = 0u64;
    for sent in 0..100 {
        let closed = transmitted(&rt, rt.alloc(), &mut numbers, sent);
        listed = listed.wrapping_add(listed_of(&rt, &closed, sent));
    }
    assert!(rt; listed > 200);
}

/// What came of words.
#[derive(Clone, Copy)]
struct Sum {
    bytes: u64,
    found: u64,
    refused: u64,
}

impl Sum {
    /// Reads all that is in some words.
    fn add(&mut self, words: &[u64]) {
        let Ok(records) = BoardSnapshot::new(words).and_then(|board| board.records()) else {
            self.refused = self.refused.wrapping_add(1);
            return;
        };
        for entry in records {
            match entry {
                Ok(record) => self.bytes = self.bytes.wrapping_add(record.body.len() as u64),
                Err(_finding) => self.found = self.found.wrapping_add(1),
            }
        }
    }
}

#[test]
fn ends_on_any_bytes(rt: HostRuntime) {
    let mut numbers = Numbers(0x9e37_79b9_7f4a_7c15);
    let mut words = [0u64; 48];
    let mut sum = Sum {
        bytes: 0,
        found: 0,
        refused: 0,
    };
    for _ in 0..100_000 {
        for word in words.iter_mut().take(32) {
            *word = numbers.next_header();
        }
        words[34] = numbers.next() % 512 & !7;
        words[33] = words[34].wrapping_add(numbers.next() % 40 & !3);
        words[32] = words[33].wrapping_add(numbers.next() % 100 & !7);
        sum.add(&words);
    }
    assert!(rt; sum.bytes > 0 && sum.found > 0 && sum.refused > 0);
}
