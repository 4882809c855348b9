//! The snapshots of `examples/snapshots`, made again.
ghost use Rattle.std.specs.Prelude.{◌^◌, ◌≤◌};
ghost use Rattle.ring_counters.specs.Manager.{IsManagerOf};

use crate::compare::same;
use ring_board::{Board, ClosedBoard};
use ring_counters::{AllocateRefused, CounterValues, CountersManager, IdFault};
use ring_snapshot::{Words, write_words};
use ring_words::{Action, Handler, SoloRing};
use std::alloc::{AllocError, Global};
use std::process::Abort;

/// Tests that a text is the wanted one.
pub fn shows(rt: &impl Abort, text: Result<String, AllocError>, wanted: &str) {
    let text = text.expect(rt, "memory");
    same(rt, text.as_str(), wanted);
}

/// The bytes of a snapshot.
pub fn bytes_of<S: Words>(rt: &impl Abort, alloc: Global, source: &S) -> Vec<u8> {
    let mut bytes = Vec::new(alloc);
    write_words(source, &mut bytes).expect(rt, "memory");
    bytes
}

/// An empty ring.
fn empty_ring(rt: &impl Abort, alloc: Global, capacity: u32) -> SoloRing {
    SoloRing::new(alloc, capacity).expect(rt, "a ring")
}

/// Writes messages, each with its type id.
fn write_all(rt: &impl Abort, ring: &mut SoloRing, messages: &[(i32, &str)]) {
    for (type_id, text) in messages {
        ring.write(*type_id, text.as_bytes()).expect(rt, "room");
    }
}

/// Claims, and leaves the claim open.
fn leave_open(rt: &impl Abort, ring: &mut SoloRing) {
    ring.claim(5, 20).expect(rt, "a claim").leak();
}

/// A ring whose reader is blocked by an open claim.
pub fn blocked(rt: &impl Abort, alloc: Global) -> SoloRing {
    let mut ring = empty_ring(rt, alloc, 256);
    write_all(rt, &mut ring, &[(3, "shown"), (4, "shown too")]);
    leave_open(rt, &mut ring);
    write_all(rt, &mut ring, &[(6, "waits"), (7, "waits as well")]);
    ring
}

/// Passes over messages.
#[derive(Drop)]
struct Pass;

impl Handler for Pass {
    ghost step = { λ _ _ _ _. Unit {0} };

    fn on_message(&mut self, _type_id: i32, _body: &[u8]) -> Action {
        Action::Continue
    }
}

/// The messages that are read.
static READ: [(i32, &str); 3] = [
    (1, "first message"),
    (2, "second message"),
    (3, "third message"),
];

/// Reads three messages.
fn read_three(rt: &impl Abort, ring: &mut SoloRing) {
    let read = ring.read(3, &mut Pass).messages;
    same(rt, read, 3);
}

/// Claims twice: the first claim is aborted, the other one stays open with half its message.
fn claim_two(rt: &impl Abort, ring: &mut SoloRing) {
    let given_up = ring.claim(5, 16).expect(rt, "a claim");
    ring.abort(given_up);
    let mut open = ring.claim(6, 16).expect(rt, "a claim");
    ring.put(&mut open, 0, b"half").expect(rt, "room");
    open.leak();
}

/// A ring of which three messages were read: what was written then goes beyond the end of its buffer.
pub fn wrapped(rt: &impl Abort, alloc: Global) -> SoloRing {
    let mut ring = empty_ring(rt, alloc, 128);
    write_all(rt, &mut ring, READ.as_slice());
    read_three(rt, &mut ring);
    write_all(rt, &mut ring, &[(4, "fourth message!!")]);
    claim_two(rt, &mut ring);
    write_all(rt, &mut ring, &[(7, "last words")]);
    ring
}

/// The indexes of the records and of the padding of `wrapped`, and what a plain ring has there: the word, which is the
/// end and the kind, and the header in the slot. The kinds are 0 for committed, 1 for padding, 2 for open and 3 for
/// aborted. The records at 0 and 3 are in the second lap. The message at 6 was read, and its mark says nothing now.
/// Padding has no header.
static MARKED: [(usize, u64, u64); 6] = [
    (0, 152 + 2, 0x0000_0006_0000_0018),
    (3, 176, 0x0000_0007_0000_0012),
    (6, 72, 0x0000_0003_0000_0015),
    (9, 96, 0x0000_0004_0000_0018),
    (12, 120 + 3, 0x0000_0005_0000_0018),
    (15, 128 + 1, 0),
];

/// The word and the slot at an index of the buffer of `wrapped` as a plain ring. Two slots still have a message that
/// was read.
pub fn parts_at(index: usize, word: u64) -> (u64, u64) {
    for (marked, mark, header) in &MARKED {
        if *marked == index {
            return (*mark, *header);
        }
    }
    match index {
        7 => (0, u64::from_le_bytes(*b"third me")),
        8 => (0, u64::from_le_bytes(*b"ssage\0\0\0")),
        _ => (0, word),
    }
}

/// The messages that `lapped` transmits.
static SENT: [(i32, &str); 12] = [
    (1, "session opened"),
    (2, "bid 99.75"),
    (2, "bid 99.80"),
    (3, "ask 100.10 for 500 pieces"),
    (2, "bid 99.85"),
    (3, "ask 100.05"),
    (4, "traded 200 at 100.05"),
    (3, "ask 100.00 for 300 pieces"),
    (4, "traded 300 at 100.00"),
    (2, "bid 99.90"),
    (3, "ask 100.15"),
    (5, "session closed"),
];

/// A broadcast buffer of 256 bytes on which twelve messages were transmitted: the last four are in the second lap.
pub fn lapped(rt: &impl Abort, alloc: Global) -> ClosedBoard {
    let (board, mut transmitter) = Board::new(alloc, 256).expect(rt, "a board");
    'sends: for (type_id, text) in &SENT {
        let sent = board.transmit(&mut transmitter, *type_id, text.as_bytes());
        same(rt, sent, Ok(()));
    }
    board.close(transmitter).ok().expect(rt, "a closed board")
}

/// A manager with its values.
#[derive(Drop)]
struct Desk {
    values: CounterValues,
    manager: CountersManager,
    ghost own: { IsManagerOf values manager },
}

impl Desk {
    fn new(rt: &impl Abort, alloc: Global) -> Desk {
        let (values, manager) = CountersManager::new(alloc, 4, 300).expect(rt, "counters");
        Desk { values, manager }
    }

    /// Allocates a counter, with an owner or with 0 for none.
    fn allocate(
        &mut self,
        now: u64,
        type_id: i32,
        texts: (&str, &str),
        registration: u64,
        owner: u64,
    ) -> Result<u32, AllocateRefused> {
        let (key, label) = (texts.0.as_bytes(), texts.1.as_bytes());
        self.manager.allocate_owned(&self.values, now, type_id, key, label, registration, owner)
    }

    fn set(&mut self, id: u32, value: i64) -> Result<(), IdFault> {
        self.manager.set(&self.values, id, value)
    }

    fn free(&mut self, now: u64, id: u32) -> Result<(), IdFault>
        requires { now ≤ 2 ^ 62 }
    {
        self.manager.free(now, id)
    }

    /// Allocates the counters of the snapshot: the second id is given again.
    fn allocate_all(&mut self, rt: &impl Abort) {
        for (wanted, now, type_id, texts, registration, owner) in &COUNTERS {
            if *now == 1300 {
                self.free(1000, 1).expect(rt, "a counter");
            }
            let id = self.allocate(*now, *type_id, *texts, *registration, *owner);
            same(rt, id, Ok(*wanted));
        }
    }
}

/// The counters of the snapshot: the id, the moment, the type, key and label, the registration and the owner.
static COUNTERS: [(u32, u64, i32, (&str, &str), u64, u64); 4] = [
    (0, 0, 1, ("in", "messages sent"), 11, 7),
    (1, 0, 3, ("", "bytes in memory"), 12, 0),
    (2, 0, 2, ("", "laps"), 13, 0),
    (1, 1300, 3, ("disk", "bytes on disk"), 14, 9),
];

/// Counters of which one id was given again and one was freed.
pub fn reused(rt: &impl Abort, alloc: Global) -> CountersManager {
    let mut desk = Desk::new(rt, alloc);
    desk.allocate_all(rt);
    desk.set(0, 1_000_000).expect(rt, "a counter");
    desk.set(1, 4096).expect(rt, "a counter");
    desk.free(2000, 2).expect(rt, "a counter");
    desk.manager
}
