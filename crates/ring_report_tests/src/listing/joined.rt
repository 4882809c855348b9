//! Words and slots of plain rings, and the words in the format that they are joined to.
use crate::compare::same;
use crate::words::{Changes, change};
use ring_snapshot::{RingFinding, join_bodies};
use std::process::Abort;

/// The header of 8 bytes of padding in the format, or of an aborted record without a message: the type id is -1.
const PADDING: u64 = 0xffff_ffff_0000_0008;

/// The header of a committed record of type 5 with 8 bytes.
pub const COMMITTED: u64 = 0x0000_0005_0000_0010;

/// The header of an open record of type 6 with 9 bytes: the length 17 is negated.
pub const OPEN: u64 = 0x0000_0006_ffff_ffef;

/// The header of the same record once it is committed, which its slot has.
pub const OPENED: u64 = 0x0000_0006_0000_0011;

/// The header of an aborted record with 8 bytes.
pub const ABORTED: u64 = 0xffff_ffff_0000_0010;

/// The header of a mark that makes no sense, whose length is 1.
pub const BAD: u64 = 1;

/// A word or a slot of an earlier lap.
const OLD: u64 = 0xaaaa_aaaa_aaaa_aaaa;

/// The index of the tail in the words of a ring of 128 bytes.
pub const TAIL: usize = 16 + 16;

/// The index of the head.
pub const HEAD: usize = 16 + 48;

/// A plain ring of 128 bytes, and the words in the format that it is joined to.
struct Joined {
    what: &'static str,
    /// Each word but those of `words`, and each slot but those of `slots`.
    others: (u64, u64),
    words: Changes,
    slots: Changes,
    /// Indexes from one up to another, at which the words in the format are 0.
    zeros: (usize, usize),
    /// The other words of the buffer that are not those of the plain ring.
    wanted: Changes,
}

/// The slots of a plain ring with three records of 16 bytes from 96 on.
const RUN: Changes = &[
    (12, COMMITTED),
    (13, 0x1111),
    (14, COMMITTED),
    (15, 0x2222),
    (0, COMMITTED),
    (1, 0),
];

/// What such a ring is joined to, if the mark at 96 is the end of the three records.
const WHOLE_RUN: Changes = &[
    (12, COMMITTED),
    (13, 0x1111),
    (14, COMMITTED),
    (15, 0x2222),
    (0, COMMITTED),
];

/// What it is joined to, if the third record makes no sense.
const BAD_THIRD: Changes = &[
    (12, COMMITTED),
    (13, 0x1111),
    (14, COMMITTED),
    (15, 0x2222),
    (0, BAD),
];

static JOINED: [Joined; 16] = [
    Joined {
        what: "from 104 on a committed record, padding at 120, then an open one from 128 on, whose bytes go up to 152, \
and the last one was aborted",
        others: (40, OLD),
        words: &[
            (HEAD, 104),
            (TAIL, 160),
            (13, 120),
            (15, 128 + 1),
            (0, 152 + 2),
            (3, 160 + 3),
        ],
        slots: &[
            (13, COMMITTED),
            (14, 0x1111),
            (0, OPENED),
            (1, 0x2222),
            (2, 0x33),
            (3, 0x0000_0007_0000_0008),
        ],
        zeros: (4, 13),
        wanted: &[
            (13, COMMITTED),
            (14, 0x1111),
            (15, PADDING),
            (0, OPEN),
            (1, 0x2222),
            (2, 0x33),
            (3, PADDING),
        ],
    },
    Joined {
        what: "padding has zeros after its header",
        others: (0, 7),
        words: &[(HEAD, 104), (TAIL, 128), (13, 128 + 1), (14, 88), (15, 120)],
        slots: &[],
        zeros: (14, 16),
        wanted: &[(13, 0xffff_ffff_0000_0018)],
    },
    Joined {
        what: "a run of three records",
        others: (40, OLD),
        words: &[(HEAD, 96), (TAIL, 144), (12, 144)],
        slots: RUN,
        zeros: (1, 12),
        wanted: WHOLE_RUN,
    },
    Joined {
        what: "a consumer that stopped inside of the run left a mark there, with the end of the run",
        others: (40, OLD),
        words: &[(HEAD, 96), (TAIL, 144), (12, 144), (13, 144), (14, 144)],
        slots: RUN,
        zeros: (1, 12),
        wanted: WHOLE_RUN,
    },
    Joined {
        what: "words of the run are not looked at: the end of the second record",
        others: (40, OLD),
        words: &[(HEAD, 96), (TAIL, 144), (12, 144), (13, 128), (14, 128)],
        slots: RUN,
        zeros: (1, 12),
        wanted: WHOLE_RUN,
    },
    Joined {
        what: "words of the run are not looked at: the mark of an open record",
        others: (40, OLD),
        words: &[
            (HEAD, 96),
            (TAIL, 144),
            (12, 144),
            (13, 120 + 2),
            (14, 120 + 2),
        ],
        slots: RUN,
        zeros: (1, 12),
        wanted: WHOLE_RUN,
    },
    Joined {
        what: "words of the run are not looked at: a mark that makes no sense",
        others: (40, OLD),
        words: &[
            (HEAD, 96),
            (TAIL, 144),
            (12, 144),
            (13, u64::MAX),
            (14, u64::MAX),
        ],
        slots: RUN,
        zeros: (1, 12),
        wanted: WHOLE_RUN,
    },
    Joined {
        what: "an aborted record comes after a run",
        others: (40, OLD),
        words: &[(HEAD, 96), (TAIL, 144), (12, 128), (0, 144 + 3)],
        slots: RUN,
        zeros: (1, 12),
        wanted: &[
            (12, COMMITTED),
            (13, 0x1111),
            (14, COMMITTED),
            (15, 0x2222),
            (0, ABORTED),
        ],
    },
    Joined {
        what: "nothing is stored after a run",
        others: (40, OLD),
        words: &[(HEAD, 96), (TAIL, 144), (12, 128)],
        slots: RUN,
        zeros: (2, 12),
        wanted: &[
            (12, COMMITTED),
            (13, 0x1111),
            (14, COMMITTED),
            (15, 0x2222),
            (0, 0),
        ],
    },
    Joined {
        what: "a record in the run is longer than the rest of the run",
        others: (40, OLD),
        words: &[(HEAD, 96), (TAIL, 144), (12, 136)],
        slots: RUN,
        zeros: (2, 12),
        wanted: BAD_THIRD,
    },
    Joined {
        what: "the slot of a record in the run has the header of an aborted one",
        others: (40, OLD),
        words: &[(HEAD, 96), (TAIL, 144), (12, 144)],
        slots: &[
            (12, COMMITTED),
            (13, 0x1111),
            (14, COMMITTED),
            (15, 0x2222),
            (0, ABORTED),
            (1, 0),
        ],
        zeros: (2, 12),
        wanted: BAD_THIRD,
    },
    Joined {
        what: "the slot of a record in the run has no header",
        others: (40, OLD),
        words: &[(HEAD, 96), (TAIL, 144), (12, 144)],
        slots: &[
            (12, COMMITTED),
            (13, 0x1111),
            (14, COMMITTED),
            (15, 0x2222),
            (0, 0),
            (1, 0),
        ],
        zeros: (2, 12),
        wanted: BAD_THIRD,
    },
    Joined {
        what: "the words stop where no mark is",
        others: (5, COMMITTED),
        words: &[(HEAD, 0), (TAIL, 64), (0, 16), (2, 16), (4, 48)],
        slots: &[],
        zeros: (8, 16),
        wanted: &[(0, COMMITTED), (1, COMMITTED), (2, 0)],
    },
    Joined {
        what: "the words stay if the tail is no multiple of 8",
        others: (COMMITTED, 2),
        words: &[(HEAD, 0), (TAIL, 4)],
        slots: &[],
        zeros: (0, 0),
        wanted: &[],
    },
    Joined {
        what: "the words stay if the tail is before the head",
        others: (COMMITTED, 2),
        words: &[(HEAD, 16), (TAIL, 0)],
        slots: &[],
        zeros: (0, 0),
        wanted: &[],
    },
    Joined {
        what: "the words stay if the tail is too far",
        others: (COMMITTED, 2),
        words: &[(HEAD, 0), (TAIL, 136)],
        slots: &[],
        zeros: (0, 0),
        wanted: &[],
    },
];

/// Joins words with slots. It promises no more than these tests need.
pub fn join(words: &mut [u64], slots: &[u64]) -> Result<(), RingFinding> {
    join_bodies(words, slots)
}

/// Sets the words from one index up to another to 0.
fn clear(words: &mut [u64], zeros: (usize, usize)) {
    if let Some(words) = words.get_mut(zeros.0..zeros.1) {
        words.fill(0);
    }
}

/// Tests that a plain ring is joined to the wanted words.
fn is_joined(rt: &impl Abort, row: &Joined) {
    let (mut words, mut slots) = ([row.others.0; 112], [row.others.1; 16]);
    change(&mut words, row.words);
    change(&mut slots, row.slots);
    let mut wanted = words;
    clear(&mut wanted, row.zeros);
    change(&mut wanted, row.wanted);
    same(rt, (row.what, join(&mut words, &slots)), (row.what, Ok(())));
    same(
        rt,
        (row.what, words.as_slice()),
        (row.what, wanted.as_slice()),
    );
}

#[test]
fn joins_words_and_slots(rt: HostRuntime) {
    for row in &JOINED {
        is_joined(&rt, row);
    }
}

#[test]
fn refuses_other_numbers_of_words(rt: HostRuntime) {
    let no_ring = RingFinding::BadSize { words: 111 };
    same(&rt, join(&mut [1; 111], &[2; 16]), Err(no_ring));
    let mut words = [0; 112];
    change(&mut words, &[(TAIL, 16), (0, 16)]);
    let slots = [2; 17];
    for count in [17, 15] {
        let refused = RingFinding::BadBodies { words: count };
        same(&rt, join(&mut words, &slots[..count]), Err(refused));
        same(&rt, words[1], 0);
    }
}
