//! The snapshots of `examples/snapshots`, and tests that they are written so.
use crate::compare::same;
use crate::listing::join;
use crate::snapshots::{blocked, bytes_of, lapped, parts_at, reused, wrapped};
use crate::words::{Changes, change};
use ring_snapshot::{CounterMetadata, CounterValueWords, Words};
use std::alloc::Global;
use std::process::Abort;

/// A snapshot: the name of its file, the number of its bytes, and the words that are not 0, each after its index.
pub struct Stored {
    name: &'static str,
    len: usize,
    pub words: Changes,
}

impl Stored {
    /// The word at an index.
    fn word(&self, index: usize) -> u64 {
        for (at, word) in self.words {
            if *at == index {
                return *word;
            }
        }
        0
    }
}

/// A ring whose reader is blocked by an open claim.
pub static BLOCKED: Stored = Stored {
    name: "blocked.ring",
    len: 1024,
    words: &[
        (0, 0x0000_0003_0000_000d),
        (1, 0x0000_006e_776f_6873),
        (2, 0x0000_0004_0000_0011),
        (3, 0x6f74_206e_776f_6873),
        (4, 0x0000_0000_0000_006f),
        (5, 0x0000_0005_ffff_ffe4),
        (9, 0x0000_0006_0000_000d),
        (10, 0x0000_0073_7469_6177),
        (11, 0x0000_0007_0000_0015),
        (12, 0x7361_2073_7469_6177),
        (13, 0x0000_006c_6c65_7720),
        (48, 0x0000_0000_0000_0070),
    ],
};

/// A ring of which three messages were read.
pub static WRAPPED: Stored = Stored {
    name: "wrapped.ring",
    len: 896,
    words: &[
        (0, 0x0000_0006_ffff_ffe8),
        (1, 0x0000_0000_666c_6168),
        (3, 0x0000_0007_0000_0012),
        (4, 0x726f_7720_7473_616c),
        (5, 0x0000_0000_0000_7364),
        (9, 0x0000_0004_0000_0018),
        (10, 0x6d20_6874_7275_6f66),
        (11, 0x2121_6567_6173_7365),
        (12, 0xffff_ffff_0000_0018),
        (15, 0xffff_ffff_0000_0008),
        (32, 0x0000_0000_0000_00b0),
        (64, 0x0000_0000_0000_0048),
    ],
};

/// The same ring as a plain ring: its words, and then its slots.
pub static PLAIN: Stored = Stored {
    name: "wrapped.plain",
    len: 1024,
    words: &[
        (0, 0x0000_0000_0000_009a),
        (3, 0x0000_0000_0000_00b0),
        (6, 0x0000_0000_0000_0048),
        (9, 0x0000_0000_0000_0060),
        (12, 0x0000_0000_0000_007b),
        (15, 0x0000_0000_0000_0081),
        (32, 0x0000_0000_0000_00b0),
        (64, 0x0000_0000_0000_0048),
        (112, 0x0000_0006_0000_0018),
        (113, 0x0000_0000_666c_6168),
        (115, 0x0000_0007_0000_0012),
        (116, 0x726f_7720_7473_616c),
        (117, 0x0000_0000_0000_7364),
        (118, 0x0000_0003_0000_0015),
        (119, 0x656d_2064_7269_6874),
        (120, 0x0000_0065_6761_7373),
        (121, 0x0000_0004_0000_0018),
        (122, 0x6d20_6874_7275_6f66),
        (123, 0x2121_6567_6173_7365),
        (124, 0x0000_0005_0000_0018),
    ],
};

/// A broadcast buffer whose last four messages are in the second lap.
pub static LAPPED: Stored = Stored {
    name: "lapped.board",
    len: 384,
    words: &[
        (0, 0x0000_0004_0000_001c),
        (1, 0x3320_6465_6461_7274),
        (2, 0x3031_2074_6120_3030),
        (3, 0x0000_0000_3030_2e30),
        (4, 0x0000_0002_0000_0011),
        (5, 0x392e_3939_2064_6962),
        (6, 0x0000_0000_0000_0030),
        (7, 0x0000_0003_0000_0012),
        (8, 0x2e30_3031_206b_7361),
        (9, 0x0000_0000_0000_3531),
        (10, 0x0000_0005_0000_0016),
        (11, 0x206e_6f69_7373_6573),
        (12, 0x0000_6465_736f_6c63),
        (13, 0x0000_0000_0000_0073),
        (14, 0x0000_0002_0000_0011),
        (15, 0x382e_3939_2064_6962),
        (16, 0x0000_0000_0000_0035),
        (17, 0x0000_0003_0000_0012),
        (18, 0x2e30_3031_206b_7361),
        (19, 0x0000_0000_0000_3530),
        (20, 0x0000_0004_0000_001c),
        (21, 0x3220_6465_6461_7274),
        (22, 0x3031_2074_6120_3030),
        (23, 0x0000_0000_3530_2e30),
        (24, 0x0000_0003_0000_0021),
        (25, 0x2e30_3031_206b_7361),
        (26, 0x3320_726f_6620_3030),
        (27, 0x6563_6569_7020_3030),
        (28, 0x0000_0000_0000_0073),
        (29, 0xffff_ffff_0000_0018),
        (32, 0x0000_0000_0000_0168),
        (33, 0x0000_0000_0000_0168),
        (34, 0x0000_0000_0000_0150),
    ],
};

/// The metadata of counters of which one id was given again and one was freed.
pub static METADATA: Stored = Stored {
    name: "reused.metadata",
    len: 2048,
    words: &[
        (0, 0x0000_0001_0000_0001),
        (1, 0x7fff_ffff_ffff_ffff),
        (2, 0x0000_0000_0000_6e69),
        (16, 0x7373_656d_0000_000d),
        (17, 0x6e65_7320_7365_6761),
        (18, 0x0000_0000_0000_0074),
        (64, 0x0000_0003_0000_0001),
        (65, 0x7fff_ffff_ffff_ffff),
        (66, 0x0000_0000_6b73_6964),
        (80, 0x6574_7962_0000_000d),
        (81, 0x7369_6420_6e6f_2073),
        (82, 0x0000_0000_0000_006b),
        (128, 0x0000_0002_ffff_ffff),
        (129, 0x0000_0000_0000_08fc),
        (144, 0x7370_616c_0000_0004),
    ],
};

/// Their values.
pub static VALUES: Stored = Stored {
    name: "reused.values",
    len: 512,
    words: &[
        (0, 0x0000_0000_000f_4240),
        (1, 0x0000_0000_0000_000b),
        (2, 0x0000_0000_0000_0007),
        (16, 0x0000_0000_0000_1000),
        (17, 0x0000_0000_0000_000e),
        (18, 0x0000_0000_0000_0009),
        (33, 0x0000_0000_0000_000d),
    ],
};

/// Tests that a snapshot is written as it is stored.
fn is_written<S: Words>(rt: &impl Abort, alloc: Global, source: &S, stored: &Stored) {
    let bytes = bytes_of(rt, alloc, source);
    same(rt, (stored.name, bytes.len()), (stored.name, stored.len));
    for (at, byte) in bytes.iter().enumerate() {
        let wanted = stored.word(at / 8).to_le_bytes()[at % 8];
        same(rt, (stored.name, at, *byte), (stored.name, at, wanted));
    }
}

#[test]
fn rings_are_written_as_stored(rt: HostRuntime) {
    is_written(&rt, rt.alloc(), &blocked(&rt, rt.alloc()), &BLOCKED);
    is_written(&rt, rt.alloc(), &wrapped(&rt, rt.alloc()), &WRAPPED);
}

#[test]
fn a_plain_ring_is_stored_as_its_parts(rt: HostRuntime) {
    same(&rt, PLAIN.len, 1024);
    for index in 0..16 {
        let stored = (PLAIN.word(index), PLAIN.word(112 + index));
        let (mark, slot) = parts_at(index, WRAPPED.word(index));
        same(&rt, (index, stored), (index, (mark, slot)));
    }
    for index in 16..112 {
        same(
            &rt,
            (index, PLAIN.word(index)),
            (index, WRAPPED.word(index)),
        );
    }
}

#[test]
fn a_plain_ring_is_joined_to_the_stored_one(rt: HostRuntime) {
    let (mut plain, mut wanted) = ([0; 128], [0; 112]);
    change(&mut plain, PLAIN.words);
    change(&mut wanted, WRAPPED.words);
    let (words, slots) = plain.split_at_mut(112);
    same(&rt, join(words, slots), Ok(()));
    let words: &[u64] = words;
    same(&rt, words, wanted.as_slice());
}

#[test]
fn a_board_is_written_as_stored(rt: HostRuntime) {
    is_written(&rt, rt.alloc(), &lapped(&rt, rt.alloc()), &LAPPED);
}

#[test]
fn counters_are_written_as_stored(rt: HostRuntime) {
    let manager = reused(&rt, rt.alloc());
    is_written(&rt, rt.alloc(), &CounterMetadata(&manager), &METADATA);
    is_written(&rt, rt.alloc(), &CounterValueWords(&manager), &VALUES);
}
