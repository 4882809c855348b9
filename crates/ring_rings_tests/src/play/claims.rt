//! Plays of claims that are filled and settled.
use crate::play::call::Call::{Abort, Claim, Commit, Put, Read, Turn, Write};
use crate::play::call::Said::{self, Done, Made, MadeEmpty, Outside};
use crate::play::{PLAY, Play};
use crate::script::BODY;
use ring_rings::Stop;

const EIGHT: [u8; 8] = [0, 1, 2, 3, 4, 5, 6, 7];

/// The second of two claims is committed first.
pub static SECOND_FIRST: Play<'static> = Play {
    calls: &[
        (Claim(1, 0), MadeEmpty(0, 8)),
        (Claim(2, 0), MadeEmpty(8, 16)),
        (Commit, Done),
        (Read(9), Said::Read(0, 0, Stop::Unpublished)),
        (Commit, Done),
        (Read(9), Said::Read(2, 16, Stop::Unpublished)),
    ],
    shown: &[(1, &[]), (2, &[])],
    ends: (16, 16),
    ..PLAY
};

/// The first of two claims is aborted, and the second one committed.
pub static FIRST_ABORTED: Play<'static> = Play {
    calls: &[
        (Claim(1, 0), MadeEmpty(0, 8)),
        (Claim(2, 0), MadeEmpty(8, 16)),
        (Turn, Done),
        (Abort, Done),
        (Commit, Done),
        (Read(9), Said::Read(1, 16, Stop::Unpublished)),
    ],
    shown: &[(2, &[])],
    ends: (16, 16),
    ..PLAY
};

pub static INSIDE: Play<'static> = Play {
    calls: &[
        (Claim(3, 8), Made(0, 8, 8)),
        (Put(3, &[0xAA, 0xBB]), Done),
        (Commit, Done),
        (Read(9), Said::Read(1, 16, Stop::Unpublished)),
    ],
    shown: &[(3, &[0, 0, 0, 0xAA, 0xBB, 0, 0, 0])],
    ends: (16, 16),
    ..PLAY
};

/// Bytes over others, across words.
pub static OVER: Play<'static> = Play {
    calls: &[
        (Claim(1, 16), Made(0, 8, 16)),
        (Put(0, &BODY), Done),
        (Put(5, &[0xF5, 0xF6, 0xF7, 0xF8, 0xF9]), Done),
        (Commit, Done),
    ],
    ends: (0, 24),
    words: &[
        (1, Some(0xF7F6_F504_0302_0100)),
        (2, Some(0x0F0E_0D0C_0B0A_F9F8)),
    ],
    ..PLAY
};

pub static OVER_AND_READ: Play<'static> = Play {
    calls: &[
        (Claim(1, 16), Made(0, 8, 16)),
        (Put(0, &BODY), Done),
        (Put(5, &[0xF5, 0xF6, 0xF7, 0xF8, 0xF9]), Done),
        (Commit, Done),
        (Read(9), Said::Read(1, 24, Stop::Unpublished)),
    ],
    shown: &[(
        1,
        &[
            0, 1, 2, 3, 4, 0xF5, 0xF6, 0xF7, 0xF8, 0xF9, 10, 11, 12, 13, 14, 15,
        ],
    )],
    ends: (24, 24),
    ..PLAY
};

/// Bytes after a claim of 8 bytes, and none at its end. The claim is aborted.
pub static OUTSIDE: Play<'static> = Play {
    calls: &[
        (Write(3, &EIGHT), Done),
        (Read(9), Said::Read(1, 16, Stop::Unpublished)),
        (Claim(3, 8), Made(16, 24, 8)),
        (Put(7, &[0xAA, 0xBB]), Outside),
        (Put(usize::MAX, &[0xAA]), Outside),
        (Put(8, &[]), Done),
        (Abort, Done),
        (Read(9), Said::Read(0, 16, Stop::Unpublished)),
    ],
    shown: &[(3, &EIGHT)],
    ends: (32, 32),
    ..PLAY
};

/// The same bytes. The claim is committed, and another one is aborted.
pub static OUTSIDE_AND_READ: Play<'static> = Play {
    calls: &[
        (Write(1, &EIGHT), Done),
        (Claim(3, 8), Made(16, 24, 8)),
        (Put(7, &[0xAA, 0xBB]), Outside),
        (Put(usize::MAX, &[0xAA]), Outside),
        (Put(8, &[]), Done),
        (Commit, Done),
        (Read(9), Said::Read(2, 32, Stop::Unpublished)),
        (Claim(3, 8), Made(32, 40, 8)),
        (Abort, Done),
        (Read(9), Said::Read(0, 16, Stop::Unpublished)),
    ],
    shown: &[(1, &EIGHT), (3, &[0; 8])],
    ends: (48, 48),
    ..PLAY
};
