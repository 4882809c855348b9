//! Plays of what is written where, and what is refused.
use crate::play::call::Call::{Capacity, Claim, MaxMessage, Positions, Read, Shown, Write};
use crate::play::call::Said::{At, Done, Number, Refused};
use crate::play::call::{Call, Said};
use crate::play::{PLAY, Play};
use crate::script::BODY;
use ring_rings::ClaimFault::{BadType, InsufficientCapacity, PositionLimit, TooLong};
use ring_rings::Stop;

const WRITE: (Call<'static>, Said) = (Write(1, &BODY), Done);

const WRITE_EMPTY: (Call<'static>, Said) = (Write(1, &[]), Done);

const SHORT: Said = Refused(InsufficientCapacity { tail: 120, head: 0 });

const FULL: Said = Refused(InsufficientCapacity { tail: 128, head: 0 });

const BAD: Said = Refused(BadType { type_id: 0 });

const LONG: Said = Refused(TooLong { len: 17, max: 16 });

const LIMIT: Said = Refused(PositionLimit {
    tail: 4611686018427387904,
});

pub static RECORD: Play<'static> = Play {
    calls: &[(Write(7, &[1, 2, 3, 4, 5]), Done), (Positions, At(0, 16))],
    ends: (0, 16),
    words: &[
        (0, Some(0x0000_0007_0000_000D)),
        (1, Some(0x0000_0005_0403_0201)),
        (32, Some(16)),
    ],
    ..PLAY
};

pub static HEADER: Play<'static> = Play {
    calls: &[WRITE_EMPTY, (Positions, At(0, 8)), (Capacity, Number(128))],
    ends: (0, 8),
    words: &[(0, Some(0x0000_0001_0000_0008)), (1, Some(0)), (112, None)],
    ..PLAY
};

pub static PADDED: Play<'static> = Play {
    calls: &[
        WRITE,
        WRITE,
        WRITE,
        WRITE,
        (Write(1, &[0, 1, 2, 3, 4, 5, 6, 7]), Done),
        (Read(9), Said::Read(5, 112, Stop::Unpublished)),
        WRITE,
        (Positions, At(112, 152)),
    ],
    shown: &[
        (1, &BODY),
        (1, &BODY),
        (1, &BODY),
        (1, &BODY),
        (1, &[0, 1, 2, 3, 4, 5, 6, 7]),
    ],
    ends: (112, 152),
    words: &[
        (14, Some(0xFFFF_FFFF_0000_0010)),
        (15, Some(0)),
        (0, Some(0x0000_0001_0000_0018)),
        (1, Some(0x0706_0504_0302_0100)),
        (2, Some(0x0F0E_0D0C_0B0A_0908)),
    ],
    ..PLAY
};

pub static FILLED: Play<'static> = Play {
    calls: &[
        WRITE,
        WRITE,
        WRITE,
        WRITE,
        WRITE_EMPTY,
        WRITE,
        (Positions, At(0, 128)),
    ],
    ends: (0, 128),
    words: &[(13, Some(0x0000_0001_0000_0018))],
    ..PLAY
};

pub static OVERFILLED: Play<'static> = Play {
    calls: &[
        WRITE,
        WRITE,
        WRITE,
        WRITE,
        WRITE,
        (Write(1, &BODY), SHORT),
        (Claim(1, 16), SHORT),
        WRITE_EMPTY,
        (Write(1, &[]), FULL),
    ],
    ends: (0, 128),
    ..PLAY
};

pub static TYPE_FIRST: Play<'static> = Play {
    calls: &[
        (MaxMessage, Number(16)),
        (Write(1, &[0; 17]), LONG),
        (Claim(1, 17), LONG),
        (Write(0, &[]), BAD),
        (Write(0, &[0; 17]), BAD),
        (Claim(0, 17), BAD),
    ],
    ..PLAY
};

pub static LAST_POSITION: Play<'static> = Play {
    start: 4611686018427387776,
    calls: &[
        WRITE,
        WRITE,
        WRITE,
        WRITE,
        WRITE,
        WRITE_EMPTY,
        (Read(9), Said::Read(6, 128, Stop::Block)),
        (Shown, Number(6)),
        (Write(1, &[]), LIMIT),
        (Claim(1, 0), LIMIT),
    ],
    shown: &[
        (1, &BODY),
        (1, &BODY),
        (1, &BODY),
        (1, &BODY),
        (1, &BODY),
        (1, &[]),
    ],
    ends: (4611686018427387904, 4611686018427387904),
    ..PLAY
};
