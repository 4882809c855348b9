//! Plays of reads near the end of the buffer: on after it, and up to a message at which the handler breaks off.
use crate::play::call::Call;
use crate::play::call::Call::{
    Claim, Commit, ControlledRead, MaxMessage, Positions, Read, ReadAcross, Shown, Used, Write,
};
use crate::play::call::Said::{self, At, Done, Made, Number, Stands};
use crate::play::{PLAY, Play};
use ring_rings::{Action, Standing, Stop};

const WRITE: (Call<'static>, Said) = (Write(1, &[0; 16]), Done);

/// Padding of 16 bytes, and a record of 24 after it.
pub static PADDED: Play<'static> = Play {
    calls: &[
        WRITE,
        WRITE,
        WRITE,
        WRITE,
        (Write(1, &[0; 8]), Done),
        (Read(9), Said::Read(5, 112, Stop::Unpublished)),
        (Write(2, &[7; 16]), Done),
        (Positions, At(112, 152)),
        (Used, Number(40)),
        (ReadAcross(9), Said::Read(1, 40, Stop::Unpublished)),
        (Used, Number(0)),
        (Positions, At(152, 152)),
    ],
    shown: &[
        (1, &[0; 16]),
        (1, &[0; 16]),
        (1, &[0; 16]),
        (1, &[0; 16]),
        (1, &[0; 8]),
        (2, &[7; 16]),
    ],
    ends: (152, 152),
    ..PLAY
};

/// One up to the end of the buffer, and two of the three after it.
pub static LIMITED: Play<'static> = Play {
    calls: &[
        WRITE,
        WRITE,
        WRITE,
        WRITE,
        (Write(1, &[0; 8]), Done),
        (Read(9), Said::Read(5, 112, Stop::Unpublished)),
        (Write(3, &[1; 8]), Done),
        (Write(3, &[2; 8]), Done),
        (Write(3, &[3; 8]), Done),
        (Write(3, &[4; 8]), Done),
        (ReadAcross(3), Said::Read(3, 48, Stop::Limit)),
        (Shown, Number(8)),
        (Read(9), Said::Read(1, 16, Stop::Unpublished)),
    ],
    shown: &[
        (1, &[0; 16]),
        (1, &[0; 16]),
        (1, &[0; 16]),
        (1, &[0; 16]),
        (1, &[0; 8]),
        (3, &[1; 8]),
        (3, &[2; 8]),
        (3, &[3; 8]),
        (3, &[4; 8]),
    ],
    ends: (176, 176),
    ..PLAY
};

pub static BROKEN: Play<'static> = Play {
    actions: &[
        Action::Continue,
        Action::Continue,
        Action::Continue,
        Action::Continue,
        Action::Break,
        Action::Break,
    ],
    calls: &[
        WRITE,
        WRITE,
        WRITE,
        WRITE,
        (Read(9), Said::Read(4, 96, Stop::Unpublished)),
        (Write(2, &[0; 8]), Done),
        (Write(3, &[0; 16]), Done),
        (ControlledRead(9), Said::Read(1, 16, Stop::Action)),
        // The padding up to the end of the buffer.
        (ControlledRead(9), Said::Read(0, 16, Stop::Block)),
        (ControlledRead(9), Said::Read(1, 24, Stop::Action)),
    ],
    shown: &[
        (1, &[0; 16]),
        (1, &[0; 16]),
        (1, &[0; 16]),
        (1, &[0; 16]),
        (2, &[0; 8]),
        (3, &[0; 16]),
    ],
    ends: (152, 152),
    ..PLAY
};

/// A read finds an empty ring, and then an open claim.
pub static BLOCKED: Play<'static> = Play {
    calls: &[
        (MaxMessage, Number(16)),
        (Call::Standing(9), Stands(Standing::Empty)),
        (Claim(1, 4), Made(0, 8, 4)),
        (Call::Standing(9), Stands(Standing::Blocked { head: 0 })),
        (Commit, Done),
    ],
    ends: (0, 16),
    ..PLAY
};
