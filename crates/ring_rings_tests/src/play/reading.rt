//! Plays of how far reads go, and of what the handler's actions do.
use crate::play::call::Call::{
    Abort, Claim, Commit, ControlledRead, Positions, Read, Shown, Write,
};
use crate::play::call::Said::{At, Done, Made, MadeEmpty, Number};
use crate::play::call::{Call, Said};
use crate::play::{PLAY, Play};
use crate::script::BODY;
use ring_rings::{Action, Stop};

const WRITE: (Call<'static>, Said) = (Write(1, &BODY), Done);

const EIGHT: [u8; 8] = [0, 1, 2, 3, 4, 5, 6, 7];

pub static COMMITTED: Play<'static> = Play {
    calls: &[
        (Claim(7, 5), Made(0, 8, 5)),
        (Commit, Done),
        (Claim(9, 0), MadeEmpty(16, 24)),
        (Commit, Done),
        (Read(9), Said::Read(2, 24, Stop::Unpublished)),
        (Read(9), Said::Read(0, 0, Stop::Unpublished)),
    ],
    shown: &[(7, &[0; 5]), (9, &[])],
    ends: (24, 24),
    ..PLAY
};

/// A body of three bytes, which nothing was put into.
pub static SHORT: Play<'static> = Play {
    calls: &[
        (Claim(4, 3), Made(0, 8, 3)),
        (Commit, Done),
        (Read(9), Said::Read(1, 16, Stop::Unpublished)),
    ],
    shown: &[(4, &[0; 3])],
    ends: (16, 16),
    ..PLAY
};

pub static LIMITED: Play<'static> = Play {
    calls: &[
        (Write(1, &[]), Done),
        (Write(2, &[]), Done),
        (Write(3, &[]), Done),
        (Read(0), Said::Read(0, 0, Stop::Limit)),
        (Read(2), Said::Read(2, 16, Stop::Limit)),
        (ControlledRead(1), Said::Read(1, 8, Stop::Limit)),
    ],
    shown: &[(1, &[]), (2, &[]), (3, &[])],
    ends: (24, 24),
    ..PLAY
};

pub static AROUND: Play<'static> = Play {
    calls: &[
        WRITE,
        WRITE,
        WRITE,
        WRITE,
        (Write(2, &EIGHT), Done),
        (Read(9), Said::Read(5, 112, Stop::Unpublished)),
        (Write(3, &BODY), Done),
        (Read(9), Said::Read(0, 16, Stop::Block)),
        (Read(9), Said::Read(1, 24, Stop::Unpublished)),
    ],
    shown: &[
        (1, &BODY),
        (1, &BODY),
        (1, &BODY),
        (1, &BODY),
        (2, &EIGHT),
        (3, &BODY),
    ],
    ends: (152, 152),
    words: &[(14, Some(0))],
    ..PLAY
};

pub static LEFT_FIRST: Play<'static> = Play {
    actions: &[Action::Abort, Action::Continue, Action::Abort],
    calls: &[
        (Claim(1, 0), MadeEmpty(0, 8)),
        (Abort, Done),
        (Write(1, &[0]), Done),
        (Write(2, &[]), Done),
        (ControlledRead(9), Said::Read(0, 8, Stop::Action)),
        (ControlledRead(9), Said::Read(1, 16, Stop::Action)),
        (Read(9), Said::Read(1, 8, Stop::Unpublished)),
    ],
    shown: &[(1, &[0]), (1, &[0]), (2, &[]), (2, &[])],
    ends: (32, 32),
    ..PLAY
};

pub static LEFT_LAST: Play<'static> = Play {
    actions: &[
        Action::Continue,
        Action::Commit,
        Action::Abort,
        Action::Abort,
    ],
    calls: &[
        (Write(1, &[]), Done),
        (Write(2, &[]), Done),
        (Write(3, &[]), Done),
        (ControlledRead(9), Said::Read(2, 16, Stop::Action)),
        (Shown, Number(3)),
        (Read(0), Said::Read(0, 0, Stop::Limit)),
        (Shown, Number(3)),
        (Read(9), Said::Read(1, 8, Stop::Unpublished)),
    ],
    shown: &[(1, &[]), (2, &[]), (3, &[]), (3, &[])],
    ends: (24, 24),
    ..PLAY
};

pub static LEFT_BEHIND: Play<'static> = Play {
    actions: &[Action::Abort],
    calls: &[
        (Claim(1, 0), MadeEmpty(0, 8)),
        (Abort, Done),
        (Write(2, &[]), Done),
        (ControlledRead(9), Said::Read(0, 8, Stop::Action)),
        (Read(9), Said::Read(1, 8, Stop::Unpublished)),
        (Claim(1, 9), Made(16, 24, 9)),
        (Abort, Done),
        (Claim(2, 0), MadeEmpty(40, 48)),
        (Commit, Done),
        (Read(9), Said::Read(1, 32, Stop::Unpublished)),
    ],
    shown: &[(2, &[]), (2, &[]), (2, &[])],
    ends: (48, 48),
    ..PLAY
};

pub static BROKEN: Play<'static> = Play {
    actions: &[Action::Break],
    calls: &[
        (Write(1, &[]), Done),
        (Write(2, &[]), Done),
        (ControlledRead(9), Said::Read(1, 8, Stop::Action)),
        (ControlledRead(9), Said::Read(1, 8, Stop::Unpublished)),
    ],
    shown: &[(1, &[]), (2, &[])],
    ends: (16, 16),
    ..PLAY
};

pub static BROKEN_AFTER_COMMIT: Play<'static> = Play {
    actions: &[Action::Commit, Action::Abort, Action::Break],
    calls: &[
        (Write(1, &[]), Done),
        (Write(2, &[]), Done),
        (ControlledRead(9), Said::Read(1, 8, Stop::Action)),
        (Shown, Number(2)),
        (Positions, At(8, 16)),
        (ControlledRead(1), Said::Read(1, 8, Stop::Action)),
        (Read(0), Said::Read(0, 0, Stop::Limit)),
        (Positions, At(16, 16)),
    ],
    shown: &[(1, &[]), (2, &[]), (2, &[])],
    ends: (16, 16),
    ..PLAY
};

pub static ALL_ACTIONS: Play<'static> = Play {
    actions: &[Action::Abort, Action::Break, Action::Commit],
    calls: &[
        (Write(1, &[]), Done),
        (Write(1, &[]), Done),
        (Write(1, &[]), Done),
        (Read(9), Said::Read(3, 24, Stop::Unpublished)),
    ],
    shown: &[(1, &[]), (1, &[]), (1, &[])],
    ends: (24, 24),
    ..PLAY
};
