//! The ring of one owner, as its messages come and go.
use crate::compare::same;
use crate::play::call::Call;
use crate::play::call::Call::{
    Abort, Claim, Commit, ControlledRead, Drain, Positions, Put, Read, Shown, Word, Write,
};
use crate::play::call::Said::{self, At, Done, Made, MadeEmpty, Number};
use crate::play::claims::{
    FIRST_ABORTED, OUTSIDE, OUTSIDE_AND_READ, OVER, OVER_AND_READ, SECOND_FIRST,
};
use crate::play::reading::{
    AROUND, BROKEN, BROKEN_AFTER_COMMIT, LEFT_BEHIND, LEFT_FIRST, LEFT_LAST,
};
use crate::play::writing::{FILLED, HEADER, LAST_POSITION, OVERFILLED, PADDED, RECORD, TYPE_FIRST};
use crate::play::{PLAY, Play, plays_alone};
use crate::script::BODY;
use ring_words::{Action, MakeFault, SoloRing, Stop};

const WRITE: (Call<'static>, Said) = (Write(1, &BODY), Done);

const WRITE_EMPTY: (Call<'static>, Said) = (Write(1, &[]), Done);

#[test]
fn stores_records_little_endian(rt: HostRuntime) {
    plays_alone(&rt, rt.alloc(), &RECORD);
}

#[test]
fn stores_an_empty_message_as_its_header(rt: HostRuntime) {
    plays_alone(&rt, rt.alloc(), &HEADER);
}

#[test]
fn wraps_with_padding(rt: HostRuntime) {
    plays_alone(&rt, rt.alloc(), &PADDED);
    plays_alone(&rt, rt.alloc(), &AROUND);
}

static DRAINED: Play<'static> = Play {
    calls: &[
        WRITE,
        WRITE,
        WRITE,
        (Drain, Number(3)),
        WRITE,
        WRITE,
        WRITE,
        (Claim(1, 8), Made(152, 32, 8)),
        WRITE_EMPTY,
        // Over the end of the buffer, and up to the claim.
        (Drain, Number(3)),
        (Drain, Number(0)),
        (Positions, At(152, 176)),
    ],
    ends: (152, 176),
    ..PLAY
};

#[test]
fn drains_up_to_an_open_claim(rt: HostRuntime) {
    plays_alone(&rt, rt.alloc(), &DRAINED);
}

#[test]
fn refuses_in_order(rt: HostRuntime) {
    plays_alone(&rt, rt.alloc(), &TYPE_FIRST);
    plays_alone(&rt, rt.alloc(), &OVERFILLED);
}

#[test]
fn fills_up_to_the_end_without_padding(rt: HostRuntime) {
    plays_alone(&rt, rt.alloc(), &FILLED);
}

#[test]
fn waits_for_an_open_claim(rt: HostRuntime) {
    plays_alone(&rt, rt.alloc(), &SECOND_FIRST);
}

#[test]
fn passes_an_aborted_claim(rt: HostRuntime) {
    plays_alone(&rt, rt.alloc(), &FIRST_ABORTED);
}

static OPEN: Play<'static> = Play {
    calls: &[
        (Claim(3, 8), Made(0, 8, 8)),
        (Word(0), Said::Word(Some(0x0000_0003_FFFF_FFF0))),
        (Put(3, &[0xAA, 0xBB]), Done),
        (Commit, Done),
        (Read(9), Said::Read(1, 16, Stop::Unpublished)),
    ],
    shown: &[(3, &[0, 0, 0, 0xAA, 0xBB, 0, 0, 0])],
    ends: (16, 16),
    ..PLAY
};

#[test]
fn puts_bytes_into_a_claim(rt: HostRuntime) {
    plays_alone(&rt, rt.alloc(), &OPEN);
}

#[test]
fn refuses_bytes_outside_a_claim(rt: HostRuntime) {
    plays_alone(&rt, rt.alloc(), &OUTSIDE);
    plays_alone(&rt, rt.alloc(), &OUTSIDE_AND_READ);
}

#[test]
fn puts_bytes_across_words(rt: HostRuntime) {
    plays_alone(&rt, rt.alloc(), &OVER);
    plays_alone(&rt, rt.alloc(), &OVER_AND_READ);
}

#[test]
fn leaves_an_aborted_message(rt: HostRuntime) {
    plays_alone(&rt, rt.alloc(), &LEFT_FIRST);
    plays_alone(&rt, rt.alloc(), &LEFT_LAST);
    plays_alone(&rt, rt.alloc(), &LEFT_BEHIND);
}

#[test]
fn takes_the_message_of_a_break(rt: HostRuntime) {
    plays_alone(&rt, rt.alloc(), &BROKEN);
    plays_alone(&rt, rt.alloc(), &BROKEN_AFTER_COMMIT);
}

static PASSED_FIRST: Play<'static> = Play {
    actions: &[Action::Abort],
    calls: &[
        (Claim(1, 0), MadeEmpty(0, 8)),
        (Abort, Done),
        (Write(2, &[]), Done),
        (ControlledRead(9), Said::Read(0, 8, Stop::Action)),
        (Shown, Number(1)),
        (Claim(3, 0), MadeEmpty(16, 24)),
        (Abort, Done),
    ],
    shown: &[(2, &[])],
    ends: (8, 24),
    ..PLAY
};

#[test]
fn keeps_passed_records_before_an_aborted_message(rt: HostRuntime) {
    plays_alone(&rt, rt.alloc(), &PASSED_FIRST);
}

#[test]
fn ends_at_the_last_position(rt: HostRuntime) {
    plays_alone(&rt, rt.alloc(), &LAST_POSITION);
}

#[test]
fn refuses_unlawful_capacities_and_starts(rt: HostRuntime) {
    for capacity in [100, 64, 33554432] {
        same(
            &rt,
            SoloRing::new(rt.alloc(), capacity).err(),
            Some(MakeFault::BadCapacity),
        );
    }
    for start in [64, 4611686018427388032] {
        same(
            &rt,
            SoloRing::new_at(rt.alloc(), 128, start).err(),
            Some(MakeFault::BadStart),
        );
    }
}
