//! Worked examples of the manager.
ghost use Rattle.std.specs.Prelude.{◌≤◌};

use crate::compare::same;
use crate::counters::desk::Call::{
    Allocate, AllocateOwned, AllocateWith, CloseOwner, Deadline, Free, Owner, Read, Set, State,
    Value, Words,
};
use crate::counters::desk::Said::{Bad, Done, Id, NoOwner, Number, Refused, Signed};
use crate::counters::desk::{Call, Desk, Said, begins, plays};
use ring_counters::{AllocateRefused, CounterInfo, IdFault, MakeFault};
use std::alloc::Global;
use std::process::Abort;
use std::test::*;

type Row = (Call<'static>, Said);

/// An id is given again from its deadline on.
static AGAIN: [Row; 7] = [
    (Allocate(0), Id(0)),
    (Set(0, 7), Done),
    (Value(0), Signed(7)),
    (Free(100, 0), Done),
    (Allocate(149), Id(1)),
    (Allocate(150), Id(0)),
    (Value(0), Signed(0)),
];

/// The only id is freed, and not due yet.
static NONE_DUE: [Row; 3] = [
    (Allocate(0), Id(0)),
    (Free(100, 0), Done),
    (Allocate(149), Refused(AllocateRefused::NoFreeCounter)),
];

/// The id that was freed later is due earlier.
static DUE_EARLIER: [Row; 6] = [
    (Allocate(0), Id(0)),
    (Allocate(0), Id(1)),
    (Free(100, 0), Done),
    (Free(50, 1), Done),
    (Allocate(120), Id(1)),
    (Allocate(150), Id(0)),
];

/// Ids that are due are given in order of freeing.
static IN_ORDER: [Row; 8] = [
    (Allocate(0), Id(0)),
    (Allocate(0), Id(1)),
    (Allocate(0), Id(2)),
    (Free(5, 2), Done),
    (Free(5, 0), Done),
    (Allocate(5), Id(2)),
    (Allocate(5), Id(0)),
    (Allocate(5), Id(3)),
];

#[test]
fn gives_ids_again_once_they_are_due(rt: HostRuntime) {
    plays(&rt, rt.alloc(), 4, 50, &AGAIN);
    plays(&rt, rt.alloc(), 1, 50, &NONE_DUE);
    plays(&rt, rt.alloc(), 4, 50, &DUE_EARLIER);
    plays(&rt, rt.alloc(), 4, 0, &IN_ORDER);
}

static REFUSALS: [Row; 7] = [
    (
        AllocateWith(&[0; 113], &[0; 381]),
        Refused(AllocateRefused::KeyTooLong),
    ),
    (
        AllocateWith(&[], &[0; 381]),
        Refused(AllocateRefused::LabelTooLong),
    ),
    (
        AllocateWith(&[], &[128]),
        Refused(AllocateRefused::LabelNotAscii),
    ),
    (Set(4, 1), Bad(IdFault::BadId)),
    (Allocate(0), Id(0)),
    (Free(100, 0), Done),
    (Free(100, 0), Bad(IdFault::NotAllocated)),
];

#[test]
fn refuses_counts_texts_and_ids(rt: HostRuntime) {
    let none = Desk::new(rt.alloc(), 0, 50).err();
    let many = Desk::new(rt.alloc(), 4097, 50).err();
    same(&rt, [none, many], [Some(MakeFault::BadCount); 2]);
    plays(&rt, rt.alloc(), 4, 50, &REFUSALS);
}

static WORDS: [Row; 8] = [
    (AllocateWith(&[1, 2], &[b'a', b'b']), Id(0)),
    (Words(0, 0, 1), Said::Words(0x0000_0005_0000_0001, 9)),
    (Words(0, 1, 1), Said::Words(0x7FFF_FFFF_FFFF_FFFF, 9)),
    (Words(0, 2, 1), Said::Words(0x0000_0000_0000_0201, 9)),
    (Words(0, 16, 1), Said::Words(0x0000_6261_0000_0002, 9)),
    (Free(100, 0), Done),
    (Words(0, 0, 1), Said::Words(0x0000_0005_FFFF_FFFF, 9)),
    (Words(0, 1, 1), Said::Words(150, 9)),
];

static OWNERS: [Row; 15] = [
    (AllocateOwned(9), Id(0)),
    (AllocateOwned(8), Id(1)),
    (AllocateOwned(9), Id(2)),
    (Owner(1), Number(8)),
    (CloseOwner(100, 9), Number(2)),
    (CloseOwner(100, 0), NoOwner),
    (State(0), Signed(-1)),
    (State(1), Signed(1)),
    (State(2), Signed(-1)),
    (State(3), Signed(0)),
    (Deadline(2), Number(150)),
    (Words(0, 1, 2), Said::Words(150, 9)),
    (Allocate(150), Id(0)),
    (Allocate(150), Id(2)),
    (Allocate(150), Id(3)),
];

/// What readers load, which go back with their shares.
static READS: [Row; 9] = [
    (Read(0), Signed(0)),
    (Read(4), Bad(IdFault::BadId)),
    (Allocate(0), Id(0)),
    (Set(0, -42), Done),
    (Read(0), Signed(-42)),
    (Free(100, 0), Done),
    (Read(0), Signed(-42)),
    (Allocate(150), Id(0)),
    (Read(0), Signed(0)),
];

#[test]
fn lays_out_words_closes_owners_and_is_read(rt: HostRuntime) {
    plays(&rt, rt.alloc(), 4, 50, &WORDS);
    plays(&rt, rt.alloc(), 4, 50, &OWNERS);
    plays(&rt, rt.alloc(), 4, 50, &READS);
}

#[test]
fn copies_key_and_label(rt: HostRuntime) {
    let mut desk = Desk::new(rt.alloc(), 4, 50).expect(&rt, "a manager");
    same(&rt, desk.allocate_with(&[1, 2], b"ab"), Ok(0));
    let mut key = [9; 112];
    same(&rt, desk.counters.key_into(0, &mut key), Ok(()));
    same(&rt, begins(&key, &[1, 2]), true);
    let mut label = [9; 380];
    same(&rt, desk.counters.label_into(0, &mut label), Ok(2));
    same(&rt, begins(&label, b"ab"), true);
}

/// Allocates 4,096 counters at a moment, whose ids come in order.
fn allocate_all(rt: &impl Abort, desk: &mut Desk, now: u64) {
    for id in 0..4096u32 {
        same(rt, desk.allocate(now), Ok(id));
    }
}

/// Frees 4,096 counters, each at the moment of its id, and tests that none is due until then.
fn free_all(rt: &impl Abort, desk: &mut Desk) {
    for id in 0..4096u32 {
        same(rt, desk.free(u64::from(id), id), Ok(()));
    }
    for now in 0..4096u64 {
        same(rt, desk.allocate(now), Err(AllocateRefused::NoFreeCounter));
    }
}

/// No call of these looks at all the counters.
#[test]
fn reuses_all_counters(rt: HostRuntime) {
    let mut desk = Desk::new(rt.alloc(), 4096, 1_000_000).expect(&rt, "a manager");
    allocate_all(&rt, &mut desk, 0);
    free_all(&rt, &mut desk);
    allocate_all(&rt, &mut desk, 1_004_095);
}

/// The last digit of a number.
fn digit(number: u32) -> u8 {
    b'0' + (number % 10) as u8
}

/// The label of one of many counters: its id in four digits.
fn label_of(id: u32) -> [u8; 4] {
    [digit(id / 1000), digit(id / 100), digit(id / 10), digit(id)]
}

/// The value of one of many counters.
fn value_of(id: u32) -> i64 {
    i64::from(u32::MAX - id)
}

/// Allocates 4,096 counters, each with its label and its value.
fn fill(rt: &impl Abort, desk: &mut Desk) {
    for id in 0..4096u32 {
        same(rt, desk.allocate_with(&[7], &label_of(id)), Ok(id));
        same(rt, desk.set(id, value_of(id)), Ok(()));
    }
}

/// Tests that this is what `fill` made of an id.
fn is_listed(rt: &impl Abort, id: u32, info: &CounterInfo) {
    same(
        rt,
        (info.id, info.value, info.key[0]),
        (id, value_of(id), 7),
    );
    same(rt, (info.type_id, info.registration, info.owner), (5, 9, 0));
    same(rt, info.label.as_slice(), label_of(id).as_slice());
}

/// Tests that all counters from an id on are listed, and no others.
fn lists_from(rt: &impl Abort, alloc: Global, desk: &Desk, first: u32)
    requires { first ≤ 4096 }
{
    let live = desk.live(alloc).expect(rt, "a list");
    same(rt, live.len(), 4096 - first as usize);
    for (id, info) in (first..4096).zip(live.iter()) {
        is_listed(rt, id, info);
    }
}

/// But a freed one.
#[test]
fn lists_all_counters(rt: HostRuntime) {
    let mut desk = Desk::new(rt.alloc(), 4096, 0).expect(&rt, "a manager");
    fill(&rt, &mut desk);
    lists_from(&rt, rt.alloc(), &desk, 0);
    same(&rt, desk.free(100, 0), Ok(()));
    lists_from(&rt, rt.alloc(), &desk, 1);
}
