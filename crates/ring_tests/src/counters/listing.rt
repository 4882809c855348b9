//! Looks at the counters in use.
use crate::calls::Plays;
use crate::compare::same;
use crate::counters::desk::Call::{
    Allocate, AllocateOwned, AllocateWith, Count, Find, Free, Registration, Set, TypeId,
};
use crate::counters::desk::Said::{Bad, Done, Id, Number, Signed};
use crate::counters::desk::{Call, Desk, Said, begins};
use ring_counters::{IdFault, LiveCounter};
use std::process::Abort;
use std::test::*;

/// Five ids, of which 0, 2 and 3 are in use: all of type 5, with the registration ids 9, 9 and 0 and the owners 0, 0
/// and 7.
static FIVE_IDS: [(Call<'static>, Said); 7] = [
    (AllocateWith(&[7], b"first"), Id(0)),
    (Allocate(0), Id(1)),
    (AllocateWith(&[7, 8], b"second"), Id(2)),
    (AllocateOwned(7), Id(3)),
    (Set(0, 40), Done),
    (Set(2, -42), Done),
    (Free(100, 1), Done),
];

/// Tests whether the key begins with these bytes, and zeros follow.
fn has_key(counter: &LiveCounter<'_>, key: &[u8]) -> bool {
    let mut found = [1; 112];
    counter.key_into(&mut found);
    begins(&found, key)
}

fn has_label(counter: &LiveCounter<'_>, label: &[u8]) -> bool {
    let mut found = [1; 380];
    counter.label_into(&mut found) == label.len() && found.starts_with(label)
}

/// Id, value, registration id, owner, key and label.
type Facts = (u32, i64, u64, u64, &'static [u8], &'static [u8]);

/// Of the five ids those that are in use.
static IN_USE: [Facts; 3] = [
    (0, 40, 9, 0, b"\x07", b"first"),
    (2, -42, 9, 0, b"\x07\x08", b"second"),
    (3, 0, 0, 7, b"", b""),
];

/// Tests that a counter is of type 5, and has these facts.
fn has_facts(rt: &impl Abort, counter: &LiveCounter<'_>, facts: Facts) {
    let (id, value, registration, owner, key, label) = facts;
    let numbers = (counter.id(), counter.type_id(), counter.value());
    same(rt, numbers, (id, 5, value));
    let owned = (counter.registration(), counter.owner());
    same(rt, owned, (registration, owner));
    let texts = (has_key(counter, key), has_label(counter, label));
    same(rt, texts, (true, true));
}

/// Tests that the counters in use have these facts, and no more follow.
fn goes_over(rt: &impl Abort, desk: &Desk, all: &[Facts]) {
    let mut counters = desk.counters.iter();
    for facts in all {
        let counter = counters.next().expect(rt, "a counter");
        has_facts(rt, &counter, *facts);
    }
    let after = (counters.next().is_none(), counters.next().is_none());
    same(rt, after, (true, true));
}

#[test]
fn goes_over_counters_in_use(rt: HostRuntime) {
    let mut desk = Desk::new(rt.alloc(), 5, 50).expect(&rt, "a manager");
    desk.plays(&rt, &FIVE_IDS);
    goes_over(&rt, &desk, &IN_USE);
}

static LOOKS: [(Call<'static>, Said); 13] = [
    (Count, Number(5)),
    (TypeId(2), Signed(5)),
    (Registration(2), Number(9)),
    (TypeId(1), Bad(IdFault::NotAllocated)),
    (Registration(1), Bad(IdFault::NotAllocated)),
    (TypeId(5), Bad(IdFault::BadId)),
    (Registration(5), Bad(IdFault::BadId)),
    (Find(5, 9), Id(0)),
    (Find(5, 0), Id(3)),
    (Find(4, 9), Said::None),
    (Find(5, 8), Said::None),
    (Free(100, 0), Done),
    (Find(5, 9), Id(2)),
];

#[test]
fn tells_facts_and_finds_lowest_id(rt: HostRuntime) {
    let mut desk = Desk::new(rt.alloc(), 5, 50).expect(&rt, "a manager");
    desk.plays(&rt, &FIVE_IDS);
    desk.plays(&rt, &LOOKS);
}
