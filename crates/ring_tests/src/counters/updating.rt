//! Values that are added to and raised.
use crate::counters::desk::Call::{Add, Allocate, ProposeMax, Read, Set, Value};
use crate::counters::desk::Said::{Bad, Done, Id, Raised, Signed};
use crate::counters::desk::plays;
use ring_counters::IdFault;
use std::test::*;

#[test]
fn adds_and_gives_value_before(rt: HostRuntime) {
    for (before, delta, after) in [
        (0, 5, 5),
        (5, -7, -2),
        (3, 0, 3),
        (i64::MAX, 1, i64::MIN),
        (i64::MIN, -1, i64::MAX),
        (i64::MIN, i64::MIN, 0),
    ] {
        let rows = [
            (Allocate(0), Id(0)),
            (Set(0, before), Done),
            (Add(0, delta), Signed(before)),
            (Value(0), Signed(after)),
            (Read(0), Signed(after)),
            (Add(1, 1), Bad(IdFault::NotAllocated)),
            (Add(2, 1), Bad(IdFault::BadId)),
        ];
        plays(&rt, rt.alloc(), 2, 50, &rows);
    }
}

#[test]
fn raises_smaller_value_alone(rt: HostRuntime) {
    for (before, proposed, raised, after) in [
        (0, 1, true, 1),
        (4, 4, false, 4),
        (4, 3, false, 4),
        (-1, 0, true, 0),
        (i64::MAX, i64::MIN, false, i64::MAX),
    ] {
        let rows = [
            (Allocate(0), Id(0)),
            (Set(0, before), Done),
            (ProposeMax(0, proposed), Raised(raised)),
            (Value(0), Signed(after)),
            (Read(0), Signed(after)),
            (ProposeMax(1, 1), Bad(IdFault::NotAllocated)),
            (ProposeMax(2, 1), Bad(IdFault::BadId)),
        ];
        plays(&rt, rt.alloc(), 2, 50, &rows);
    }
}
