//! The text of each refusal: number and name.
use crate::texts::{all_tell, tells};
use ring_words::{ClaimFault, MakeFault, PutRange};

#[test]
fn tells_why_no_ring_is_made(rt: HostRuntime) {
    all_tell(
        &rt,
        rt.alloc(),
        &[
            (MakeFault::BadCapacity, "1 BadCapacity"),
            (MakeFault::BadStart, "2 BadStart"),
            (MakeFault::OutOfMemory, "3 OutOfMemory"),
        ],
    );
}

#[test]
fn tells_why_nothing_is_claimed(rt: HostRuntime) {
    all_tell(
        &rt,
        rt.alloc(),
        &[
            (ClaimFault::BadType { type_id: -7 }, "4 BadType -7"),
            (ClaimFault::BadType { type_id: 0 }, "4 BadType 0"),
            (
                ClaimFault::TooLong { len: 17, max: 16 },
                "5 TooLong 17 max 16",
            ),
            (
                ClaimFault::PositionLimit {
                    tail: 4611686018427387904,
                },
                "6 PositionLimit tail 4611686018427387904",
            ),
            (
                ClaimFault::InsufficientCapacity { tail: 120, head: 0 },
                "7 InsufficientCapacity tail 120 head 0",
            ),
        ],
    );
    tells(&rt, rt.alloc(), PutRange, "9 PutRange");
}
