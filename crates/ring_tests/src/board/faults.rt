//! The text of each refusal: number and name.
use crate::texts::{all_tell, tells};
use ring_board::{Lapped, MakeFault, NoShares, ReceiversOut, SubscribeFault, TransmitFault};

#[test]
fn tells_why_no_board_is_made(rt: HostRuntime) {
    all_tell(
        &rt,
        rt.alloc(),
        &[
            (MakeFault::BadCapacity, "1 BadCapacity"),
            (MakeFault::BadStart, "2 BadStart"),
            (MakeFault::OutOfMemory, "3 OutOfMemory"),
        ],
    );
}

#[test]
fn tells_why_nothing_is_transmitted(rt: HostRuntime) {
    all_tell(
        &rt,
        rt.alloc(),
        &[
            (TransmitFault::BadType { type_id: -7 }, "4 BadType -7"),
            (
                TransmitFault::TooLong { len: 33, max: 32 },
                "5 TooLong 33 max 32",
            ),
            (
                TransmitFault::PositionLimit { tail: 8 },
                "6 PositionLimit tail 8",
            ),
        ],
    );
}

#[test]
fn tells_what_receivers_are_refused(rt: HostRuntime) {
    let lapped = Lapped {
        count: 1,
        place: 0,
        intent: 256,
    };
    all_tell(
        &rt,
        rt.alloc(),
        &[
            (SubscribeFault::OutOfMemory, "3 OutOfMemory"),
            (SubscribeFault::NoShares, "12 NoShares"),
        ],
    );
    tells(&rt, rt.alloc(), NoShares, "12 NoShares");
    tells(&rt, rt.alloc(), lapped, "13 Lapped 1 place 0 intent 256");
    let out = ReceiversOut { receivers: 1 };
    tells(&rt, rt.alloc(), out, "14 ReceiversOut 1");
}
