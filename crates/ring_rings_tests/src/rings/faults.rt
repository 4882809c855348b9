//! The text of each refusal: number and name.
use crate::texts::{all_tell, tells};
use ring_rings::{ClaimFault, CloseFault, NoShares, TryFault};

#[test]
fn tells_why_nothing_is_claimed_at_once(rt: HostRuntime) {
    all_tell(
        &rt,
        rt.alloc(),
        &[
            (
                TryFault::from(ClaimFault::BadType { type_id: -7 }),
                "4 BadType -7",
            ),
            (
                TryFault::from(ClaimFault::TooLong { len: 17, max: 16 }),
                "5 TooLong 17 max 16",
            ),
            (
                TryFault::from(ClaimFault::PositionLimit {
                    tail: 4611686018427387904,
                }),
                "6 PositionLimit tail 4611686018427387904",
            ),
            (
                TryFault::from(ClaimFault::InsufficientCapacity { tail: 120, head: 0 }),
                "7 InsufficientCapacity tail 120 head 0",
            ),
            (
                TryFault::Contended { tail: 8, seen: 24 },
                "8 Contended tail 8 seen 24",
            ),
        ],
    );
}

#[test]
fn tells_why_it_is_not_closed_or_split(rt: HostRuntime) {
    all_tell(
        &rt,
        rt.alloc(),
        &[
            (CloseFault::ClaimsOpen { claims: 3 }, "10 ClaimsOpen 3"),
            (CloseFault::ProducersOut { shares: 5 }, "11 ProducersOut 5"),
        ],
    );
    tells(&rt, rt.alloc(), NoShares, "12 NoShares");
}
