//! The text of each refusal: number and name.
use crate::texts::{all_tell, tells};
use ring_counters::{AllocateRefused, BadId, BadOwner, IdFault, MakeFault, NoShares, OutOfMemory};

#[test]
fn tells_why_none_is_made_or_allocated(rt: HostRuntime) {
    all_tell(
        &rt,
        rt.alloc(),
        &[
            (MakeFault::BadCount, "15 BadCount"),
            (MakeFault::OutOfMemory, "3 OutOfMemory"),
        ],
    );
    all_tell(
        &rt,
        rt.alloc(),
        &[
            (AllocateRefused::KeyTooLong, "16 KeyTooLong"),
            (AllocateRefused::LabelTooLong, "17 LabelTooLong"),
            (AllocateRefused::LabelNotAscii, "18 LabelNotAscii"),
            (AllocateRefused::NoFreeCounter, "19 NoFreeCounter"),
        ],
    );
}

#[test]
fn tells_why_ids_and_readers_are_refused(rt: HostRuntime) {
    all_tell(
        &rt,
        rt.alloc(),
        &[
            (IdFault::BadId, "20 BadId"),
            (IdFault::NotAllocated, "21 NotAllocated"),
        ],
    );
    tells(&rt, rt.alloc(), BadId, "20 BadId");
    tells(&rt, rt.alloc(), BadOwner, "28 BadOwner");
    tells(&rt, rt.alloc(), NoShares, "12 NoShares");
    tells(&rt, rt.alloc(), OutOfMemory, "3 OutOfMemory");
}
