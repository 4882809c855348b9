//! The text of each refusal: number and name.
use crate::texts::{all_tell, tells};
use ring_service::{Bad, FinishFault, SendFault, WholeFault};
use ring_storm::StormFault;

#[test]
fn tells_why_bytes_are_no_message(rt: HostRuntime) {
    all_tell(
        &rt,
        rt.alloc(),
        &[
            (Bad::Malformed { correlation: 1 }, "22 Malformed"),
            (Bad::UnknownType { correlation: 1 }, "23 UnknownType"),
        ],
    );
}

#[test]
fn tells_why_it_does_not_finish(rt: HostRuntime) {
    all_tell(
        &rt,
        rt.alloc(),
        &[
            (FinishFault::ClaimsOpen { claims: 3 }, "10 ClaimsOpen 3"),
            (FinishFault::ProducersOut { shares: 2 }, "11 ProducersOut 2"),
            (
                FinishFault::ReceiversOut { receivers: 65535 },
                "14 ReceiversOut 65535",
            ),
        ],
    );
}

#[test]
fn tells_why_a_storm_gives_no_report(rt: HostRuntime) {
    all_tell(
        &rt,
        rt.alloc(),
        &[
            (StormFault::OutOfMemory, "3 OutOfMemory"),
            (StormFault::BadPlan, "26 BadPlan"),
            (StormFault::TurnsSpent, "27 TurnsSpent"),
        ],
    );
}

#[test]
fn tells_why_a_command_is_not_sent(rt: HostRuntime) {
    let text = "the command takes more than 520 bytes";
    tells(&rt, rt.alloc(), SendFault::TooLong, text);
    tells(
        &rt,
        rt.alloc(),
        WholeFault::NotSent(SendFault::TooLong),
        text,
    );
    tells(&rt, rt.alloc(), WholeFault::OutOfMemory, "out of memory");
}
