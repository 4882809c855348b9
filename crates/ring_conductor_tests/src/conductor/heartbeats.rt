//! The conductor's heartbeat, as clients load it.
use crate::conductor::bench::Answer::{Done, Heartbeat, Worked};
use crate::conductor::bench::{Answer, Call, plays};
use ring_rings::{ManyToOne, OneToOne};
use ring_service::WorkStop;

static BEATS: [(Call<'static>, Answer); 8] = [
    (Call::Heartbeat, Heartbeat(0)),
    (Call::SetHeartbeat(700), Done),
    (Call::Heartbeat, Heartbeat(700)),
    (Call::Work(9), Worked(0, WorkStop::Unpublished)),
    (Call::Heartbeat, Heartbeat(700)),
    (Call::SetHeartbeat(u64::MAX), Done),
    (Call::Heartbeat, Heartbeat(u64::MAX)),
    (Call::Receive(&[]), Done),
];

#[test]
fn clients_load_the_conductors_last_heartbeat(rt: HostRuntime) {
    plays::<OneToOne>(&rt, rt.alloc(), &BEATS);
    plays::<ManyToOne>(&rt, rt.alloc(), &BEATS);
}
