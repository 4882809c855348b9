//! `ring_ends`: a conductor, and the ends that it gives.

use ring_ends::StopFault;
use std::alloc::Global;

/// What came of a conductor.
#[derive(Debug, Drop)]
pub struct Came {
    correlation: u64,
    work: ring_conductor::Work,
    polled: ring_conductor::Polled,
    heard: Option<ring_ends::Heard>,
    front: [u8; 12],
    value: Option<i64>,
    heartbeat: u64,
    refused: [bool; 2],
    shares: [u32; 2],
    ended: (u64, ring_rings::Positions, u64),
}

/// A conductor of these sizes, or why it was not made.
type Made = Result<ring_ends::ConductorEnd, ring_ends::ConductorFault>;

/// A command that asks for a counter.
const ALLOCATE: ring_conductor::Request<&[u8]> = ring_conductor::Request::Allocate {
    type_id: 1,
    key: &[],
    label: b"count",
};

/// A conductor takes two commands of a client. The client and a receiver copy the reply to the first one, and a reader
/// loads the counter. The conductor does not finish while the receiver is out, or while the reader has the values. After
/// that it finishes.
pub fn serve(alloc: Global) -> anyhow::Result<Option<Came>> {
    let sizes = ring_ends::Sizes {
        capacity: 256,
        replies: 256,
        counters: 4,
        reuse_ms: 50,
    };
    let made: Made = ring_ends::ConductorEnd::new(alloc, sizes);
    let mut conductor = made?;
    let mut client: ring_ends::ClientEnd = conductor.client(alloc)?;
    let mut receiver = conductor.subscribe(alloc)?;
    let Ok(mut reader) = conductor.reader() else {
        return Ok(None);
    };
    let left = conductor.counters().value_shares();
    conductor.set_heartbeat(7);
    let heartbeat = client.heartbeat();
    let correlation = client.send(ALLOCATE)?;
    client.send(ring_conductor::Request::Set { id: 0, value: 5 })?;
    let work = conductor.do_work(0, 9);
    let polled = client.poll(correlation);
    let mut front = [0; 12];
    let heard = receiver.receive(&mut front)?;
    let value = reader.load(0).ok();
    conductor.join(client);
    let ended: Result<ring_conductor::Finished, ring_ends::NotFinished> = conductor.finish();
    let Err(out) = ended else {
        return Ok(None);
    };
    let mut conductor = out.conductor;
    conductor.join_receiver(receiver);
    let Err(in_use) = conductor.finish() else {
        return Ok(None);
    };
    let Err(mut conductor) = in_use.conductor.finish_without() else {
        return Ok(None);
    };
    conductor.join_reader(reader);
    let shares = [left, conductor.counters().value_shares()];
    let Ok(finished) = conductor.finish() else {
        return Ok(None);
    };
    Ok(Some(Came {
        correlation,
        work,
        polled,
        heard,
        front,
        value,
        heartbeat,
        refused: [
            matches!(out.reason, StopFault::Refused(_)),
            in_use.reason == StopFault::InUse,
        ],
        shares,
        ended: (
            finished.received,
            finished.rest.positions(),
            finished.board.intent(),
        ),
    }))
}
