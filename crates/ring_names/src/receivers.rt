//! `ring_ends`: ends of a broadcast buffer.

use std::alloc::Global;

/// What came of a broadcast buffer.
#[derive(Debug, Drop)]
pub struct Came {
    heard: Option<ring_ends::Heard>,
    front: [u8; 6],
    returned: Option<ring_board::RawRecord>,
    valid: bool,
    lapped: [u64; 2],
    shares: u32,
    tail: Option<u64>,
}

/// A transmitter, a receiver and a raw receiver: a message, both receivers, and the end of the broadcast buffer.
pub fn receive(alloc: Global) -> anyhow::Result<Came> {
    let mut transmitter: ring_ends::TransmitterEnd = ring_ends::open_board(alloc, 256, 0)?;
    let mut receiver: ring_ends::ReceiverEnd = transmitter.subscribe(alloc)?;
    let mut raw: ring_ends::RawReceiverEnd = transmitter.subscribe_raw()?;
    let shares = transmitter.shares();
    transmitter.check(1, 6)?;
    transmitter.transmit(1, b"first!")?;
    let mut front = [0u8; 6];
    let heard = receiver.receive(&mut front)?;
    let returned = raw.receive_next()?;
    let valid = match returned {
        Some(record) => raw.validate(&record),
        None => false,
    };
    let lapped = [receiver.lapped_count(), raw.lapped_count()];
    transmitter.join(receiver);
    transmitter.join_raw(raw);
    let tail = match transmitter.close() {
        Ok(closed) => Some(closed.tail()),
        Err(_in_use) => None,
    };
    Ok(Came {
        heard,
        front,
        returned,
        valid,
        lapped,
        shares,
        tail,
    })
}
