//! `ring_ends`: claims and other things that have numbers, and a broadcast buffer with numbered receivers.

use std::alloc::Global;

/// What came of a producer with numbered claims.
#[derive(Debug, Drop)]
pub struct Claims {
    claimed: ring_ends::Claimed,
    settled: [Result<(), ring_ends::NumberFault>; 4],
    too_long: Option<ring_ends::ClaimRefused>,
    written: usize,
    tail: u64,
    shares: u32,
}

/// A producer with numbered claims.
type Producer = ring_ends::NumberedEnd<ring_rings::ManyToOne, ring_rings::InSlots>;

/// A claim is made, filled and committed by its number, and another one is left open.
pub fn settle(alloc: Global) -> anyhow::Result<Option<Claims>> {
    let (end, _consumer) = ring_ends::open(alloc, 256, 0)?;
    let mut producer: Producer = ring_ends::NumberedEnd::of(alloc, end);
    let Ok(other) = producer.split(alloc) else {
        return Ok(None);
    };
    let Ok(()) = producer.join(other) else {
        return Ok(None);
    };
    let Ok(claimed) = producer.claim(1, 5) else {
        return Ok(None);
    };
    let settled = [
        producer.put(claimed.number, 0, b"first"),
        producer.put(claimed.number, 1, b"first"),
        producer.commit(claimed.number),
        producer.abort(claimed.number),
    ];
    let too_long = producer.claim(2, 33).err();
    let third = ring_rings::Outgoing {
        type_id: 3,
        body: b"third",
    };
    let written = producer.write_batch(&[third])?;
    let _open = producer.claim(4, 1);
    let mut end = producer.into_end();
    Ok(Some(Claims {
        claimed,
        settled,
        too_long,
        written,
        tail: end.positions().tail,
        shares: end.shares(),
    }))
}

/// What came of a broadcast buffer with numbered receivers.
#[derive(Debug, Drop)]
pub struct Came {
    number: usize,
    place: u64,
    type_id: i32,
    len: usize,
    left: [Option<()>; 2],
    tail: u64,
}

/// A message is transmitted, and the receiver of number 1 receives it.
pub fn board(alloc: Global) -> anyhow::Result<Option<Came>> {
    let mut board = ring_ends::StandaloneBoard::new(alloc, 256)?;
    let number = board.subscribe(alloc)??;
    board.transmit(1, b"first!")?;
    let received = board.receive(alloc, number);
    let Some(
        Ok(
            ring_ends::Received::Copy {
                place,
                type_id,
                body,
            },
        ),
    ) = received
    else {
        return Ok(None);
    };
    let left = [board.leave(number), board.leave(number)];
    Ok(Some(Came {
        number,
        place,
        type_id,
        len: body.len(),
        left,
        tail: board.close().tail(),
    }))
}

/// What is kept by number: the number, what is kept, and whether claims, a receiver or what a conductor lends are.
pub fn kept(alloc: Global) -> anyhow::Result<(usize, Option<u32>, [bool; 4])> {
    let mut numbered = ring_ends::Numbered::new(alloc);
    numbered.reserve()?;
    let number = numbered.hold(5u32);
    let claims: Option<ring_ends::OpenClaims> = None;
    let shared: Option<ring_ends::Shared> = None;
    let lender: Option<ring_ends::Lender<ring_board::Board>> = None;
    let (board, _transmitter) = ring_board::Board::new(alloc, 256)?;
    let mut receivers = ring_ends::Numbered::new(alloc);
    let received = ring_ends::receive_at(alloc, &board, &mut receivers, 1);
    Ok((
        number,
        numbered.take(number),
        [
            claims.is_some(),
            received.is_some(),
            shared.is_some(),
            lender.is_some(),
        ],
    ))
}
