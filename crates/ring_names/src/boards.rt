//! `ring_board`: a broadcast buffer, its transmitter and its receivers.

ghost use Rattle.std.specs.Prelude.{◌≡◌, IfOk, IfSome};
ghost use Rattle.ring_board.specs.Seats.{IsRawOf, IsTransmitterOf};

use std::alloc::Global;

/// The codes of what the calls refuse.
#[derive(Debug, Drop)]
pub struct Refusals {
    bad_type: i32,
    begin: i32,
    close: i32,
}

/// What a closed broadcast buffer has.
#[derive(Debug, Drop)]
pub struct Closed {
    intent: u64,
    tail: u64,
    latest: u64,
    word: Option<u64>,
}

/// What it came to.
#[derive(Debug, Drop)]
pub struct Came {
    place: u64,
    type_id: i32,
    body: [u8; 6],
    lapped: u64,
    shares: u32,
    capacity: u32,
    closed: Closed,
}

fn end_of(board: &ring_board::ClosedBoard) -> Closed {
    Closed {
        intent: board.intent(),
        tail: board.tail(),
        latest: board.latest(),
        word: board.word(0),
    }
}

/// Makes a broadcast buffer.
fn open(
    alloc: Global,
) -> Result<(ring_board::Board, ring_board::Transmitter), ring_board::MakeFault>
    ensures { IfOk result (λ o. IsTransmitterOf o.0 o.1) }
{
    ring_board::Board::new(alloc, 256)
}

/// A message is transmitted, and a copying receiver receives it.
pub fn copied(alloc: Global) -> anyhow::Result<Option<Came>> {
    let (board, mut transmitter) = open(alloc)?;
    let subscribed: Result<ring_board::CopyReceiver, ring_board::SubscribeFault> = board.subscribe(
        alloc,
        &mut transmitter,
    );
    let mut receiver = subscribed?;
    board.transmit(&mut transmitter, 1, b"first!")?;
    let mut body = [0; 6];
    let received: Result<Option<ring_board::Copied<'_>>, ring_board::Lapped> = receiver.receive(
        &board,
    );
    let (place, type_id) = match received {
        Ok(Some(copied)) if copied.body.len() == body.len() => {
            body.copy_from_slice(copied.body);
            (copied.place, copied.type_id)
        }
        Ok(_) | Err(_) => return Ok(None),
    };
    let lapped = receiver.lapped_count();
    board.join(&mut transmitter, receiver);
    let (shares, capacity) = (transmitter.shares(), board.capacity());
    match board.close(transmitter) {
        Ok(end) => Ok(Some(Came {
            place,
            type_id,
            body,
            lapped,
            shares,
            capacity,
            closed: end_of(&end),
        })),
        Err(_refused) => Ok(None),
    }
}

/// Begins a transmission that is too long. Returns the transmitter and the code of the refusal.
fn begin_too_long(
    board: &ring_board::Board,
    transmitter: ring_board::Transmitter,
) -> Option<(ring_board::Transmitter, i32)>
    requires { IsTransmitterOf board.now transmitter }
    ensures { IfSome result (λ o. IsTransmitterOf board.now o.0) }
{
    match board.begin(transmitter, 1, 33) {
        Ok(begun) => {
            // A transmission that is begun is always published.
            let filled = board.fill(begun, &[0; 33]);
            board.publish(filled);
            None
        }
        Err(refused) => {
            let ring_board::BeginRefused {
                reason,
                transmitter,
            } = refused;
            Some((transmitter, reason.code()))
        }
    }
}

/// Transmits a message in three steps, and returns the transmitter.
fn transmit_in_steps(
    board: &ring_board::Board,
    transmitter: ring_board::Transmitter,
) -> Option<ring_board::Transmitter>
    requires { IsTransmitterOf board.now transmitter }
    ensures { IfSome result (IsTransmitterOf board.now) }
{
    let begun: ring_board::Begun = match board.begin(transmitter, 2, 6) {
        Ok(begun) => begun,
        Err(_refused) => return None,
    };
    let filled: ring_board::Filled = board.fill(begun, b"second");
    Some(board.publish(filled))
}

/// Receives the next record, loads its body of up to 6 bytes, and validates it.
fn receive_valid(
    board: &ring_board::Board,
    receiver: &mut ring_board::Receiver,
    body: &mut [u8],
) -> Option<ring_board::RawRecord>
    requires { IsRawOf board.now receiver.old }
    ensures { IsRawOf board.now receiver.new }
{
    let found: Result<Option<ring_board::RawRecord>, ring_board::Lapped> = receiver.receive_next(
        board,
    );
    let Ok(Some(record)) = found else {
        return None;
    };
    if record.len() > body.len() {
        return None;
    }
    receiver.load_body(board, &record, body);
    if receiver.validate(board, &record) {
        Some(record)
    } else {
        None
    }
}

/// Closes a broadcast buffer while a receiver is out. Returns what comes back and the code of the refusal.
fn close_too_early(
    board: ring_board::Board,
    transmitter: ring_board::Transmitter,
) -> Option<(ring_board::Board, ring_board::Transmitter, i32)>
    requires { IsTransmitterOf board transmitter }
    ensures { IfSome result (λ o. (o.0 ≡ board) × IsTransmitterOf o.0 o.1) }
{
    let refused: ring_board::BoardCloseRefused = match board.close(transmitter) {
        Ok(_end) => return None,
        Err(refused) => refused,
    };
    let ring_board::BoardCloseRefused {
        reason,
        board,
        transmitter,
    } = refused;
    Some((board, transmitter, reason.code()))
}

/// A transmission in three steps, and a raw receiver.
pub fn raw(alloc: Global) -> anyhow::Result<Option<(Came, Refusals)>> {
    let (board, mut transmitter) = ring_board::Board::new_at(alloc, 256, 256)?;
    let subscribed: Result<ring_board::Receiver, ring_board::NoShares> = board.subscribe_raw(
        &mut transmitter,
    );
    let mut receiver = subscribed?;
    let bad_type = match board.transmit(&mut transmitter, 0, b"") {
        Ok(()) => 0,
        Err(fault) => fault.code(),
    };
    let Some((transmitter, begin)) = begin_too_long(&board, transmitter) else {
        return Ok(None);
    };
    let Some(transmitter) = transmit_in_steps(&board, transmitter) else {
        return Ok(None);
    };
    let mut body = [0; 6];
    let Some(record) = receive_valid(&board, &mut receiver, &mut body) else {
        return Ok(None);
    };
    let lapped = receiver.lapped_count();
    let Some((board, mut transmitter, close)) = close_too_early(board, transmitter) else {
        return Ok(None);
    };
    board.join_raw(&mut transmitter, receiver);
    let (shares, capacity) = (transmitter.shares(), board.capacity());
    let Ok(end) = board.close(transmitter) else {
        return Ok(None);
    };
    let came = Came {
        place: record.place(),
        type_id: record.type_id(),
        body,
        lapped,
        shares,
        capacity,
        closed: end_of(&end),
    };
    Ok(Some((
        came,
        Refusals {
            bad_type,
            begin,
            close,
        },
    )))
}
