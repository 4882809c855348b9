//! The results of a receiver that asks for a message.
ghost use Rattle.std.specs.Prelude.{IfOk};

use ring_board::{Board, CopyReceiver, Lapped};
use std::alloc::{AllocError, Global};

/// The result of a receiver that asks for the next message.
#[derive(Drop)]
pub enum Received {
    /// A copy of a message. Its record is at this place.
    Copy {
        place: u64,
        type_id: i32,
        body: Vec<u8>,
    },
    /// No message is there yet.
    Nothing,
    /// The transmitter overtook the receiver.
    Lapped(Lapped),
}

impl Received {
    ghost use Rattle.ring_board.specs.Seats.{IsReceiverOf, receiver_seat};
    ghost use Rattle.ring_ends.specs.Receivers.{IsTold};

    /// Asks for the next message, and keeps its body.
    pub fn of(
        alloc: Global,
        board: &Board,
        receiver: &mut CopyReceiver,
    ) -> Result<Received, AllocError>
        requires { IsReceiverOf board.now receiver.old }
        ensures receiver { IsReceiverOf board.now receiver.new }
        ensures told { IfOk result (λ told. IsTold told (receiver_seat receiver.old) (receiver_seat receiver.new)) }
    {
        match receiver.receive(board) {
            Ok(None) => Ok(Received::Nothing),
            Ok(Some(copied)) => Ok(Received::Copy {
                place: copied.place,
                type_id: copied.type_id,
                body: Vec::from_slice(alloc, copied.body)?,
            }),
            Err(lapped) => Ok(Received::Lapped(lapped)),
        }
    }
}
