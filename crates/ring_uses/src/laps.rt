//! A receiver that is lapped, since a transmitter does not wait.
ghost use Rattle.std.specs.Prelude.{◌≡◌, ◌≤◌, pos, [], IfOk, OnOk};
ghost use Rattle.ring_board.specs.Board.{copied, lapped_count_of, transmitted};
ghost use Rattle.ring_board.specs.Seats.{IsReceiverOf, IsTransmitterOf};
ghost use Rattle.ring_uses.specs.Laps.{messages_in, messages_of, AreWithin, HasCopied};
ghost use Rattle.ring_uses.specs.Numbers.{numbers, sum_of};

use crate::numbers::number_of;
use ring_board::{Board, CopyReceiver, TransmitFault, Transmitter};
use std::alloc::Global;
use std::snapshot::Snapshot;

/// The type id of the messages.
const NUMBER: i32 = 1;

/// The results of a receiver that was overtaken.
#[derive(Drop)]
pub struct Overtaken {
    /// The sum of the numbers that the receiver copied.
    pub sum: u64,
    /// The number of times that the receiver was lapped.
    pub laps: u64,
    /// The transmitter to which the receiver was joined. This field is for contracts, and has no bytes. Contracts read
    /// in it what was transmitted.
    pub transmitter: Snapshot<Transmitter>,
    /// The receiver before it was joined, for contracts. Contracts read in it what was copied.
    pub receiver: Snapshot<CopyReceiver>,
}

/// Transmits the numbers from 1 to `last`.
fn transmit_numbers(
    board: &Board,
    transmitter: &mut Transmitter,
    last: u32,
) -> Result<(), TransmitFault>
    requires transmitter { IsTransmitterOf board.now transmitter.old }
    requires new { transmitted transmitter.old ≡ [] }
    ensures transmitter { IsTransmitterOf board.now transmitter.new }
    ensures transmitted { OnOk result (messages_in (transmitted transmitter.new) ≡ numbers (pos 1) last) }
{
    for number in 0..last {
        let body = u64::from(number + 1).to_le_bytes();
        board.transmit(transmitter, NUMBER, &body)?;
    }
    Ok(())
}

/// Receives until there is no message, and adds up the numbers. The function makes at most this many calls.
fn receive_all(board: &Board, receiver: &mut CopyReceiver, calls: u32) -> u64
    requires receiver { IsReceiverOf board.now receiver.old }
    requires new { copied receiver.old ≡ [] }
    ensures receiver { IsReceiverOf board.now receiver.new }
    ensures laps { AreWithin (lapped_count_of receiver.new) (copied receiver.new) }
    ensures sum { result ≡ sum_of (messages_of (copied receiver.new)) }
{
    let mut sum: u64 = 0;
    for _ in 0..calls {
        match receiver.receive(board) {
            Ok(Some(copied)) => sum = sum.wrapping_add(number_of(copied.body)),
            Ok(None) => return sum,
            // The next call goes on with the latest message.
            Err(_lapped) => {}
        }
    }
    sum
}

/// Transmits the numbers from 1 to `last`. After that a receiver that subscribed at the start receives what is left of
/// them.
pub fn overtake(alloc: Global, last: u32) -> anyhow::Result<Overtaken>
    ensures { IfOk result (λ h. HasCopied last h) }
{
    let (board, mut transmitter) = Board::new(alloc, 256)?;
    let mut receiver = board.subscribe(alloc, &mut transmitter)?;
    transmit_numbers(&board, &mut transmitter, last)?;
    let sum = receive_all(&board, &mut receiver, last);
    let laps = receiver.lapped_count();
    let named = Snapshot::of(&receiver);
    board.join(&mut transmitter, receiver);
    Ok(Overtaken {
        sum,
        laps,
        transmitter: Snapshot::of(&transmitter),
        receiver: named,
    })
}
