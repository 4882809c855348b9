//! A receiver with its broadcast buffer.
ghost use Rattle.std.specs.Prelude.{◌≡◌, ◌/◌, false, length, take, true, IfSome, IsSome, None};
ghost use Rattle.ring_layout.specs.History.{overwritten};
ghost use Rattle.ring_board.specs.Seats.{receiver_seat, IsReceiverOf};
ghost use Rattle.ring_ends.specs.BoardEnd.{Hears, CopiesInto, laps_of, place_of_end, DoesAt};

use crate::lending::Lender;
use ring_board::{Board, CopyReceiver, Lapped};
use std::marker::Model;

/// A message that was copied into a buffer. Its record is at `place`, in bytes.
#[derive(Clone, Copy, Debug, PartialEq, Eq)]
pub struct Heard {
    pub place: u64,
    pub type_id: i32,
    pub len: usize,
}

/// A receiver that copies each message and validates the copy, with the broadcast buffer that it reads.
#[derive(Drop)]
pub struct ReceiverEnd {
    pub(crate) board: Lender<Board>,
    pub(crate) receiver: CopyReceiver,
}

impl Model for ReceiverEnd {
    ghost use Rattle.ring_board.specs.Seats.{receiver_seat, IsReceiverOf};
    ghost use Rattle.ring_ends.specs.{BoardEnd.end_at, BoardEnd.Listener, Lending.board_in, Lending.conductor_of};

    ghost Value = { Listener };

    ghost view = { λ e. record {
      end = end_at (board_in e.board) (receiver_seat e.receiver);
      lender =
          conductor_of e.board;
    } };

    ghost invariant = { λ e. IsReceiverOf (board_in e.board) e.receiver };
}

/// Copies as many of these bytes as there is room for to the front of a buffer.
fn copy_front(buffer: &mut [u8], bytes: &[u8])
    ensures { buffer.new ≡ overwritten 0 (take (length buffer.old) bytes.now) buffer.old }
{
    let room = bytes.len().min(buffer.len());
    buffer[..room].copy_from_slice(&bytes[..room]);
}

/// Receives the next message into a buffer.
fn hear(
    board: &Board,
    receiver: &mut CopyReceiver,
    buffer: &mut [u8],
) -> Result<Option<Heard>, Lapped>
    requires { IsReceiverOf board.now receiver.old }
    ensures receiver { IsReceiverOf board.now receiver.new }
    ensures heard { Hears buffer.old buffer.new (receiver_seat receiver.old) result (receiver_seat receiver.new) }
{
    match receiver.receive(board)? {
        None => Ok(None),
        Some(copied) => {
            copy_front(buffer, copied.body);
            Ok(Some(Heard {
                place: copied.place,
                type_id: copied.type_id,
                len: copied.body.len(),
            }))
        }
    }
}

impl ReceiverEnd {
    /// Copies the next message, if there is one, and validates the copy. As much of the message as there is room for is
    /// then at the front of the buffer. Returns `Lapped` if the transmitter overtook the receiver. The count has then
    /// risen by one, and the next call starts with the record at latest.
    pub fn receive(&mut self, buffer: &mut [u8]) -> Result<Option<Heard>, Lapped>
        ensures copied { CopiesInto buffer.old buffer.new self.old.end result self.new.end }
        ensures does { DoesAt (Hears buffer.old buffer.new) self.old.end result self.new.end }
        ensures lender { self.new.lender ≡ self.old.lender }
    {
        hear(self.board.board(), &mut self.receiver, buffer)
    }

    /// Returns the position, in bytes, at which the next call looks for a record.
    pub fn place(&self) -> u64
        ensures { result ≡ place_of_end self.now.end }
    {
        self.receiver.place()
    }

    /// Returns the number of times that the receiver was lapped.
    pub fn lapped_count(&self) -> u64
        ensures { result ≡ laps_of self.now.end }
    {
        self.receiver.lapped_count()
    }

    /// Returns the bytes of the buffer.
    pub fn capacity(&self) -> u32
        ensures { result ≡ self.now.end.capacity }
    {
        self.board.board().capacity()
    }

    /// Returns the number of bytes of the longest message, which is an eighth of the capacity.
    pub fn max_message(&self) -> u32
        ensures { result ≡ self.now.end.capacity / 8 }
    {
        self.board.board().max_message()
    }

    /// Tests whether a conductor lends the broadcast buffer.
    pub fn is_lent(&self) -> bool
        ensures own { result ≡ false → self.now.lender ≡ None }
        ensures lent { result ≡ true → IsSome self.now.lender }
    {
        match &self.board {
            Lender::Own(_) => false,
            Lender::Lent(_) => true,
        }
    }

    /// Returns the receiver without its broadcast buffer.
    pub(crate) fn into_receiver(self) -> CopyReceiver
        ensures same { receiver_seat result ≡ self.end.knows }
        ensures lent { IfSome self.lender (λ shared. IsReceiverOf shared.board result) }
    {
        let ReceiverEnd { board: _, receiver } = self;
        receiver
    }
}
