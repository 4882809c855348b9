//! A transmitter with its broadcast buffer.
ghost use Rattle.std.specs.Prelude.{◌≡◌, ◌/◌, [], ◌∷◌, ◌++◌, None, Some, IfErr, IfOk, IsSome, OnOk};
ghost use Rattle.ring_layout.specs.Refusals.{share_refusal_of, IsRefusedBy};
ghost use Rattle.ring_board.specs.{declared.fault.SubscribeFault.TheVariants.NoShares as HasNoShares, Runs.AreAllRuns};
ghost use Rattle.ring_board.specs.{Closing.IsClosed, Closing.closed_capacity, Closing.closed_words, Views.as_joined};
ghost use Rattle.ring_board.specs.Refusals.{subscribe_refusal_of, transmit_refusal_of};
ghost use Rattle.ring_ends.specs.BoardEnd.{copied, heard_by, latest_at, subscribed_at, tail_in, transmitted, Appends, AreOfOneBoard, DoesAt, Seats, TakesIn, Transmits};

use crate::lending::Lender;
use crate::raw::RawReceiverEnd;
use crate::receiver::ReceiverEnd;
use ring_board::{Board, ClosedBoard, NoShares, SubscribeFault, TransmitFault, Transmitter};
use std::alloc::Global;
use std::marker::Model;
use std::sync::Arc;

/// A transmitter, with the broadcast buffer into which it transmits.
#[derive(Drop)]
pub struct TransmitterEnd {
    pub(crate) board: Arc<Board>,
    pub(crate) transmitter: Transmitter,
}

impl Model for TransmitterEnd {
    ghost use Rattle.std.specs.Arc.{arc_value};
    ghost use Rattle.ring_board.specs.{declared.shared.view.View.View, Seats.view_of, Seats.IsTransmitterOf};
    ghost use Rattle.ring_ends.specs.BoardEnd.{end_at, BoardEnd};

    ghost Value = { BoardEnd View };

    ghost view = { λ e. end_at (arc_value e.board) (view_of e.transmitter) };

    ghost invariant = { λ e. IsTransmitterOf (arc_value e.board) e.transmitter };
}

impl TransmitterEnd {
    /// Transmits a message. It never waits. The errors are those of `Board::transmit`.
    pub fn transmit(&mut self, type_id: i32, body: &[u8]) -> Result<(), TransmitFault>
        ensures transmitted { Transmits type_id body.now self.old result self.new }
        ensures does { DoesAt (Appends self.old.capacity type_id body.now) self.old result self.new }
    {
        self.board.transmit(&mut self.transmitter, type_id, body)
    }

    /// Tests whether a message of this type id and length can be transmitted now. The errors are those of `transmit`.
    pub fn check(&self, type_id: i32, len: usize) -> Result<(), TransmitFault>
        ensures { IsRefusedBy (transmit_refusal_of self.now.capacity (tail_in self.now.knows) type_id len) result }
    {
        self.board.check(&self.transmitter, type_id, len)
    }

    /// Makes a receiver, which starts with the record at latest, and takes one share of this end. Returns `NoShares` if
    /// this end has only one share, and `OutOfMemory` if there is no memory or if the broadcast buffer has too many
    /// ends. After an error nothing has changed.
    pub fn subscribe(&mut self, alloc: Global) -> Result<ReceiverEnd, SubscribeFault>
        ensures transmitted { transmitted self.new ≡ transmitted self.old }
        ensures begins { IfOk result (λ r. (copied r.end ≡ []) × (subscribed_at r.end ≡ latest_at self.old)) }
        ensures seats { IfOk result (λ r. Seats self.old self.new r.end × (r.lender ≡ None)) }
        ensures spare { OnOk result (subscribe_refusal_of self.old.knows.shares ≡ None) }
        ensures refused { IfErr result (λ fault. (self.new ≡ self.old)
            × (fault ≡ HasNoShares → subscribe_refusal_of self.old.knows.shares ≡ Some HasNoShares)) }
    {
        let Ok(board) = Arc::try_clone(&self.board) else {
            return Err(SubscribeFault::OutOfMemory);
        };
        let receiver = self.board.subscribe(alloc, &mut self.transmitter)?;
        Ok(ReceiverEnd {
            board: Lender::Own(board),
            receiver,
        })
    }

    /// Makes a raw receiver, as `subscribe` makes a receiver.
    pub fn subscribe_raw(&mut self) -> Result<RawReceiverEnd, SubscribeFault>
        ensures transmitted { transmitted self.new ≡ transmitted self.old }
        ensures begins { IfOk result (λ r. (copied r ≡ []) × (subscribed_at r ≡ latest_at self.old)) }
        ensures seats { IfOk result (Seats self.old self.new) }
        ensures spare { OnOk result (share_refusal_of self.old.knows.shares ≡ None) }
        ensures refused { IfErr result (λ fault. (self.new ≡ self.old)
            × (fault ≡ HasNoShares → IsSome (share_refusal_of self.old.knows.shares))) }
    {
        let Ok(board) = Arc::try_clone(&self.board) else {
            return Err(SubscribeFault::OutOfMemory);
        };
        match self.board.subscribe_raw(&mut self.transmitter) {
            Ok(receiver) => Ok(RawReceiverEnd { board, receiver }),
            Err(NoShares) => Err(SubscribeFault::NoShares),
        }
    }

    /// Takes a receiver of the same broadcast buffer back, with its share. Its copies are runs of the transmitted list.
    pub fn join(&mut self, receiver: ReceiverEnd)
        requires { AreOfOneBoard self.old receiver.end }
        ensures transmitted { transmitted self.new ≡ transmitted self.old }
        ensures heard { heard_by self.new ≡ heard_by self.old ++ as_joined receiver.end.knows.0 ∷ [] }
        ensures takes { TakesIn self.old receiver.end.knows self.new }
    {
        let ReceiverEnd { board: _, receiver } = receiver;
        self.board.join(&mut self.transmitter, receiver);
    }

    /// Takes a raw receiver of the same broadcast buffer back, with its share. The records that it returned are runs of
    /// the transmitted list.
    pub fn join_raw(&mut self, receiver: RawReceiverEnd)
        requires { AreOfOneBoard self.old receiver }
        ensures transmitted { transmitted self.new ≡ transmitted self.old }
        ensures heard { heard_by self.new ≡ heard_by self.old ++ as_joined receiver.knows.0 ∷ [] }
        ensures takes { TakesIn self.old receiver.knows self.new }
    {
        let RawReceiverEnd { board: _, receiver } = receiver;
        self.board.join_raw(&mut self.transmitter, receiver);
    }

    /// Takes the broadcast buffer apart, if no other end has it. Receivers that were dropped are not missed: what the
    /// closed broadcast buffer shows is whole, and so is what each receiver copied that was joined. If another end has
    /// the broadcast buffer, this end comes back.
    pub fn close(self) -> Result<ClosedBoard, Self>
        ensures runs { OnOk result (AreAllRuns (transmitted self) (heard_by self)) }
        ensures closed { IfOk result (λ c. (closed_capacity c ≡ self.capacity)
            × IsClosed self.capacity self.start (transmitted self) (closed_words c)) }
        ensures in_use { IfErr result (λ end. end ≡ self) }
    {
        let TransmitterEnd { board, transmitter } = self;
        match Arc::try_unwrap(board) {
            Ok(board) => Ok(board.rescue(transmitter)),
            Err(board) => Err(TransmitterEnd { board, transmitter }),
        }
    }

    /// Returns the position, in bytes, at which the last transmission ended, or the start if there was none.
    pub fn tail(&self) -> u64
        ensures { result ≡ tail_in self.now.knows }
    {
        self.transmitter.tail()
    }

    /// Returns the number of shares that this end holds.
    pub fn shares(&self) -> u32
        ensures { result ≡ self.now.knows.shares }
    {
        self.transmitter.shares()
    }

    /// Returns the bytes of the buffer.
    pub fn capacity(&self) -> u32
        ensures { result ≡ self.now.capacity }
    {
        self.board.capacity()
    }

    /// Returns the number of bytes of the longest message, which is an eighth of the capacity.
    pub fn max_message(&self) -> u32
        ensures { result ≡ self.now.capacity / 8 }
    {
        self.board.max_message()
    }
}
