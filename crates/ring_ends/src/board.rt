//! The broadcast buffer of a run, with its numbered receivers.
ghost use Rattle.std.specs.Prelude.{◌≡◌, [], IfNone, IfOk, IfSome, OnErr, OnOk, OnSome, length};
ghost use Rattle.ring_layout.specs.Places.{is_board_capacity};
ghost use Rattle.ring_layout.specs.Refusals.{all_shares, make_refusal_of, IsMadeUnless, IsRefusedBy};
ghost use Rattle.ring_board.specs.{Closing.IsClosed, Closing.closed_capacity, Closing.closed_words, Board.transmitted};
ghost use Rattle.ring_board.specs.Refusals.{subscribe_refusal_of, transmit_refusal_of, IsSubscribedUnless};
ghost use Rattle.ring_board.specs.{Rule.opening_view, Runs.AreAllRuns, TransmitterSteps.sent_on};
ghost use Rattle.ring_board.specs.Seats.{capacity_of, next_record, shares_of, start_of, tail_of, view_of};
ghost use Rattle.ring_ends.specs.Held.{IsFree, held_in};
ghost use Rattle.ring_ends.specs.Receivers.{LeavesAt, ReceivesAt, Subscribes};
ghost use Rattle.ring_ends.specs.Receivers.{all_left, by_number, shares_in, AreReceiversOf};

use crate::numbered::Numbered;
use crate::received::Received;
use crate::receiving::receive_at;
use ring_board::{
    Board, ClosedBoard, CopyReceiver, MakeFault, SubscribeFault, TransmitFault, Transmitter,
};
use std::alloc::{AllocError, Global};

/// A broadcast buffer with its receivers, which are numbered from 1. No number is given to two receivers.
#[derive(Drop)]
pub struct StandaloneBoard {
    board: Board,
    transmitter: Transmitter,
    /// The receivers that have not left.
    receivers: Numbered<CopyReceiver>,
    ghost belong: { AreReceiversOf board (by_number transmitter receivers) },
    ghost shares: { shares_in (by_number transmitter receivers) ≡ all_shares },
}

impl StandaloneBoard {
    /// Makes an empty broadcast buffer.
    pub fn new(alloc: Global, capacity: u32) -> Result<Self, MakeFault>
        ensures refused { IsMadeUnless (make_refusal_of (is_board_capacity capacity) capacity 0) result }
        ensures board { IfOk result (λ made. (capacity_of made.board ≡ capacity) × (start_of made.board ≡ 0)) }
        ensures fresh { IfOk result (λ made. (view_of made.transmitter ≡ opening_view capacity 0)
            × (held_in made.receivers ≡ [])) }
    {
        let (board, transmitter) = Board::new(alloc, capacity)?;
        Ok(StandaloneBoard {
            board,
            transmitter,
            receivers: Numbered::new(alloc),
        })
    }

    /// Transmits a message.
    pub fn transmit(&mut self, type_id: i32, body: &[u8]) -> Result<(), TransmitFault>
        ensures refused { IsRefusedBy
            (transmit_refusal_of (capacity_of self.old.board) (tail_of self.old.transmitter) type_id (length body.now))
            result }
        ensures same { OnErr result (self.new ≡ self.old) }
        ensures sent { OnOk result (view_of self.new.transmitter ≡ sent_on (view_of self.old.transmitter)
            (next_record (capacity_of self.old.board) (tail_of self.old.transmitter) type_id body.now)) }
        ensures rest { (self.new.board ≡ self.old.board) × (self.new.receivers ≡ self.old.receivers) }
    {
        self.board.transmit(&mut self.transmitter, type_id, body)
    }

    /// Makes a receiver, and returns its number. The room for the receiver is made first.
    pub fn subscribe(&mut self, alloc: Global) -> Result<Result<usize, SubscribeFault>, AllocError>
        ensures refused { IfOk result (λ made.
            IsSubscribedUnless (subscribe_refusal_of (shares_of self.old.transmitter)) made) }
        ensures made { IfOk result (λ made. IfOk made (λ number. Subscribes
            (by_number self.old.transmitter self.old.receivers) number
            (by_number self.new.transmitter self.new.receivers))) }
        ensures same { IfOk result (λ made. OnErr made ((self.new.transmitter ≡ self.old.transmitter)
            × (held_in self.new.receivers ≡ held_in self.old.receivers))) }
        ensures board { self.new.board ≡ self.old.board }
    {
        self.receivers.reserve()?;
        match self.board.subscribe(alloc, &mut self.transmitter) {
            Ok(receiver) => Ok(Ok(self.receivers.hold(receiver))),
            Err(fault) => Ok(Err(fault)),
        }
    }

    /// Asks the receiver of this number for the next message. Returns `None` if there is no such receiver. Nothing has
    /// then changed.
    pub fn receive(&mut self, alloc: Global, number: usize) -> Option<Result<Received, AllocError>>
        ensures told { IfSome result (λ answer. IfOk answer (λ told.
            ReceivesAt told self.old.receivers number self.new.receivers)) }
        ensures free { IfNone result (IsFree (held_in self.old.receivers) number) }
        ensures same { IfNone result (held_in self.new.receivers ≡ held_in self.old.receivers) }
        ensures rest { (self.new.board ≡ self.old.board) × (self.new.transmitter ≡ self.old.transmitter) }
    {
        receive_at(alloc, &self.board, &mut self.receivers, number)
    }

    /// Joins the receiver of this number. Returns `None` if there is no such receiver.
    pub fn leave(&mut self, number: usize) -> Option<()>
        ensures left { OnSome result (LeavesAt
            (by_number self.old.transmitter self.old.receivers) number
            (by_number self.new.transmitter self.new.receivers)) }
        ensures same { IfNone result ((self.new.transmitter ≡ self.old.transmitter)
            × (held_in self.new.receivers ≡ held_in self.old.receivers)) }
        ensures free { IfNone result (IsFree (held_in self.old.receivers) number) }
        ensures board { self.new.board ≡ self.old.board }
    {
        let receiver = self.receivers.take(number)?;
        self.board.join(&mut self.transmitter, receiver);
        Some(())
    }

    /// Joins all receivers, in rising order of their numbers. The transmitter has all shares afterwards.
    fn join_all(&mut self)
        ensures shares { shares_of self.new.transmitter ≡ all_shares }
        ensures left { view_of self.new.transmitter
            ≡ all_left (held_in self.old.receivers) (view_of self.old.transmitter) }
        ensures board { self.new.board ≡ self.old.board }
    {
        for index in 0..self.receivers.drawn() {
            let _ = self.leave(index + 1);
        }
    }

    /// Joins all receivers, in rising order of their numbers, and closes the broadcast buffer. Returns the words of the
    /// closed broadcast buffer, which have all that was transmitted.
    pub fn close(mut self) -> ClosedBoard
        ensures capacity { closed_capacity result ≡ capacity_of self.board }
        ensures closed { IsClosed (capacity_of self.board) (start_of self.board) (transmitted self.transmitter)
            (closed_words result) }
        ensures runs { AreAllRuns (transmitted self.transmitter)
            (all_left (held_in self.receivers) (view_of self.transmitter)).heard }
    {
        self.join_all();
        let StandaloneBoard {
            board,
            transmitter,
            ..
        } = self;
        match board.close(transmitter) {
            Ok(closed) => closed,
            Err(_refused) => unreachable!(),
        }
    }
}
