//! Copying receivers.
ghost use Rattle.std.specs.Prelude.{◌≡◌, ◌+◌, ◌/◌, ◌<◌, ◌≤◌, [], ◌∷◌, ◌++◌, take, IfOk, OnErr, MatchResult, MatchOption};

use crate::board::{Board, Copied, CopyReceiver, Transmitter};
use crate::fault::{Lapped, SubscribeFault};
use crate::receiver::found::CopiedMessage;
use ring_layout::has_spare_share;
use std::alloc::Global;

impl Board {
    ghost use Rattle.ring_board.specs.{Runs.AreRuns, Refusals.subscribe_refusal_of, Refusals.IsSubscribedUnless};
    ghost use Rattle.ring_board.specs.Views.{as_joined, fewer, newcomer, joined};
    ghost use Rattle.ring_board.specs.Board.{copied, heard_by, latest_of, subscribed_at, transmitted};
    ghost use Rattle.ring_board.specs.Seats.{view_of, shares_of, IsTransmitterOf, IsReceiverOf, receiver_view};

    /// Makes a copying receiver, which starts with the record at latest. The receiver takes one share of the
    /// transmitter. Returns `NoShares` if the transmitter has only one share, and otherwise `OutOfMemory` if there is
    /// no memory. After an error the transmitter is unchanged.
    pub fn subscribe(
        &self,
        alloc: Global,
        transmitter: &mut Transmitter,
    ) -> Result<CopyReceiver, SubscribeFault>
        requires { IsTransmitterOf self.now transmitter.old }
        ensures transmitted { transmitted transmitter.new ≡ transmitted transmitter.old }
        ensures begins { IfOk result (λ r. (copied r ≡ []) × (subscribed_at r ≡ latest_of transmitter.old)) }
        ensures board { IsTransmitterOf self.now transmitter.new }
        ensures refused { IsSubscribedUnless (subscribe_refusal_of (shares_of transmitter.old)) result }
        ensures same { OnErr result (transmitter.new ≡ transmitter.old) }
        ensures receiver { IfOk result (λ r. IsReceiverOf self.now r
            × (receiver_view r ≡ newcomer (view_of transmitter.old))) }
        ensures transmitter { IfOk result (λ _. view_of transmitter.new ≡ fewer (view_of transmitter.old)) }
    {
        if !has_spare_share(transmitter.shares) {
            return Err(SubscribeFault::NoShares);
        }
        let scratch = vec![in alloc; 0u8; self.capacity as usize / 8].map_err(
            |_| SubscribeFault::OutOfMemory,
        )?;
        let receiver = self.seat_receiver(transmitter);
        Ok(CopyReceiver { receiver, scratch })
    }

    /// Takes a copying receiver back, with its share. The copies of the receiver are runs of the transmitted list.
    pub fn join(&self, transmitter: &mut Transmitter, receiver: CopyReceiver)
        requires transmitter { IsTransmitterOf self.now transmitter.old }
        requires receiver { IsReceiverOf self.now receiver }
        ensures transmitted { transmitted transmitter.new ≡ transmitted transmitter.old }
        ensures heard { heard_by transmitter.new ≡ heard_by transmitter.old ++ as_joined (receiver_view receiver) ∷ [] }
        ensures runs { AreRuns (transmitted transmitter.old) (subscribed_at receiver) (copied receiver) }
        ensures board { IsTransmitterOf self.now transmitter.new }
        ensures view { view_of transmitter.new ≡ joined (view_of transmitter.old) (receiver_view receiver) }
        ensures shares { shares_of transmitter.new ≡ shares_of transmitter.old + 1 }
    {
        let CopyReceiver {
            receiver: raw,
            scratch: _,
        } = receiver;
        self.join_raw(transmitter, raw);
    }
}

impl CopyReceiver {
    ghost use Rattle.std.specs.Borrow.{sem};
    ghost use Rattle.std.specs.Prelude.{vec_len};
    ghost use Rattle.ring_board.specs.{Receiving.GotNothing, Receiving.GotCopy, Receiving.GotLapped, Lending.Rests};
    ghost use Rattle.ring_board.specs.Board.{lapped_count_of, place_in, CopiesNext};
    ghost use Rattle.ring_board.specs.Seats.{IsReceiverOf, receiver_seat, Received};

    /// Returns the position, in bytes, at which the next call looks for a record. After `Lapped`, this position is
    /// above `Lapped.place` by the number of bytes that the receiver missed. This number is never 0.
    pub fn place(&self) -> u64
        ensures { result ≡ place_in self.now }
    {
        self.receiver.place
    }

    /// Returns the number of times that the receiver was lapped.
    pub fn lapped_count(&self) -> u64
        ensures { result ≡ lapped_count_of self.now }
    {
        self.receiver.count
    }

    /// Copies the next message to the front of the receiver's scratch.
    #[inline(always)]
    fn copy_next(&mut self, board: &Board) -> Result<Option<CopiedMessage>, Lapped>
        requires { IsReceiverOf board.now self.old }
        ensures board { IsReceiverOf board.now self.new }
        ensures got { MatchResult result (λ o. MatchOption o
            (GotNothing (receiver_seat self.old) (receiver_seat self.new))
            (λ f. GotCopy f.place f.type_id (take f.len self.new.scratch.items) (receiver_seat self.old)
            (receiver_seat self.new)))
            (λ l. GotLapped l (receiver_seat self.old) (receiver_seat self.new)) }
        ensures len { MatchResult result (λ o. MatchOption o (Unit {0}) (λ f. f.len ≤ vec_len self.new.scratch))
            (λ l. Unit {0}) }
    {
        self.receiver.copy_next(board, self.scratch.as_mut_slice())
    }

    /// Returns the copy at the front of the scratch.
    #[inline(always)]
    fn front(&self, front: CopiedMessage) -> Copied<'_>
        requires { front.len ≤ vec_len self.now.scratch }
        ensures { (result.place ≡ front.place) × (result.type_id ≡ front.type_id)
            × (result.body.now ≡ take front.len self.now.scratch.items) }
    {
        Copied {
            place: front.place,
            type_id: front.type_id,
            body: &self.scratch[..front.len],
        }
    }

    /// Copies the next message, if there is one, and validates the copy. Returns `Lapped` if the transmitter overtook
    /// the receiver. The count has then risen by one, and the next call starts with the record at latest.
    #[inline(always)]
    pub fn receive(&mut self, board: &Board) -> Result<Option<Copied<'_>>, Lapped>
        requires { IsReceiverOf board.now self.old }
        ensures* after { sem 𝓛 (Rests self.entry (λ new. CopiesNext self.old new result
            × IsReceiverOf board.now new × Received self.old new result)) }
    {
        match self.copy_next(board)? {
            None => Ok(None),
            Some(front) => Ok(Some(self.front(front))),
        }
    }
}
