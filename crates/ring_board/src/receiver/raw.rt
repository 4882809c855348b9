//! Raw receivers.
ghost use Rattle.std.specs.Prelude.{◌≡◌, ◌==◌, ◌+◌, ◌/◌, ◌≤◌, true, [], ◌∷◌, ◌++◌, length, take, drop, IfOk, OnErr, MatchResult, MatchOption};
ghost use Rattle.ring_board.specs.Seats.{IsSeatOf, IsSameSeat};

use crate::board::{Board, RawRecord, Receiver, Transmitter};
use crate::fault::Lapped;
use crate::receiver::found::CopiedMessage;
use crate::shared::steps::BoardSeat;
use ring_layout::{NoShares, has_spare_share, put_part, span};

impl Board {
    ghost use Rattle.ring_board.specs.{Runs.AreRuns, Views.as_joined, Views.fewer, Views.newcomer, Views.joined};
    ghost use Rattle.ring_layout.specs.Refusals.{share_refusal_of, IsRefusedBy};
    ghost use Rattle.ring_board.specs.Board.{heard_by, latest_of, raw_subscribed_at, returned, transmitted};
    ghost use Rattle.ring_board.specs.Seats.{view_of, shares_of, IsTransmitterOf, IsRawOf, raw_view};

    /// Makes a raw receiver, which starts with the record at latest. The receiver takes one share of the transmitter,
    /// and no memory. Returns `NoShares` if the transmitter has only one share. The transmitter is then unchanged.
    pub fn subscribe_raw(&self, transmitter: &mut Transmitter) -> Result<Receiver, NoShares>
        requires { IsTransmitterOf self.now transmitter.old }
        ensures transmitted { transmitted transmitter.new ≡ transmitted transmitter.old }
        ensures begins { IfOk result (λ r. (returned r ≡ []) × (raw_subscribed_at r ≡ latest_of transmitter.old)) }
        ensures board { IsTransmitterOf self.now transmitter.new }
        ensures refused { IsRefusedBy (share_refusal_of (shares_of transmitter.old)) result }
        ensures same { OnErr result (transmitter.new ≡ transmitter.old) }
        ensures receiver { IfOk result (λ r. IsRawOf self.now r × (raw_view r ≡ newcomer (view_of transmitter.old))) }
        ensures transmitter { IfOk result (λ _. view_of transmitter.new ≡ fewer (view_of transmitter.old)) }
    {
        if !has_spare_share(transmitter.shares) {
            return Err(NoShares);
        }
        Ok(self.seat_receiver(transmitter))
    }

    /// Takes a raw receiver back, with its share. The records that it returned are runs of the transmitted list.
    pub fn join_raw(&self, transmitter: &mut Transmitter, receiver: Receiver)
        requires transmitter { IsTransmitterOf self.now transmitter.old }
        requires receiver { IsRawOf self.now receiver }
        ensures transmitted { transmitted transmitter.new ≡ transmitted transmitter.old }
        ensures heard { heard_by transmitter.new ≡ heard_by transmitter.old ++ as_joined (raw_view receiver) ∷ [] }
        ensures runs { AreRuns (transmitted transmitter.old) (raw_subscribed_at receiver) (returned receiver) }
        ensures board { IsTransmitterOf self.now transmitter.new }
        ensures view { view_of transmitter.new ≡ joined (view_of transmitter.old) (raw_view receiver) }
        ensures shares { shares_of transmitter.new ≡ shares_of transmitter.old + 1 }
    {
        let Receiver {
            seat,
            place: _,
            count: _,
        } = receiver;
        self.take_in(&mut transmitter.seat, seat);
        self.learn(&mut transmitter.seat);
        transmitter.shares += 1;
    }
}

impl Receiver {
    ghost use Rattle.ring_board.specs.Bodies.{GaveBody, HasLoaded, IsRight, Validated};
    ghost use Rattle.ring_board.specs.Receiving.{GotNothing, GotCopy, GotLapped};
    ghost use Rattle.ring_board.specs.Board.{raw_lapped_count_of, raw_place_in, ReturnsNext};
    ghost use Rattle.ring_board.specs.Seats.{IsRawOf, IsAnsweredRecord, raw_seat, raw_view, ReceivedNext, StaysAnswered, place_of, len_of};

    /// Returns the position, in bytes, at which the next call looks for a record. After `Lapped`, this position is
    /// above `Lapped.place` by the number of bytes that the receiver missed. This number is never 0.
    pub fn place(&self) -> u64
        ensures { result ≡ raw_place_in self.now }
    {
        self.place
    }

    /// Returns the number of times that the receiver was lapped.
    pub fn lapped_count(&self) -> u64
        ensures { result ≡ raw_lapped_count_of self.now }
    {
        self.count
    }

    /// Returns the next record without its body, if there is a record, and goes past it. Returns `Lapped` if the
    /// transmitter overtook the receiver. The count has then risen by one, and the next call starts with the record at
    /// latest.
    pub fn receive_next(&mut self, board: &Board) -> Result<Option<RawRecord>, Lapped>
        requires { IsRawOf board.now self.old }
        ensures returned { ReturnsNext self.old self.new result }
        ensures board { IsRawOf board.now self.new }
        ensures got { ReceivedNext self.old self.new result }
        ensures kept { StaysAnswered self.old self.new }
    {
        match board.next_raw(&mut self.seat, self.place) {
            Ok(None) => Ok(None),
            Ok(Some(record)) => {
                self.place = record.place + span(record.len);
                Ok(Some(record))
            }
            Err(miss) => {
                let (place, lapped) = board.go_to_latest(&mut self.seat, self.count, miss);
                self.place = place;
                self.count = lapped.count;
                Err(lapped)
            }
        }
    }

    /// Copies the next message to the front of a scratch, if there is a message. Validates the copy, and goes past the
    /// message.
    #[inline(always)]
    pub(crate) fn copy_next(
        &mut self,
        board: &Board,
        scratch: &mut [u8],
    ) -> Result<Option<CopiedMessage>, Lapped>
        requires board { IsRawOf board.now self.old }
        requires room { length scratch.old ≡ board.now.capacity / 8 }
        ensures board { IsRawOf board.now self.new }
        ensures got { MatchResult result (λ o. MatchOption o (GotNothing (raw_seat self.old) (raw_seat self.new))
            (λ f. GotCopy f.place f.type_id (take f.len scratch.new) (raw_seat self.old) (raw_seat self.new)))
            (λ l. GotLapped l (raw_seat self.old) (raw_seat self.new)) }
        ensures len { MatchResult result (λ o. MatchOption o (Unit {0}) (λ f. f.len ≤ length scratch.new))
            (λ l. Unit {0}) }
    {
        match board.copy_next(&mut self.seat, self.place, scratch) {
            Ok(None) => Ok(None),
            Ok(Some(front)) => {
                self.place = front.place + span(front.len);
                Ok(Some(front))
            }
            Err(miss) => {
                let (place, lapped) = board.go_to_latest(&mut self.seat, self.count, miss);
                self.place = place;
                self.count = lapped.count;
                Err(lapped)
            }
        }
    }

    /// Copies the body of a record that this receiver returned to the front of `out`, without validation. The bytes may
    /// be those of another record, unless `validate` returns true afterwards. The rest of `out` is unchanged.
    pub fn load_body(&mut self, board: &Board, raw: &RawRecord, out: &mut [u8])
        requires board { IsRawOf board.now self.old }
        requires raw { IsAnsweredRecord (raw_view self.old) raw.now }
        requires room { len_of raw.now ≤ length out.old }
        ensures loaded { HasLoaded (raw_view self.new) raw.now (take (len_of raw.now) out.new) }
        ensures board { IsRawOf board.now self.new }
        ensures gave { GaveBody (place_of raw.now) (take (len_of raw.now) out.new) (raw_seat self.old)
            (raw_seat self.new) }
        ensures rest { drop (len_of raw.now) out.new ≡ drop (len_of raw.now) out.old }
        ensures kept { StaysAnswered self.old self.new }
    {
        board.load_answered(&mut self.seat, raw, &mut out[..raw.len]);
    }

    /// Tests whether a record that this receiver returned is not overwritten yet. The test is one load of the intent.
    /// If the result is true, each body of the record that `load_body` returned before is the body that was
    /// transmitted.
    pub fn validate(&mut self, board: &Board, raw: &RawRecord) -> bool
        requires board { IsRawOf board.now self.old }
        requires raw { IsAnsweredRecord (raw_view self.old) raw.now }
        ensures right { result ≡ true → IsRight (raw_view self.old) raw.now }
        ensures board { IsRawOf board.now self.new }
        ensures validated { Validated raw.now result (raw_seat self.old) (raw_seat self.new) }
        ensures kept { StaysAnswered self.old self.new }
    {
        let intent = board.check_answered(&mut self.seat);
        !board.is_lapped(raw.place, intent)
    }
}

impl Board {
    ghost use Rattle.ring_board.specs.declared.shared.view.Stage.TheVariants.{Resting};
    ghost use Rattle.ring_board.specs.{Bodies.GaveBody, Seats.IsAnsweredRecord, Seats.place_of, Seats.len_of};

    /// Loads the body of a record that was returned without its body. The body is as long as `out`.
    fn load_answered(&self, seat: &mut BoardSeat, raw: &RawRecord, out: &mut [u8])
        requires seat { IsSeatOf self.now seat.old }
        requires stage { (seat.old.me.0.stage ≡ Resting) × (seat.old.me.0.capacity ≡ self.now.capacity) }
        requires raw { IsAnsweredRecord seat.old.me.0 raw.now × (length out.old ≡ len_of raw.now) }
        ensures same { IsSameSeat seat.old seat.new }
        ensures gave { GaveBody (place_of raw.now) out.new seat.old.me seat.new.me }
    {
        let first = self.index(raw.place) + 1;
        for k in 0..out.len().div_ceil(8) {
            let word = self.load_unread(seat, first + k);
            put_part(out, 8 * k, word);
        }
    }
}

impl RawRecord {
    ghost use Rattle.ring_board.specs.Seats.{place_of, type_id_of, len_of};

    /// Returns the position of the record, in bytes.
    pub fn place(&self) -> u64
        ensures { result ≡ place_of self.now }
    {
        self.place
    }

    /// Returns the type id that the record's header announces.
    pub fn type_id(&self) -> i32
        ensures { result ≡ type_id_of self.now }
    {
        self.type_id
    }

    /// Returns the length of the body that the record's header announces, in bytes.
    pub fn len(&self) -> usize
        ensures { result ≡ len_of self.now }
    {
        self.len
    }

    /// Tests whether the record's header announces an empty body.
    pub fn is_empty(&self) -> bool
        ensures { result ≡ (len_of self.now == 0) }
    {
        self.len == 0
    }
}
