//! The calls and the steps of the transmitter. Each step is one store, or the load of latest by which the transmitter
//! learns of a receiver.
ghost use Rattle.std.specs.Prelude.{◌≡◌, ℕ, ◌+◌, ◌-◌, ◌*◌, ◌/◌, ◌%◌, ◌^◌, ◌<◌, ◌≤◌, pos, ◌≤ℤ◌, [], ◌∷◌, ◌++◌, length};
ghost use Rattle.std.specs.Prelude.{IfOk, OnOk, OnErr};
ghost use Rattle.ring_layout.specs.{declared.message.Message.Message, Headers.header, Headers.padding_header};
ghost use Rattle.ring_layout.specs.History.{IsMessage, span};
ghost use Rattle.ring_layout.specs.Places.{index, max_position, next_place};
ghost use Rattle.ring_board.specs.declared.shared.view.{Draft.Draft, Record.Record, Stage.TheVariants.Shown};
ghost use Rattle.ring_board.specs.declared.shared.view.Stage.TheVariants.{Idle, Begun as StageBegun, Storing, Written};
ghost use Rattle.ring_board.specs.Records.{end, end_of, header_of, words_of_body, Lies};
ghost use Rattle.ring_board.specs.{Views.at_stage, TransmitterSteps.StoresWord, Board.transmitted};
ghost use Rattle.ring_board.specs.TransmitterSteps.{after_words, draft, drafted, place_before, sent_on, Learns};
ghost use Rattle.ring_board.specs.TransmitterSteps.{StoresHeader, StoresIntent, StoresLatest, StoresPadding, StoresTail};
ghost use Rattle.ring_board.specs.Refusals.{transmit_refusal_of, IsRefusedBy, IsRefusedAs};
ghost use Rattle.ring_board.specs.Seats.{IsSeatOf, IsSameSeat, capacity_of, view_of, tail_of, shares_of};
ghost use Rattle.ring_board.specs.Seats.{IsTransmitterOf, next_record, IsBegunOf, IsFilledOf, begun_view, filled_view};
ghost use Rattle.ring_board.specs.Seats.{filled_record, begun_tail, begun_type_id, begun_len, HasBegun, refused_with};

use crate::board::{BeginRefused, Begun, Board, Filled, Transmitter};
use crate::fault::TransmitFault;
use crate::shared::plays::transmitter::{
    Learn, StoreHeader, StoreIntent, StoreLatest, StorePadding, StoreTail, StoreWord,
};
use crate::shared::steps::BoardSeat;
use ring_layout::broadcast_buffer_descriptor::{
    LATEST_COUNTER_WORD, TAIL_COUNTER_WORD, TAIL_INTENT_COUNTER_WORD,
};
use ring_layout::{
    Admission, committed_header, first_word, is_length, is_position, is_type_id, max_message,
    padding_header, place_record,
};

impl Transmitter {
    /// Returns the position, in bytes, at which the last transmission ended, or the start if there was none.
    pub fn tail(&self) -> u64
        ensures tail { result ≡ tail_of self.now }
        ensures end { result ≡ end_of (view_of self.now).start (transmitted self.now) }
    {
        self.tail
    }

    /// Returns the number of shares that the transmitter holds.
    pub fn shares(&self) -> u32
        ensures { result ≡ shares_of self.now }
    {
        self.shares
    }
}

impl Board {
    /// Returns the place of the next record after a tail, or the reason why it cannot be transmitted.
    fn admit(&self, tail: u64, type_id: i32, len: usize) -> Result<Admission, TransmitFault>
        requires { tail ≤ max_position }
        ensures refused { IsRefusedBy (transmit_refusal_of self.now.capacity tail type_id len) result }
        ensures lawful { OnOk result ((pos 1 ≤ℤ type_id) × (len ≤ self.now.capacity / 8)) }
        ensures spot { IfOk result (λ s. (s.place ≡ next_place self.now.capacity tail (span len))
            × (s.end ≡ s.place + span len) × (s.end ≤ max_position)) }
    {
        if !is_type_id(type_id) {
            return Err(TransmitFault::BadType { type_id });
        }
        if !is_length(self.capacity, len) {
            let max = max_message(self.capacity);
            return Err(TransmitFault::TooLong { len, max });
        }
        let admission = place_record(self.capacity, tail, len);
        if !is_position(admission.end) {
            return Err(TransmitFault::PositionLimit { tail });
        }
        Ok(admission)
    }

    /// Stores the padding header, if the record is not at the tail.
    fn store_gap(&self, seat: &mut BoardSeat, tail: u64, place: u64)
        requires seat { IsSeatOf self.now seat.old }
        requires stage { (z : ℕ) × (seat.old.me.0.stage ≡ drafted (draft tail place z [])) }
        requires gap { (tail ≤ place) × (place ≤ tail + self.now.capacity) }
        ensures same { IsSameSeat seat.old seat.new }
        ensures padded { (z : ℕ) → seat.old.me.0.stage ≡ drafted (draft tail place z [])
            → seat.new.me ≡ (at_stage seat.old.me.0 (Storing (draft tail place z [])), seat.old.me.1) }
    {
        if tail < place {
            self.store_padding(seat, tail, padding_header(place - tail));
        }
    }

    /// Stores a record after its padding. Stores first the body, and then the header.
    fn store_record(&self, seat: &mut BoardSeat, tail: u64, place: u64, type_id: i32, body: &[u8])
        requires seat { IsSeatOf self.now seat.old }
        requires stage { seat.old.me.0.stage ≡ drafted (draft tail place (place + span (length body.now)) []) }
        requires place { place ≡ next_place self.now.capacity tail (span (length body.now)) }
        requires lawful { (pos 1 ≤ℤ type_id) × (length body.now ≤ self.now.capacity / 8) }
        requires whole { (tail % 8 ≡ 0) × (place ≤ max_position) }
        ensures same { IsSameSeat seat.old seat.new }
        ensures written { seat.new.me
            ≡ (at_stage seat.old.me.0 (Written (next_record self.now.capacity tail type_id body.now)), seat.old.me.1) }
    {
        self.store_gap(seat, tail, place);
        self.store_body(seat, place, body);
        let header = committed_header(type_id, body.len());
        self.store_header(seat, place, header);
    }

    /// Shows a record that is stored, and moves the tail past it.
    fn show_record(&self, seat: &mut BoardSeat, place: u64, tail: u64)
        requires seat { IsSeatOf self.now seat.old }
        requires stage { (r : Record) × (seat.old.me.0.stage ≡ Written r) × (place ≡ r.place) × (tail ≡ end r) }
        ensures same { IsSameSeat seat.old seat.new }
        ensures sent { (r : Record) → seat.old.me.0.stage ≡ Written r
            → seat.new.me ≡ (sent_on seat.old.me.0 r, seat.old.me.1) }
    {
        self.store_latest(seat, place);
        self.store_tail(seat, tail);
    }

    /// Tests whether a message of this type id and length can be transmitted now. The errors are those of `transmit`.
    /// Nothing changes.
    pub fn check(
        &self,
        transmitter: &Transmitter,
        type_id: i32,
        len: usize,
    ) -> Result<(), TransmitFault>
        ensures { IsRefusedBy (transmit_refusal_of (capacity_of self.now) (tail_of transmitter.now) type_id len)
            result }
    {
        self.admit(transmitter.tail, type_id, len)?;
        Ok(())
    }

    /// Transmits a message, which is then in the list that receivers read. The call never waits. These are the errors,
    /// in this order:
    /// - `BadType` if the type id is below 1;
    /// - `TooLong` if the body has more bytes than an eighth of the capacity;
    /// - `PositionLimit` if the record would end above 2^62.
    ///
    /// After an error nothing has changed.
    pub fn transmit(
        &self,
        transmitter: &mut Transmitter,
        type_id: i32,
        body: &[u8],
    ) -> Result<(), TransmitFault>
        requires { IsTransmitterOf self.now transmitter.old }
        ensures transmitted { OnOk result (transmitted transmitter.new ≡ transmitted transmitter.old
            ++ next_record (capacity_of self.now) (tail_of transmitter.old) type_id body.now ∷ []) }
        ensures board { IsTransmitterOf self.now transmitter.new }
        ensures refused { IsRefusedBy (transmit_refusal_of (capacity_of self.now) (tail_of transmitter.old) type_id
            (length body.now)) result }
        ensures same { OnErr result (transmitter.new ≡ transmitter.old) }
        ensures sent { OnOk result (view_of transmitter.new
            ≡ sent_on (view_of transmitter.old) (next_record (capacity_of self.now)
            (tail_of transmitter.old) type_id body.now)) }
    {
        let tail = transmitter.tail;
        let Admission { place, end, .. } = self.admit(tail, type_id, body.len())?;
        let seat = &mut transmitter.seat;
        self.store_intent(seat, end);
        self.store_record(seat, tail, place, type_id, body);
        self.show_record(seat, place, end);
        transmitter.tail = end;
        Ok(())
    }

    /// Begins a transmission of `len` bytes, and stores its intent. The errors are those of `transmit`. Each error
    /// returns the transmitter.
    pub fn begin(
        &self,
        transmitter: Transmitter,
        type_id: i32,
        len: usize,
    ) -> Result<Begun, BeginRefused>
        requires { IsTransmitterOf self.now transmitter }
        ensures transmitted { IfOk result (λ b. (begun_view b).sent ≡ transmitted transmitter) }
        ensures refused { IsRefusedAs (refused_with transmitter)
            (transmit_refusal_of (capacity_of self.now) (tail_of transmitter) type_id len) result }
        ensures begun { IfOk result (λ b. IsBegunOf self.now b
            × HasBegun (capacity_of self.now) transmitter type_id len b) }
    {
        let Admission { place, end, .. } = match self.admit(transmitter.tail, type_id, len) {
            Ok(admission) => admission,
            Err(reason) => {
                return Err(BeginRefused {
                    reason,
                    transmitter,
                });
            }
        };
        let Transmitter {
            mut seat,
            tail,
            shares,
        } = transmitter;
        self.store_intent(&mut seat, end);
        Ok(Begun {
            seat,
            tail,
            place,
            end,
            shares,
            type_id,
            len,
        })
    }

    /// Stores the padding, the body and the header of a transmission that was begun with this length.
    pub fn fill(&self, begun: Begun, body: &[u8]) -> Filled
        requires board { IsBegunOf self.now begun }
        requires len { length body.now ≡ begun_len begun }
        ensures transmitted { (filled_view result).sent ≡ (begun_view begun).sent }
        ensures stored { filled_record result
            ≡ next_record (capacity_of self.now) (begun_tail begun) (begun_type_id begun) body.now }
        ensures board { IsFilledOf self.now result }
        ensures filled { filled_view result ≡ at_stage (begun_view begun)
            (Written (next_record (capacity_of self.now) (begun_tail begun) (begun_type_id begun) body.now)) }
    {
        let Begun {
            mut seat,
            tail,
            place,
            end,
            shares,
            type_id,
            len: _,
        } = begun;
        self.store_record(&mut seat, tail, place, type_id, body);
        Filled {
            seat,
            place,
            next_tail: end,
            shares,
        }
    }

    /// Shows the record to the receivers, and moves the tail past it.
    pub fn publish(&self, filled: Filled) -> Transmitter
        requires { IsFilledOf self.now filled }
        ensures transmitted { transmitted result ≡ (filled_view filled).sent ++ filled_record filled ∷ [] }
        ensures board { IsTransmitterOf self.now result }
        ensures sent { view_of result ≡ sent_on (filled_view filled) (filled_record filled) }
    {
        let Filled {
            mut seat,
            place,
            next_tail,
            shares,
        } = filled;
        self.show_record(&mut seat, place, next_tail);
        Transmitter {
            seat,
            tail: next_tail,
            shares,
        }
    }
}

impl Begun {
    /// Leaves the transmission unfinished for good, on purpose, and gives up its transmitter. Nothing more can then be
    /// transmitted, and the broadcast buffer can never be closed.
    pub fn leak(self) {
        let Begun {
            seat: _,
            tail: _,
            place: _,
            end: _,
            shares: _,
            type_id: _,
            len: _,
        } = self;
    }
}

impl Filled {
    /// Leaves the record unshown for good, on purpose, as `Begun::leak` does.
    pub fn leak(self) {
        let Filled {
            seat: _,
            place: _,
            next_tail: _,
            shares: _,
        } = self;
    }
}

impl Board {
    /// Stores the intent of a transmission that will end at `end`.
    pub(crate) fn store_intent(&self, seat: &mut BoardSeat, end: u64)
        requires seat { IsSeatOf self.now seat.old }
        requires idle { seat.old.me.0.stage ≡ Idle }
        requires limit { end ≤ max_position }
        requires fits { Lies self.now.capacity seat.old.me.0.at seat.old.me.0.at
            (place_before self.now.capacity seat.old.me.0.at end) end }
        ensures same { IsSameSeat seat.old seat.new }
        ensures begun { StoresIntent seat.old.me end seat.new.me }
    {
        self.table
            .shared
            .store::<StoreIntent>(seat, self.trailer_index(TAIL_INTENT_COUNTER_WORD), end);
    }

    /// Stores the padding header before a record.
    pub(crate) fn store_padding(&self, seat: &mut BoardSeat, before: u64, word: u64)
        requires seat { IsSeatOf self.now seat.old }
        requires stage { (d : Draft) × (seat.old.me.0.stage ≡ StageBegun d) × (before ≡ d.before)
            × (word ≡ padding_header (d.place - d.before)) }
        ensures same { IsSameSeat seat.old seat.new }
        ensures padded { StoresPadding seat.old.me word seat.new.me }
    {
        self.table
            .shared
            .store::<StorePadding>(seat, self.index(before), word);
    }

    /// Stores the next word of a body.
    pub(crate) fn store_word(&self, seat: &mut BoardSeat, at: usize, word: u64)
        requires seat { IsSeatOf self.now seat.old }
        requires stage { (d : Draft) × (seat.old.me.0.stage ≡ Storing d)
            × (at ≡ index self.now.capacity (d.place + 8 + 8 * length d.words))
            × (d.place + 8 + 8 * length d.words < d.end) }
        ensures same { IsSameSeat seat.old seat.new }
        ensures put { StoresWord seat.old.me word seat.new.me }
    {
        self.table.shared.store::<StoreWord>(seat, at, word);
    }

    /// Stores the header of a record whose body is stored.
    pub(crate) fn store_header(&self, seat: &mut BoardSeat, place: u64, word: u64)
        requires seat { IsSeatOf self.now seat.old }
        requires stage { (d : Draft) × (m : Message) × (seat.old.me.0.stage ≡ Storing d) × (place ≡ d.place)
            × IsMessage self.now.capacity m × (words_of_body m.body ≡ d.words)
            × (d.place + span (length m.body) ≡ d.end)
            × (word ≡ header_of m) }
        ensures same { IsSameSeat seat.old seat.new }
        ensures written { StoresHeader seat.old.me word seat.new.me }
    {
        self.table
            .shared
            .store::<StoreHeader>(seat, self.index(place), word);
    }

    /// Stores latest. Receivers that subscribe or are lapped go to this record.
    pub(crate) fn store_latest(&self, seat: &mut BoardSeat, place: u64)
        requires seat { IsSeatOf self.now seat.old }
        requires stage { (r : Record) × (seat.old.me.0.stage ≡ Written r) × (place ≡ r.place) }
        ensures same { IsSameSeat seat.old seat.new }
        ensures shown { StoresLatest seat.old.me place seat.new.me }
    {
        self.table
            .shared
            .store::<StoreLatest>(seat, self.trailer_index(LATEST_COUNTER_WORD), place);
    }

    /// Stores the tail. The record is then transmitted.
    pub(crate) fn store_tail(&self, seat: &mut BoardSeat, tail: u64)
        requires seat { IsSeatOf self.now seat.old }
        requires stage { (r : Record) × (seat.old.me.0.stage ≡ Shown r) × (tail ≡ end r) }
        ensures same { IsSameSeat seat.old seat.new }
        ensures sent { StoresTail seat.old.me tail seat.new.me }
    {
        self.table
            .shared
            .store::<StoreTail>(seat, self.trailer_index(TAIL_COUNTER_WORD), tail);
    }

    /// Stores a body after the place of its record.
    pub(crate) fn store_body(&self, seat: &mut BoardSeat, place: u64, body: &[u8])
        requires seat { IsSeatOf self.now seat.old }
        requires stage { (d : Draft) × (seat.old.me.0.stage ≡ Storing d) × (d.words ≡ []) × (d.place ≡ place)
            × (place + span (length body.now) ≡ d.end) }
        requires place { (place % 8 ≡ 0) × (place ≤ max_position) }
        requires inside { place % self.now.capacity + span (length body.now) ≤ self.now.capacity }
        ensures same { IsSameSeat seat.old seat.new }
        ensures put { seat.new.me
            ≡ (at_stage seat.old.me.0 (after_words seat.old.me.0.stage (words_of_body body.now)), seat.old.me.1) }
    {
        let first = self.index(place) + 1;
        for k in 0..body.len().div_ceil(8) {
            self.store_word(seat, first + k, first_word(&body[8 * k..]));
        }
    }

    /// Loads latest for the transmitter. By this load it learns of a receiver that it took back.
    pub(crate) fn learn(&self, seat: &mut BoardSeat) -> u64
        requires seat { IsSeatOf self.now seat.old }
        requires stage { seat.old.me.0.stage ≡ Idle }
        ensures same { IsSameSeat seat.old seat.new }
        ensures learned { Learns seat.old.me result seat.new.me }
    {
        self.table
            .shared
            .load::<Learn>(seat, self.trailer_index(LATEST_COUNTER_WORD))
    }
}
