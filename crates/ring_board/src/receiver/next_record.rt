//! The search of a receiver for the next record, and its copy.
ghost use Rattle.std.specs.Prelude.{◌≡◌, ℕ, ◌+◌, ◌-◌, ◌*◌, ◌/◌, ◌%◌, ◌^◌, ◌<◌, ◌≤◌, [], length, take, nat_le, MatchResult, MatchOption};
ghost use Rattle.std.specs.Int.{cast_signed, w32};
ghost use Rattle.ring_layout.specs.{History.span, Places.max_position};
ghost use Rattle.ring_board.specs.declared.shared.view.Stage.TheVariants.{Behind, Reading};
ghost use Rattle.ring_board.specs.Records.{announced, body_len, word_count, is_padding};
ghost use Rattle.ring_board.specs.Views.{Sat};
ghost use Rattle.ring_board.specs.{ReceiverSteps.IsSound, ReceiverSteps.LoadsLatest, Seats.IsSeatOf, Seats.IsSameSeat};
ghost use Rattle.ring_board.specs.Receiving.{RestsAt, FoundIs, NearIs, IsInBuffer, CopiedWords, TookAll, FailedBody, GotNothing, GotCopy, GotLapped, GotRecord, GotMiss};

use crate::board::{Board, RawRecord};
use crate::fault::Lapped;
use crate::receiver::found::{CopiedMessage, FailedValidation, Found};
use crate::shared::steps::BoardSeat;
use ring_layout::put_word;
use ring_layout::record_descriptor::{HEADER_LENGTH, unpack_header};

/// Returns the number of bytes that a header announces, the header included.
#[inline(always)]
fn announced(header: u64) -> u64
    ensures { (result ≡ announced header) × (result < 2 ^ 32) }
{
    header & 0xffff_ffff
}

/// Returns the type id that a header announces.
#[inline(always)]
fn announced_type(header: u64) -> i32
    ensures { result ≡ cast_signed w32 (header / 2 ^ 32) }
{
    unpack_header(header).1
}

/// Tests whether a header is one of padding.
#[inline(always)]
fn is_padding(header: u64) -> bool
    ensures { result ≡ is_padding header }
{
    header >> 32 == 0xffff_ffff
}

impl Board {
    /// Tests whether an intent has reached a place plus the capacity. If so, the words that were loaded at that place
    /// may be overwritten.
    #[inline(always)]
    pub(crate) fn is_lapped(&self, place: u64, intent: u64) -> bool
        requires { place ≤ max_position }
        ensures { result ≡ nat_le (place + self.now.capacity) intent }
    {
        intent >= place + u64::from(self.capacity)
    }

    /// Goes to the next entry, and past padding if there is some. Loads the header of the entry, which is not yet
    /// validated.
    #[inline(always)]
    fn load_next_header(&self, seat: &mut BoardSeat, place: u64) -> Found
        requires seat { IsSeatOf self.now seat.old }
        requires stage { RestsAt self.now.capacity place seat.old.me }
        ensures same { IsSameSeat seat.old seat.new }
        ensures near { NearIs result seat.old.me seat.new.me }
    {
        let tail = self.load_tail(seat);
        if tail <= place {
            return Found::Nothing(tail);
        }
        let header = self.load_header(seat, place);
        if !is_padding(header) {
            return Found::Entry(place, header);
        }
        let intent = self.load_intent(seat);
        if self.is_lapped(place, intent) {
            return Found::Missed(place, intent);
        }
        let behind = place + announced(header);
        Found::Entry(behind, self.load_header(seat, behind))
    }

    /// Looks for the next entry, and validates its header.
    #[inline(always)]
    fn find(&self, seat: &mut BoardSeat, place: u64) -> Found
        requires seat { IsSeatOf self.now seat.old }
        requires stage { RestsAt self.now.capacity place seat.old.me }
        ensures same { IsSameSeat seat.old seat.new }
        ensures found { FoundIs result seat.old.me seat.new.me }
    {
        match self.load_next_header(seat, place) {
            Found::Nothing(tail) => Found::Nothing(tail),
            Found::Missed(place, intent) => Found::Missed(place, intent),
            Found::Entry(place, header) => {
                let intent_before = self.load_intent(seat);
                if self.is_lapped(place, intent_before) {
                    Found::Missed(place, intent_before)
                } else {
                    Found::Entry(place, header)
                }
            }
        }
    }

    /// Returns the next record without its body, if there is a record. Otherwise returns the place and the intent of a
    /// failed validation.
    pub(crate) fn next_raw(
        &self,
        seat: &mut BoardSeat,
        place: u64,
    ) -> Result<Option<RawRecord>, FailedValidation>
        requires seat { IsSeatOf self.now seat.old }
        requires stage { RestsAt self.now.capacity place seat.old.me }
        ensures same { IsSameSeat seat.old seat.new }
        ensures got { MatchResult result (λ o. MatchOption o (GotNothing seat.old.me seat.new.me)
            (λ r. GotRecord r seat.old.me seat.new.me × IsInBuffer seat.old.me.0.capacity r))
            (λ m. GotMiss m.place m.intent seat.old.me seat.new.me) }
    {
        match self.load_next_header(seat, place) {
            Found::Nothing(_) => Ok(None),
            Found::Missed(place, intent) => Err(FailedValidation { place, intent }),
            Found::Entry(place, header) => {
                let intent = self.answer_entry(seat);
                if self.is_lapped(place, intent) {
                    return Err(FailedValidation { place, intent });
                }
                Ok(Some(RawRecord {
                    place,
                    type_id: announced_type(header),
                    len: announced(header) as usize - HEADER_LENGTH,
                }))
            }
        }
    }

    /// Copies the words of a body to the front of the scratch, after its header was validated.
    #[inline(always)]
    fn copy_body(&self, seat: &mut BoardSeat, place: u64, words: usize, scratch: &mut [u8])
        requires seat { IsSeatOf self.now seat.old }
        requires stage { (w : ℕ) × (seat.old.me.0.stage ≡ Reading w []) × (words ≡ word_count (body_len w))
            × (seat.old.me.0.at ≡ place) }
        requires inside { (place % 8 ≡ 0) × (place % self.now.capacity + 8 + 8 * words ≤ self.now.capacity) }
        requires room { 8 * words ≤ length scratch.old }
        ensures same { IsSameSeat seat.old seat.new }
        ensures copied { (w : ℕ) → seat.old.me.0.stage ≡ Reading w []
            → CopiedWords w words scratch.new seat.old.me seat.new.me }
    {
        let first = self.index(place) + 1;
        for k in 0..words {
            let word = self.load_word(seat, first + k);
            put_word(scratch, 8 * k, word);
        }
    }

    /// Copies a body to the front of the scratch after its header was validated, and validates again. Otherwise returns
    /// the intent that showed that the receiver was lapped.
    #[inline(always)]
    fn take(
        &self,
        seat: &mut BoardSeat,
        place: u64,
        header: u64,
        scratch: &mut [u8],
    ) -> Result<usize, u64>
        requires seat { IsSeatOf self.now seat.old }
        requires stage { (seat.old.me.0.stage ≡ Reading header []) × (seat.old.me.0.at ≡ place)
            × (seat.old.me.0.capacity ≡ self.now.capacity) }
        requires sound { IsSound self.now.capacity place header }
        requires room { length scratch.old ≡ self.now.capacity / 8 }
        ensures same { IsSameSeat seat.old seat.new }
        ensures took { MatchResult result (λ len. TookAll header len scratch.new seat.old.me seat.new.me
            × (len ≡ body_len header)) (λ x. FailedBody x seat.old.me seat.new.me) }
    {
        let len = announced(header) as usize - HEADER_LENGTH;
        self.copy_body(seat, place, len.div_ceil(8), scratch);
        let intent_after = self.load_intent(seat);
        if self.is_lapped(place, intent_after) {
            Err(intent_after)
        } else {
            Ok(len)
        }
    }

    /// Goes to the record at latest, after a failed validation, and returns its place. The count that is reported is
    /// one more than before.
    pub(crate) fn go_to_latest(
        &self,
        seat: &mut BoardSeat,
        count: u64,
        miss: FailedValidation,
    ) -> (u64, Lapped)
        requires seat { IsSeatOf self.now seat.old }
        requires stage { (seat.old.me.0.stage ≡ Behind) × (seat.old.me.0.count ≡ count) }
        ensures same { IsSameSeat seat.old seat.new }
        ensures seen { LoadsLatest seat.old.me result.0 seat.new.me }
        ensures lapped { (m : Sat) → GotMiss miss.place miss.intent m seat.old.me → GotLapped result.1 m seat.new.me }
        ensures count { result.1.count ≡ count + 1 }
    {
        let place = self.load_latest(seat);
        let lapped = Lapped {
            count: count + 1,
            place: miss.place,
            intent: miss.intent,
        };
        (place, lapped)
    }

    /// Copies the next message to the front of the scratch, if there is one. Otherwise returns the place and the intent
    /// of a failed validation.
    #[inline(always)]
    pub(crate) fn copy_next(
        &self,
        seat: &mut BoardSeat,
        place: u64,
        scratch: &mut [u8],
    ) -> Result<Option<CopiedMessage>, FailedValidation>
        requires seat { IsSeatOf self.now seat.old }
        requires stage { RestsAt self.now.capacity place seat.old.me }
        requires room { length scratch.old ≡ self.now.capacity / 8 }
        ensures same { IsSameSeat seat.old seat.new }
        ensures got { MatchResult result (λ o. MatchOption o (GotNothing seat.old.me seat.new.me)
            (λ f. GotCopy f.place f.type_id (take f.len scratch.new) seat.old.me seat.new.me))
            (λ m. GotMiss m.place m.intent seat.old.me seat.new.me) }
        ensures bound { MatchResult result (λ o. MatchOption o (Unit {0})
            (λ f. (f.place + span f.len ≤ max_position) × (f.len ≤ length scratch.new))) (λ m. Unit {0}) }
    {
        match self.find(seat, place) {
            Found::Nothing(_) => Ok(None),
            Found::Missed(place, intent) => Err(FailedValidation { place, intent }),
            Found::Entry(place, header) => match self.take(seat, place, header, scratch) {
                Ok(len) => Ok(Some(CopiedMessage {
                    place,
                    type_id: announced_type(header),
                    len,
                })),
                Err(intent) => Err(FailedValidation { place, intent }),
            },
        }
    }
}
