//! The steps of receivers. Each step is one load.
ghost use Rattle.std.specs.Prelude.{◌≡◌, ◌+◌, ◌*◌, ◌/◌, ◌<◌, length, ℕ, List};
ghost use Rattle.ring_layout.specs.Places.{index};
ghost use Rattle.ring_board.specs.declared.shared.view.Stage.TheVariants.{Resting, Reading, Behind};
ghost use Rattle.ring_board.specs.{Records.body_len, Records.word_count, Seats.IsSeatOf, Seats.IsSameSeat};
ghost use Rattle.ring_board.specs.ReceiverSteps.{IsHeaderPlace, IsUnread, IsComplete, LoadsTail, LoadsHeader, LoadsWord, LoadsIntent, AnswersEntry, LoadsLatest, LoadsUnread, ChecksAnswered};

use crate::board::Board;
use crate::shared::plays::receiver::{
    AnswerEntry, CheckAnswered, LoadHeader, LoadIntent, LoadLatest, LoadTail, LoadUnread, LoadWord,
};
use crate::shared::steps::BoardSeat;
use ring_layout::broadcast_buffer_descriptor::{
    LATEST_COUNTER_WORD, TAIL_COUNTER_WORD, TAIL_INTENT_COUNTER_WORD,
};

impl Board {
    /// Loads the tail.
    pub(crate) fn load_tail(&self, seat: &mut BoardSeat) -> u64
        requires seat { IsSeatOf self.now seat.old }
        requires stage { seat.old.me.0.stage ≡ Resting }
        ensures same { IsSameSeat seat.old seat.new }
        ensures seen { LoadsTail seat.old.me result seat.new.me }
    {
        self.table
            .shared
            .load::<LoadTail>(seat, self.trailer_index(TAIL_COUNTER_WORD))
    }

    /// Loads the next header, which is at the receiver's place, or after padding at this place.
    pub(crate) fn load_header(&self, seat: &mut BoardSeat, place: u64) -> u64
        requires seat { IsSeatOf self.now seat.old }
        requires place { IsHeaderPlace seat.old.me.0 place }
        ensures same { IsSameSeat seat.old seat.new }
        ensures heard { LoadsHeader (index self.now.capacity place) seat.old.me result seat.new.me }
    {
        self.table
            .shared
            .load::<LoadHeader>(seat, self.index(place))
    }

    /// Loads the next word of a body.
    pub(crate) fn load_word(&self, seat: &mut BoardSeat, at: usize) -> u64
        requires seat { IsSeatOf self.now seat.old }
        requires stage { (w : ℕ) × (ws : List ℕ) × (seat.old.me.0.stage ≡ Reading w ws)
            × (length ws < word_count (body_len w))
            × (at ≡ index self.now.capacity (seat.old.me.0.at + 8 + 8 * length ws)) }
        ensures same { IsSameSeat seat.old seat.new }
        ensures read { LoadsWord at seat.old.me result seat.new.me }
    {
        self.table.shared.load::<LoadWord>(seat, at)
    }

    /// Loads the intent, to validate a header, or a body that was copied.
    pub(crate) fn load_intent(&self, seat: &mut BoardSeat) -> u64
        requires seat { IsSeatOf self.now seat.old }
        requires loaded { IsComplete seat.old.me.0.stage }
        ensures same { IsSameSeat seat.old seat.new }
        ensures seen { LoadsIntent seat.old.me result seat.new.me }
    {
        self.table
            .shared
            .load::<LoadIntent>(seat, self.trailer_index(TAIL_INTENT_COUNTER_WORD))
    }

    /// Loads the intent, to validate the header of an entry that is then returned without its body.
    pub(crate) fn answer_entry(&self, seat: &mut BoardSeat) -> u64
        requires seat { IsSeatOf self.now seat.old }
        requires stage { (w : ℕ) × IsUnread w seat.old.me.0.stage }
        ensures same { IsSameSeat seat.old seat.new }
        ensures seen { AnswersEntry seat.old.me result seat.new.me }
    {
        self.table
            .shared
            .load::<AnswerEntry>(seat, self.trailer_index(TAIL_INTENT_COUNTER_WORD))
    }

    /// Loads a word of the body of a record that was returned without its body.
    pub(crate) fn load_unread(&self, seat: &mut BoardSeat, at: usize) -> u64
        requires seat { IsSeatOf self.now seat.old }
        requires stage { seat.old.me.0.stage ≡ Resting }
        requires at { at < self.now.capacity / 8 }
        ensures same { IsSameSeat seat.old seat.new }
        ensures seen { LoadsUnread at seat.old.me result seat.new.me }
    {
        self.table.shared.load::<LoadUnread>(seat, at)
    }

    /// Loads the intent, to validate a record that was returned without its body.
    pub(crate) fn check_answered(&self, seat: &mut BoardSeat) -> u64
        requires seat { IsSeatOf self.now seat.old }
        requires stage { (seat.old.me.0.stage ≡ Resting) × (seat.old.me.0.capacity ≡ self.now.capacity) }
        ensures same { IsSameSeat seat.old seat.new }
        ensures seen { ChecksAnswered seat.old.me result seat.new.me }
    {
        self.table
            .shared
            .load::<CheckAnswered>(seat, self.trailer_index(TAIL_INTENT_COUNTER_WORD))
    }

    /// Loads latest after a failed validation.
    pub(crate) fn load_latest(&self, seat: &mut BoardSeat) -> u64
        requires seat { IsSeatOf self.now seat.old }
        requires stage { seat.old.me.0.stage ≡ Behind }
        ensures same { IsSameSeat seat.old seat.new }
        ensures seen { LoadsLatest seat.old.me result seat.new.me }
    {
        self.table
            .shared
            .load::<LoadLatest>(seat, self.trailer_index(LATEST_COUNTER_WORD))
    }
}
