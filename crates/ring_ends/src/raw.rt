//! A raw receiver with its broadcast buffer.
ghost use Rattle.std.specs.Prelude.{◌≡◌, ◌≤◌, true, length, take, drop};
ghost use Rattle.ring_board.specs.Bodies.{GaveBody, HasLoaded, IsRight, Validated};
ghost use Rattle.ring_board.specs.Seats.{len_of, place_of, IsAnsweredRecord};
ghost use Rattle.ring_ends.specs.BoardEnd.{laps_of, place_of_end, DoesAt, KeepsReturned, Looks, ReturnsOne};

use ring_board::{Board, Lapped, RawRecord, Receiver};
use std::marker::Model;
use std::sync::Arc;

/// A receiver that returns records without their bodies, with the broadcast buffer that it reads.
#[derive(Drop)]
pub struct RawReceiverEnd {
    pub(crate) board: Arc<Board>,
    pub(crate) receiver: Receiver,
}

impl Model for RawReceiverEnd {
    ghost use Rattle.std.specs.Arc.{arc_value};
    ghost use Rattle.ring_board.specs.{Seats.raw_seat, Seats.IsRawOf, Views.Sat};
    ghost use Rattle.ring_ends.specs.BoardEnd.{end_at, BoardEnd};

    ghost Value = { BoardEnd Sat };

    ghost view = { λ e. end_at (arc_value e.board) (raw_seat e.receiver) };

    ghost invariant = { λ e. IsRawOf (arc_value e.board) e.receiver };
}

impl RawReceiverEnd {
    /// Returns the next record without its body, if there is a record, and goes past it. Returns `Lapped` if the
    /// transmitter overtook the receiver. The next call then starts with the record at latest.
    pub fn receive_next(&mut self) -> Result<Option<RawRecord>, Lapped>
        ensures copied { ReturnsOne self.old result self.new }
        ensures does { DoesAt Looks self.old result self.new }
        ensures keeps { KeepsReturned self.old self.new }
    {
        self.receiver.receive_next(&self.board)
    }

    /// Copies the body of a record that this receiver returned to the front of `out`, without validation. The bytes may
    /// be those of another record, unless `validate` returns true afterwards. The rest of `out` is unchanged.
    pub fn load_body(&mut self, raw: &RawRecord, out: &mut [u8])
        requires raw { IsAnsweredRecord self.old.knows.0 raw.now }
        requires room { len_of raw.now ≤ length out.old }
        ensures loaded { HasLoaded self.new.knows.0 raw.now (take (len_of raw.now) out.new) }
        ensures does { DoesAt (λ m r n. GaveBody (place_of raw.now) (take (len_of raw.now) out.new) m n)
            self.old result self.new }
        ensures rest { drop (len_of raw.now) out.new ≡ drop (len_of raw.now) out.old }
        ensures keeps { KeepsReturned self.old self.new }
    {
        self.receiver.load_body(&self.board, raw, out);
    }

    /// Tests whether a record that this receiver returned is not overwritten yet. If so, each body of the record that
    /// `load_body` copied before is the body that was transmitted.
    pub fn validate(&mut self, raw: &RawRecord) -> bool
        requires { IsAnsweredRecord self.old.knows.0 raw.now }
        ensures right { result ≡ true → IsRight self.old.knows.0 raw.now }
        ensures does { DoesAt (λ m valid n. Validated raw.now valid m n) self.old result self.new }
        ensures keeps { KeepsReturned self.old self.new }
    {
        self.receiver.validate(&self.board, raw)
    }

    /// Returns the position, in bytes, at which the next call looks for a record.
    pub fn place(&self) -> u64
        ensures { result ≡ place_of_end self.now }
    {
        self.receiver.place()
    }

    /// Returns the number of times that the receiver was lapped.
    pub fn lapped_count(&self) -> u64
        ensures { result ≡ laps_of self.now }
    {
        self.receiver.lapped_count()
    }

    /// Returns the bytes of the buffer.
    pub fn capacity(&self) -> u32
        ensures { result ≡ self.now.capacity }
    {
        self.board.capacity()
    }
}
