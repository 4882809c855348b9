//! A broadcast buffer, its transmitter and its receivers.
ghost use Rattle.std.specs.Prelude.{◌≡◌, ◌+◌, ◌/◌, ◌%◌, ◌^◌, ◌<◌, ◌≤◌, pos, ◌≤ℤ◌, [], vec_len, IsTrue};
ghost use Rattle.std.specs.Int.{is_power_of_two};
ghost use Rattle.ring_layout.specs.{History.span, Places.max_position, Places.next_place, Refusals.all_shares};
ghost use Rattle.ring_board.specs.declared.shared.view.Stage.TheVariants.{Idle, Written, Resting};
ghost use Rattle.ring_board.specs.Records.{end, end_of};
ghost use Rattle.ring_board.specs.TransmitterSteps.{draft, drafted, record_at};

use crate::fault::{ReceiversOut, TransmitFault};
use crate::shared::steps::{BoardSeat, BoardTable};

/// A broadcast buffer.
#[derive(Drop)]
pub struct Board {
    pub(crate) table: BoardTable,
    // Room for the words that `close` returns.
    pub(crate) words: Vec<u64>,
    pub(crate) capacity: u32,
    ghost key: { table.shared.key.capacity ≡ capacity },
    ghost wide: { (table.shared.table_id.words ≡ capacity / 8 + 16) × (table.shared.table_id.slots ≡ 0)
        × (vec_len words ≡ capacity / 8 + 16) },
    ghost lawful: { (256 ≤ capacity) × (capacity ≤ 2 ^ 24) × (capacity % 64 ≡ 0) },
    ghost power: { IsTrue (is_power_of_two capacity) },
}

/// The one transmitter of a broadcast buffer. One thread at a time uses a transmitter. A transmitter may move between
/// threads. A transmitter begins with 65,536 shares, and gives one share to each receiver. `close` needs all shares
/// back.
#[derive(Drop)]
pub struct Transmitter {
    pub(crate) seat: BoardSeat,
    pub(crate) tail: u64,
    pub(crate) shares: u32,
    ghost idle: { (seat.me.0.stage ≡ Idle) × (seat.me.1 ≡ []) },
    ghost ends: { (seat.me.0.at ≡ tail) × (tail ≡ end_of seat.me.0.start seat.me.0.sent) },
    ghost whole: { (tail % 8 ≡ 0) × (tail ≤ max_position) },
    ghost held: { (seat.me.0.shares ≡ shares) × (0 < shares) × (shares ≤ all_shares) },
}

/// A transmission whose intent is stored. It owns the transmitter. This type is not `Drop`, so a program that forgets a
/// transmission does not compile. Otherwise receivers would be lapped by the intent, although nothing is ever shown.
pub struct Begun {
    pub(crate) seat: BoardSeat,
    pub(crate) tail: u64,
    pub(crate) place: u64,
    pub(crate) end: u64,
    pub(crate) shares: u32,
    pub(crate) type_id: i32,
    pub(crate) len: usize,
    ghost begun: { (seat.me.0.stage ≡ drafted (draft tail place end [])) × (seat.me.1 ≡ []) },
    ghost ends: { (seat.me.0.at ≡ tail) × (tail ≡ end_of seat.me.0.start seat.me.0.sent) },
    ghost lies: { (place ≡ next_place seat.me.0.capacity tail (span len)) × (end ≡ place + span len) },
    ghost whole: { (tail % 8 ≡ 0) × (end ≤ max_position) },
    ghost lawful: { (pos 1 ≤ℤ type_id) × (len ≤ seat.me.0.capacity / 8) },
    ghost held: { (seat.me.0.shares ≡ shares) × (0 < shares) × (shares ≤ all_shares) },
}

/// A transmission whose record is stored, but not yet shown. It owns the transmitter. Like `Begun`, this type is not
/// `Drop`.
pub struct Filled {
    pub(crate) seat: BoardSeat,
    pub(crate) place: u64,
    pub(crate) next_tail: u64,
    pub(crate) shares: u32,
    ghost written: { (seat.me.0.stage ≡ Written (record_at seat.me.0.stage)) × (seat.me.1 ≡ []) },
    ghost lies: { (place ≡ (record_at seat.me.0.stage).place) × (next_tail ≡ end (record_at seat.me.0.stage)) },
    ghost whole: { (next_tail % 8 ≡ 0) × (next_tail ≤ max_position) },
    ghost held: { (seat.me.0.shares ≡ shares) × (0 < shares) × (shares ≤ all_shares) },
}

/// A transmission was refused before it began. The transmitter comes back unchanged.
#[derive(Drop)]
pub struct BeginRefused {
    pub reason: TransmitFault,
    pub transmitter: Transmitter,
}

/// The words of a closed broadcast buffer.
#[derive(Drop)]
pub struct ClosedBoard {
    pub(crate) words: Vec<u64>,
    pub(crate) capacity: u32,
    ghost wide: { vec_len words ≡ capacity / 8 + 16 },
}

/// A broadcast buffer was not closed, since a receiver has a share. All arguments come back unchanged.
#[derive(Drop)]
pub struct BoardCloseRefused {
    pub reason: ReceiversOut,
    pub board: Board,
    pub transmitter: Transmitter,
}

/// A receiver that returns records without their bodies. The bodies are loaded and validated when the user of the
/// receiver asks for them. One thread at a time uses a receiver. A receiver may move between threads. A dropped
/// receiver keeps its share, so the broadcast buffer can then never be closed.
#[derive(Drop)]
pub struct Receiver {
    pub(crate) seat: BoardSeat,
    pub(crate) place: u64,
    pub(crate) count: u64,
    ghost rests: { (seat.me.0.stage ≡ Resting) × (seat.me.1 ≡ []) },
    ghost stands: { (seat.me.0.at ≡ place) × (place ≤ max_position) × (seat.me.0.count ≡ count) },
    ghost held: { seat.me.0.shares ≡ 1 },
}

/// A receiver that copies each message and validates the copy. One thread at a time uses a receiver. A receiver may
/// move between threads. A dropped receiver keeps its share, so the broadcast buffer can then never be closed.
#[derive(Drop)]
pub struct CopyReceiver {
    // The seat, the place and the count are those of a raw receiver.
    pub(crate) receiver: Receiver,
    pub(crate) scratch: Vec<u8>,
    ghost room: { vec_len scratch ≡ receiver.seat.me.0.capacity / 8 },
}

/// A record that a raw receiver returned without its body.
#[derive(Clone, Copy, Debug, PartialEq, Eq)]
pub struct RawRecord {
    pub(crate) place: u64,
    pub(crate) type_id: i32,
    pub(crate) len: usize,
}

/// A message that was copied. The record of the message is at `place`, in bytes.
#[derive(Clone, Copy, Debug)]
pub struct Copied<'a> {
    pub place: u64,
    pub type_id: i32,
    pub body: &'a [u8],
}
