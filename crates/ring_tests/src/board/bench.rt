//! A board with its transmitter and a receiver of each kind, on which calls are made.
ghost use Rattle.std.specs.Prelude.{◌≡◌};
ghost use Rattle.ring_board.specs.Seats.{IsReceiverOf, IsTransmitterOf};

use crate::calls::Plays;
use ring_board::{
    Begun, Board, BoardCloseRefused, ClosedBoard, CopyReceiver, Filled, Lapped, RawRecord,
    Receiver, TransmitFault, Transmitter,
};
use std::alloc::Global;
use std::marker::Model;
use std::process::Abort;

/// A call on a board or on one of its seats.
#[derive(Clone, Copy)]
pub enum Call<'a> {
    /// A message of this type id and body is transmitted.
    Transmit(i32, &'a [u8]),
    /// This many messages of type 1 are transmitted, each of this many bytes 7, up to 32.
    Send(u32, usize),
    /// A transmission of this type id and length begins.
    Begin(i32, usize),
    /// The transmission that began gets its bytes, which are all 7.
    Fill,
    Publish,
    Tail,
    Shares,
    Capacity,
    MaxMessage,
    /// A copying receiver subscribes. One that had subscribed before is lost.
    Subscribe,
    Receive,
    Place,
    LappedCount,
    Join,
    /// A raw receiver subscribes.
    SubscribeRaw,
    /// The raw receiver answers the next record, which is kept.
    ReceiveNext,
    /// The same, but the record that was kept before stays.
    PassNext,
    /// The body of the kept record is loaded to the front of bytes that are 99.
    LoadBody,
    Validate,
    RawPlace,
    RawLappedCount,
    JoinRaw,
}

/// What a call answers.
#[derive(Clone, Copy, Debug, PartialEq, Eq)]
pub enum Answer {
    Done,
    Refused(TransmitFault),
    /// No receiver was made.
    NotSubscribed,
    /// There is no seat, transmission or record for this call.
    Missing,
    Nothing,
    /// How often the receiver was lapped, where it stood, and the intent.
    Lapped(u64, u64, u64),
    /// The place, the type id and the length of a copy, whose bytes are all 7.
    Copy(u64, i32, usize),
    /// A copy with other bytes.
    Misread,
    /// The place, the type id and the length of a record.
    Record(u64, i32, usize),
    Body([u8; 12]),
    Valid(bool),
    Number(u64),
}

/// A board of this capacity with its transmitter.
pub fn opened(rt: &impl Abort, alloc: Global, capacity: u32) -> (Board, Transmitter)
    ensures { IsTransmitterOf result.0 result.1 }
{
    Board::new(alloc, capacity).expect(rt, "a board")
}

/// A copying receiver.
pub fn subscribed(
    rt: &impl Abort,
    alloc: Global,
    board: &Board,
    transmitter: &mut Transmitter,
) -> CopyReceiver
    requires { IsTransmitterOf board.now transmitter.old }
    ensures transmitter { IsTransmitterOf board.now transmitter.new }
    ensures receiver { IsReceiverOf board.now result }
{
    board.subscribe(alloc, transmitter).expect(rt, "a receiver")
}

/// Why a board does not close, with the board and its transmitter.
pub fn refused(rt: &impl Abort, board: Board, transmitter: Transmitter) -> BoardCloseRefused
    requires { IsTransmitterOf board transmitter }
    ensures board { result.board ≡ board }
    ensures transmitter { result.transmitter ≡ transmitter }
{
    board.close(transmitter).err().expect(rt, "a refusal")
}

/// What a board holds that closes.
pub fn closed(rt: &impl Abort, board: Board, transmitter: Transmitter) -> ClosedBoard
    requires { IsTransmitterOf board transmitter }
{
    board.close(transmitter).ok().expect(rt, "a closed board")
}

/// A board with its seats.
pub struct Bench {
    alloc: Global,
    board: Board,
    transmitter: Option<Transmitter>,
    begun: Option<Begun>,
    /// The length of the transmission that began.
    len: usize,
    filled: Option<Filled>,
    receiver: Option<CopyReceiver>,
    raw: Option<Receiver>,
    /// The record that is kept of those that the raw receiver answered.
    kept: Option<RawRecord>,
}

impl Model for Bench {
    ghost use Rattle.std.specs.Prelude.{◌≡◌, IfSome};
    ghost use Rattle.ring_board.specs.Seats.{begun_len, raw_view, IsAnsweredRecord, IsBegunOf, IsFilledOf, IsRawOf, IsReceiverOf, IsTransmitterOf};

    ghost Value = { Unit {0} };

    ghost view = { λ b. tt };

    ghost invariant = { λ b. IfSome b.transmitter (IsTransmitterOf b.board)
        × IfSome b.begun (λ begun. IsBegunOf b.board begun × (begun_len begun ≡ b.len))
        × IfSome b.filled (IsFilledOf b.board)
        × IfSome b.receiver (IsReceiverOf b.board)
        × IfSome b.raw (λ raw. IsRawOf b.board raw × IfSome b.kept (IsAnsweredRecord (raw_view raw))) };
}

fn done(sent: Result<(), TransmitFault>) -> Answer {
    match sent {
        Ok(()) => Answer::Done,
        Err(fault) => Answer::Refused(fault),
    }
}

fn lapped_as(lapped: Lapped) -> Answer {
    Answer::Lapped(lapped.count, lapped.place, lapped.intent)
}

/// Leaves a transmission that began unfinished, if there is one.
fn leave_begun(begun: Option<Begun>) {
    match begun {
        Some(begun) => begun.leak(),
        None => {}
    }
}

/// Leaves a filled transmission unshown, if there is one.
fn leave_filled(filled: Option<Filled>) {
    match filled {
        Some(filled) => filled.leak(),
        None => {}
    }
}

impl Drop for Bench {
    fn drop(self) {
        let Bench {
            alloc: _,
            board: _,
            transmitter: _,
            begun,
            len: _,
            filled,
            receiver: _,
            raw: _,
            kept: _,
        } = self;
        leave_begun(begun);
        leave_filled(filled);
    }
}

impl Bench {
    /// A board of this capacity whose first record lies at this position, with no receiver.
    pub fn new(rt: &impl Abort, alloc: Global, capacity: u32, start: u64) -> Self {
        let (board, transmitter) = Board::new_at(alloc, capacity, start).expect(rt, "a board");
        Bench {
            alloc,
            board,
            transmitter: Some(transmitter),
            begun: None,
            len: 0,
            filled: None,
            receiver: None,
            raw: None,
            kept: None,
        }
    }

    fn transmit(&mut self, type_id: i32, body: &[u8]) -> Answer {
        match &mut self.transmitter {
            Some(transmitter) => done(self.board.transmit(transmitter, type_id, body)),
            None => Answer::Missing,
        }
    }

    /// Sends until a message is refused.
    fn send(&mut self, count: u32, len: usize) -> Answer {
        let body = [7; 32];
        for _ in 0..count {
            let answer = self.transmit(1, &body[..len.min(32)]);
            if answer != Answer::Done {
                return answer;
            }
        }
        Answer::Done
    }

    fn begin(&mut self, type_id: i32, len: usize) -> Answer {
        let Some(transmitter) = self.transmitter.take() else {
            return Answer::Missing;
        };
        match self.board.begin(transmitter, type_id, len) {
            Ok(begun) => {
                leave_begun(self.begun.take());
                self.len = len;
                leave_begun(self.begun.replace(begun));
                Answer::Done
            }
            Err(refused) => {
                self.transmitter = Some(refused.transmitter);
                Answer::Refused(refused.reason)
            }
        }
    }

    /// Fills a transmission of up to 32 bytes.
    fn fill(&mut self) -> Answer {
        let body = [7; 32];
        let len = self.len;
        match self.begun.take() {
            Some(begun) if len <= 32 => {
                let filled = self.board.fill(begun, &body[..len]);
                leave_filled(self.filled.replace(filled));
                Answer::Done
            }
            other => {
                leave_begun(other);
                Answer::Missing
            }
        }
    }

    fn publish(&mut self) -> Answer {
        match self.filled.take() {
            Some(filled) => {
                self.transmitter = Some(self.board.publish(filled));
                Answer::Done
            }
            None => Answer::Missing,
        }
    }

    fn subscribe(&mut self) -> Answer {
        let Some(transmitter) = &mut self.transmitter else {
            return Answer::Missing;
        };
        match self.board.subscribe(self.alloc, transmitter) {
            Ok(receiver) => {
                self.receiver = Some(receiver);
                Answer::Done
            }
            Err(_) => Answer::NotSubscribed,
        }
    }

    fn subscribe_raw(&mut self) -> Answer {
        let Some(transmitter) = &mut self.transmitter else {
            return Answer::Missing;
        };
        match self.board.subscribe_raw(transmitter) {
            Ok(receiver) => {
                self.kept = None;
                self.raw = Some(receiver);
                Answer::Done
            }
            Err(_) => Answer::NotSubscribed,
        }
    }

    fn join(&mut self) -> Answer {
        let Some(transmitter) = &mut self.transmitter else {
            return Answer::Missing;
        };
        match self.receiver.take() {
            Some(receiver) => {
                self.board.join(transmitter, receiver);
                Answer::Done
            }
            None => Answer::Missing,
        }
    }

    fn join_raw(&mut self) -> Answer {
        let Some(transmitter) = &mut self.transmitter else {
            return Answer::Missing;
        };
        match self.raw.take() {
            Some(receiver) => {
                self.board.join_raw(transmitter, receiver);
                Answer::Done
            }
            None => Answer::Missing,
        }
    }

    fn receive(&mut self) -> Answer {
        let Some(receiver) = &mut self.receiver else {
            return Answer::Missing;
        };
        match receiver.receive(&self.board) {
            Ok(Some(copied)) if copied.body.iter().all(|byte| *byte == 7) => {
                Answer::Copy(copied.place, copied.type_id, copied.body.len())
            }
            Ok(Some(_)) => Answer::Misread,
            Ok(None) => Answer::Nothing,
            Err(lapped) => lapped_as(lapped),
        }
    }

    fn receive_next(&mut self, keeps: bool) -> Answer {
        let Some(receiver) = &mut self.raw else {
            return Answer::Missing;
        };
        match receiver.receive_next(&self.board) {
            Ok(Some(record)) => {
                if keeps {
                    self.kept = Some(record);
                }
                Answer::Record(record.place(), record.type_id(), record.len())
            }
            Ok(None) => Answer::Nothing,
            Err(lapped) => lapped_as(lapped),
        }
    }

    fn load_body(&mut self) -> Answer {
        let Some(record) = self.kept else {
            return Answer::Missing;
        };
        let Some(receiver) = &mut self.raw else {
            return Answer::Missing;
        };
        let mut out = [99; 12];
        if record.len() > 12 {
            return Answer::Missing;
        }
        receiver.load_body(&self.board, &record, &mut out);
        Answer::Body(out)
    }

    fn validate(&mut self) -> Answer {
        let Some(record) = self.kept else {
            return Answer::Missing;
        };
        match &mut self.raw {
            Some(receiver) => Answer::Valid(receiver.validate(&self.board, &record)),
            None => Answer::Missing,
        }
    }

    /// Makes a call of the transmitter's.
    fn transmitter_call(&mut self, call: Call<'_>) -> Answer {
        match call {
            Call::Transmit(type_id, body) => self.transmit(type_id, body),
            Call::Send(count, len) => self.send(count, len),
            Call::Begin(type_id, len) => self.begin(type_id, len),
            Call::Fill => self.fill(),
            Call::Publish => self.publish(),
            Call::Join => self.join(),
            Call::JoinRaw => self.join_raw(),
            _ => self.number(call),
        }
    }

    /// Makes a call that changes nothing.
    fn number(&self, call: Call<'_>) -> Answer {
        match (call, &self.transmitter, &self.receiver, &self.raw) {
            (Call::Tail, Some(seat), _, _) => Answer::Number(seat.tail()),
            (Call::Shares, Some(seat), _, _) => Answer::Number(u64::from(seat.shares())),
            (Call::Place, _, Some(seat), _) => Answer::Number(seat.place()),
            (Call::LappedCount, _, Some(seat), _) => Answer::Number(seat.lapped_count()),
            (Call::RawPlace, _, _, Some(seat)) => Answer::Number(seat.place()),
            (Call::RawLappedCount, _, _, Some(seat)) => Answer::Number(seat.lapped_count()),
            (Call::Capacity, _, _, _) => Answer::Number(u64::from(self.board.capacity())),
            (Call::MaxMessage, _, _, _) => Answer::Number(u64::from(self.board.max_message())),
            _ => Answer::Missing,
        }
    }

    /// The content of the board, if the transmitter is here and has all shares.
    pub fn close(self) -> Option<ClosedBoard> {
        let Bench {
            alloc: _,
            board,
            transmitter,
            begun,
            len: _,
            filled,
            receiver: _,
            raw: _,
            kept: _,
        } = self;
        leave_begun(begun);
        leave_filled(filled);
        board.close(transmitter?).ok()
    }
}

impl<'a> Plays<Call<'a>, Answer> for Bench {
    fn call(&mut self, call: Call<'a>) -> Answer {
        match call {
            Call::Subscribe => self.subscribe(),
            Call::SubscribeRaw => self.subscribe_raw(),
            Call::Receive => self.receive(),
            Call::ReceiveNext => self.receive_next(true),
            Call::PassNext => self.receive_next(false),
            Call::LoadBody => self.load_body(),
            Call::Validate => self.validate(),
            _ => self.transmitter_call(call),
        }
    }
}

/// Makes calls on a board of this capacity that begins at this position, and tests what each answers.
pub fn played(
    rt: &impl Abort,
    alloc: Global,
    capacity: u32,
    start: u64,
    calls: &[(Call<'_>, Answer)],
) -> Bench {
    let mut bench = Bench::new(rt, alloc, capacity, start);
    bench.plays(rt, calls);
    bench
}

/// The same on a board of 256 bytes.
pub fn plays(rt: &impl Abort, alloc: Global, start: u64, calls: &[(Call<'_>, Answer)]) {
    let _bench = played(rt, alloc, 256, start, calls);
}
