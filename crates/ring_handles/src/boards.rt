//! What a broadcast buffer's handles do.
ghost use Rattle.std.specs.Prelude.{◌≡◌, IfErr, IfOk};
ghost use Rattle.ring_handles.specs.Boards.{heard_out, lap_out, CopiesOut, IsUnheard, Received, SaysLap, SaysLapped, SaysPlace, Subscribes, TellsLap, TransmitsOut, Transmitted};

use crate::code::{DONE, LAPPED, NO_MESSAGE, SHORT_BUFFER};
use crate::identity::Identity;
use ring_board::Lapped;
use ring_ends::{ReceiverEnd, TransmitterEnd};
use std::alloc::Global;
use std::marker::Model;

/// A transmitter, with its broadcast buffer.
#[derive(Drop)]
pub struct TransmitterSide {
    pub(crate) end: TransmitterEnd,
    /// The broadcast buffer's number.
    pub(crate) identity: Identity,
}

/// A receiver, with its broadcast buffer.
#[derive(Drop)]
pub struct ReceiverSide {
    pub(crate) end: ReceiverEnd,
    /// The number of the broadcast buffer, or of its conductor.
    pub(crate) identity: Identity,
    /// How it was lapped last.
    pub(crate) lap: Option<Lapped>,
}

impl Model for ReceiverSide {
    ghost use Rattle.ring_handles.specs.Boards.{Listening};

    ghost Value = { Listening };

    ghost view = { λ a. record { end = a.end.end; identity = a.identity; lap = a.lap; own = a.end.lender } };
}

impl TransmitterSide {
    /// The bytes of the broadcast buffer.
    pub(crate) fn capacity(&self) -> u32
        ensures { result ≡ self.now.end.capacity }
    {
        self.end.capacity()
    }

    /// Transmits a message.
    pub fn transmit(&mut self, type_id: i32, body: &[u8]) -> i32
        ensures transmitted { TransmitsOut type_id body.now self.old self.new result }
        ensures does { Transmitted type_id body.now self.old self.new result }
    {
        match self.end.transmit(type_id, body) {
            Ok(()) => DONE,
            Err(fault) => fault.code(),
        }
    }

    /// Makes a receiver of the same broadcast buffer.
    pub fn subscribe(&mut self, alloc: Global) -> Result<ReceiverSide, i32>
        ensures subscribed { IfOk result (Subscribes self.old self.new) }
        ensures refused { IfErr result (λ code. (self.new ≡ self.old) × IsUnheard self.old code) }
    {
        match self.end.subscribe(alloc) {
            Ok(end) => Ok(ReceiverSide {
                end,
                identity: self.identity,
                lap: None,
            }),
            Err(fault) => Err(fault.code()),
        }
    }
}

/// Reports where a receiver was when it was lapped last, and the intent that showed it.
pub(crate) fn tell_lap(lap: Option<Lapped>, place: &mut u64, intent: &mut u64) -> i32
    ensures { TellsLap (lap_out place.old intent.old) (lap_out place.new intent.new) lap result }
{
    match lap {
        Some(missed) => {
            *place = missed.place;
            *intent = missed.intent;
            DONE
        }
        None => NO_MESSAGE,
    }
}

impl ReceiverSide {
    /// The bytes of the broadcast buffer.
    pub(crate) fn capacity(&self) -> u32
        ensures { result ≡ self.now.end.capacity }
    {
        self.end.capacity()
    }

    /// Reports the position, in bytes, at which the next call looks for a record.
    pub fn place(&mut self, place: &mut u64) -> i32
        ensures { SaysPlace place.new self.old self.new result }
    {
        *place = self.end.place();
        DONE
    }

    /// Reports where the receiver was when it was lapped last, and the intent that showed it.
    pub fn lap(&mut self, place: &mut u64, intent: &mut u64) -> i32
        ensures { SaysLap (lap_out place.old intent.old) (lap_out place.new intent.new) self.old self.new result }
    {
        tell_lap(self.lap, place, intent)
    }

    /// Receives the next message into a buffer that has room for the longest one.
    pub fn receive(
        &mut self,
        type_id: &mut i32,
        len: &mut usize,
        lapped: &mut u64,
        buffer: &mut [u8],
    ) -> i32
        ensures copied { CopiesOut (heard_out type_id.old len.old lapped.old buffer.old)
            (heard_out type_id.new len.new lapped.new buffer.new) self.old self.new result }
        ensures does { Received (heard_out type_id.old len.old lapped.old buffer.old)
            (heard_out type_id.new len.new lapped.new buffer.new) self.old self.new result }
    {
        let longest = self.end.max_message() as usize;
        if buffer.len() < longest {
            *len = longest;
            return SHORT_BUFFER;
        }
        match self.end.receive(buffer) {
            Ok(None) => NO_MESSAGE,
            Ok(Some(heard)) => {
                *type_id = heard.type_id;
                *len = heard.len;
                DONE
            }
            Err(missed) => {
                *lapped = missed.count;
                self.lap = Some(missed);
                LAPPED
            }
        }
    }

    /// Reports how often the receiver was lapped.
    pub fn lapped_count(&mut self, count: &mut u64) -> i32
        ensures { SaysLapped count.new self.old self.new result }
    {
        *count = self.end.lapped_count();
        DONE
    }
}
