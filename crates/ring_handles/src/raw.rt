//! What a broadcast buffer's raw receivers do.
ghost use Rattle.std.specs.Prelude.{◌≡◌, IfErr, IfOk};
ghost use Rattle.ring_handles.specs.Boards.{lap_out, seen, SaysLap, SaysLapped, SaysPlace};
ghost use Rattle.ring_handles.specs.Raw.{BodyLoaded, IsUnwatched, NextSeen, ReturnsOut, SubscribesRaw, Tested};

use crate::boards::{TransmitterSide, tell_lap};
use crate::code::{DONE, LAPPED, NO_MESSAGE, SHORT_BUFFER};
use crate::identity::Identity;
use ring_board::{Lapped, RawRecord};
use ring_ends::RawReceiverEnd;
use std::marker::Model;

/// A raw receiver, with its broadcast buffer.
#[derive(Drop)]
pub struct RawReceiverSide {
    pub(crate) end: RawReceiverEnd,
    /// The broadcast buffer's number.
    pub(crate) identity: Identity,
    /// The record that it returned last.
    pub(crate) latest: Option<RawRecord>,
    /// How it was lapped last.
    pub(crate) lap: Option<Lapped>,
}

impl Model for RawReceiverSide {
    ghost use Rattle.std.specs.Prelude.{IfSome};
    ghost use Rattle.ring_board.specs.Seats.{IsAnsweredRecord};
    ghost use Rattle.ring_handles.specs.Boards.{Watching};

    ghost Value = { Watching };

    ghost view = { λ a. record { end = a.end; identity = a.identity; lap = a.lap; own = a.latest } };

    ghost invariant = { λ a. IfSome a.latest (IsAnsweredRecord a.end.knows.0) };
}

impl TransmitterSide {
    /// Makes a raw receiver of the same broadcast buffer.
    pub fn subscribe_raw(&mut self) -> Result<RawReceiverSide, i32>
        ensures subscribed { IfOk result (SubscribesRaw self.old self.new) }
        ensures refused { IfErr result (λ code. (self.new ≡ self.old) × IsUnwatched self.old code) }
    {
        match self.end.subscribe_raw() {
            Ok(end) => Ok(RawReceiverSide {
                end,
                identity: self.identity,
                latest: None,
                lap: None,
            }),
            Err(fault) => Err(fault.code()),
        }
    }
}

impl RawReceiverSide {
    /// The bytes of the broadcast buffer.
    pub(crate) fn capacity(&self) -> u32
        ensures { result ≡ self.now.end.capacity }
    {
        self.end.capacity()
    }

    /// Reports the position, in bytes, at which the next call looks for a record.
    pub fn place(&mut self, place: &mut u64) -> i32
        ensures { SaysPlace place.new self.old self.new result }
    {
        *place = self.end.place();
        DONE
    }

    /// Reports where the receiver was when it was lapped last, and the intent that showed it.
    pub fn lap(&mut self, place: &mut u64, intent: &mut u64) -> i32
        ensures { SaysLap (lap_out place.old intent.old) (lap_out place.new intent.new) self.old self.new result }
    {
        tell_lap(self.lap, place, intent)
    }

    /// Returns the next record unread, and goes past it.
    pub fn receive_next(&mut self, type_id: &mut i32, len: &mut usize, lapped: &mut u64) -> i32
        ensures copied { ReturnsOut (seen type_id.new len.new lapped.new) self.old self.new result }
        ensures does { NextSeen (seen type_id.old len.old lapped.old) (seen type_id.new len.new lapped.new)
            self.old self.new result }
    {
        match self.end.receive_next() {
            Ok(None) => NO_MESSAGE,
            Ok(Some(raw)) => {
                *type_id = raw.type_id();
                *len = raw.len();
                self.latest = Some(raw);
                DONE
            }
            Err(missed) => {
                *lapped = missed.count;
                self.lap = Some(missed);
                LAPPED
            }
        }
    }

    /// Copies the body of the record that was returned last to the front of a buffer, unvalidated.
    pub fn load_body(&mut self, buffer: &mut [u8]) -> i32
        ensures { BodyLoaded buffer.old buffer.new self.old self.new result }
    {
        match self.latest {
            Some(raw) => {
                if buffer.len() < raw.len() {
                    return SHORT_BUFFER;
                }
                self.end.load_body(&raw, buffer);
                DONE
            }
            None => NO_MESSAGE,
        }
    }

    /// Tests whether the record that was returned last was not yet overwritten.
    pub fn validate(&mut self) -> i32
        ensures { Tested self.old self.new result }
    {
        match self.latest {
            Some(raw) => {
                if self.end.validate(&raw) {
                    DONE
                } else {
                    LAPPED
                }
            }
            None => NO_MESSAGE,
        }
    }

    /// Reports how often the receiver was lapped.
    pub fn lapped_count(&mut self, count: &mut u64) -> i32
        ensures { SaysLapped count.new self.old self.new result }
    {
        *count = self.end.lapped_count();
        DONE
    }
}
