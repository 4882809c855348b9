//! What a transmitter takes back, and how its broadcast buffer ends.
ghost use Rattle.std.specs.Prelude.{◌≡◌, IfErr, IfOk, OnOk};
ghost use Rattle.ring_handles.specs.Returning.{BoardEndsAt, IsAstray, IsAtBoard, IsBoardKept, IsOfThisBoard};
ghost use Rattle.ring_handles.specs.Returning.{IsRawAstray, TakesListener, TakesWatcher};

use crate::boards::{ReceiverSide, TransmitterSide};
use crate::code::{IN_USE, OTHER_RING, RECEIVERS_OUT};
use crate::raw::RawReceiverSide;
use ring_layout::ALL_SHARES;

impl TransmitterSide {
    /// Takes a receiver of the broadcast buffer back, with its share. Otherwise it comes back.
    pub fn join(&mut self, receiver: ReceiverSide) -> Result<(), (i32, ReceiverSide)>
        requires { IsOfThisBoard self.old receiver }
        ensures joined { OnOk result (TakesListener self.old receiver self.new) }
        ensures refused { IfErr result (λ r. (self.new ≡ self.old) × (r.1 ≡ receiver)
            × IsAstray self.old receiver r.0) }
    {
        if receiver.end.is_lent() || !self.identity.is(receiver.identity) {
            return Err((OTHER_RING, receiver));
        }
        self.end.join(receiver.end);
        Ok(())
    }

    /// Takes a raw receiver of the broadcast buffer back, with its share. Otherwise it comes back.
    pub fn join_raw(&mut self, raw: RawReceiverSide) -> Result<(), (i32, RawReceiverSide)>
        requires { IsAtBoard self.old raw }
        ensures joined { OnOk result (TakesWatcher self.old raw self.new) }
        ensures refused { IfErr result (λ r. (self.new ≡ self.old) × (r.1 ≡ raw)
            × IsRawAstray self.old raw r.0) }
    {
        if !self.identity.is(raw.identity) {
            return Err((OTHER_RING, raw));
        }
        self.end.join_raw(raw.end);
        Ok(())
    }

    /// Takes the broadcast buffer apart if no other handle has it, and returns the end of the last transmission.
    /// Receivers that were freed are not missed. Otherwise the transmitter comes back.
    pub fn close(self) -> Result<u64, (i32, TransmitterSide)>
        ensures closed { IfOk result (BoardEndsAt self) }
        ensures refused { IfErr result (λ r. (r.1 ≡ self) × IsBoardKept self r.0) }
    {
        let TransmitterSide { end, identity } = self;
        match end.close() {
            Ok(closed) => Ok(closed.tail()),
            Err(end) => {
                let code = if end.shares() == ALL_SHARES {
                    IN_USE
                } else {
                    RECEIVERS_OUT
                };
                Err((code, TransmitterSide { end, identity }))
            }
        }
    }
}
