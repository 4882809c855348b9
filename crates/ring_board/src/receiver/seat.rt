//! The step that gives a receiver of either kind its seat.
ghost use Rattle.std.specs.Prelude.{◌≡◌, ◌<◌};
ghost use Rattle.ring_board.specs.Views.{fewer, newcomer};
ghost use Rattle.ring_board.specs.Seats.{IsRawOf, IsTransmitterOf, raw_view, shares_of, view_of};

use crate::board::{Board, Receiver, Transmitter};

impl Board {
    /// Gives one of the transmitter's shares to a receiver that starts with the record at latest.
    pub(crate) fn seat_receiver(&self, transmitter: &mut Transmitter) -> Receiver
        requires board { IsTransmitterOf self.now transmitter.old }
        requires shares { 1 < shares_of transmitter.old }
        ensures board { IsTransmitterOf self.now transmitter.new }
        ensures receiver { IsRawOf self.now result × (raw_view result ≡ newcomer (view_of transmitter.old)) }
        ensures transmitter { view_of transmitter.new ≡ fewer (view_of transmitter.old) }
    {
        let place = self.learn(&mut transmitter.seat);
        let seat = self.split_off(&mut transmitter.seat);
        transmitter.shares -= 1;
        Receiver {
            seat,
            place,
            count: 0,
        }
    }
}
