//! The steps that split a seat or join two seats. Each step is a load of one word.
ghost use Rattle.std.specs.Prelude.{◌≡◌, ◌<◌, []};
ghost use Rattle.ring_board.specs.{declared.shared.view.Stage.TheVariants.Idle, Seats.IsSeatOf, Seats.IsSameSeat};
ghost use Rattle.ring_board.specs.Views.{fewer, newcomer, joined};

use crate::board::Board;
use crate::shared::plays::seats::{SplitOff, TakeIn};
use crate::shared::steps::BoardSeat;

impl Board {
    /// Gives a share of the transmitter to a new receiver, which begins at latest.
    pub(crate) fn split_off(&self, seat: &mut BoardSeat) -> BoardSeat
        requires seat { IsSeatOf self.now seat.old }
        requires stage { (seat.old.me.0.stage ≡ Idle) × (0 < seat.old.me.0.shares) }
        ensures same { IsSameSeat seat.old seat.new }
        ensures kept { seat.new.me ≡ (fewer seat.old.me.0, seat.old.me.1) }
        ensures given { (result.table_id ≡ seat.old.table_id) × (result.me ≡ (newcomer seat.old.me.0, [])) }
    {
        self.table.shared.split_seat::<SplitOff>(seat)
    }

    /// Takes a receiver's share back.
    pub(crate) fn take_in(&self, seat: &mut BoardSeat, other: BoardSeat)
        requires seat { IsSeatOf self.now seat.old }
        requires other { (other.table_id ≡ self.now.table.shared.table_id) × (other.me.1 ≡ []) }
        requires stage { seat.old.me.0.stage ≡ Idle }
        ensures same { IsSameSeat seat.old seat.new }
        ensures joined { seat.new.me ≡ (joined seat.old.me.0 other.me.0, seat.old.me.1) }
    {
        self.table.shared.join_seat::<TakeIn>(seat, other);
    }
}
