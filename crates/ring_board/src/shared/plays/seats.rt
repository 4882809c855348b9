//! The types of the steps that split a seat or join two seats.
ghost use Rattle.ring_board.specs.Views.{fewer, newcomer, joined, spent};

use crate::shared::view::View;
use atomic_table::{Join, Split};

/// The transmitter gives a share to a receiver.
pub struct SplitOff;

impl Split<View> for SplitOff {
    ghost left = { fewer };

    ghost right = { newcomer };
}

/// A receiver gives its share back.
pub struct TakeIn;

impl Join<View> for TakeIn {
    ghost both = { joined };

    ghost spent = { spent };
}
