//! The rule that holds between any two steps.
use crate::shared::view::{Shape, View};
use atomic_table::TableRule;

/// The rule that holds between any two steps.
pub struct BoardRule;

impl TableRule<(), View, Shape> for BoardRule {
    ghost use Rattle.ring_board.specs.Rule.{Holds, opening_view};

    ghost holds = { λ k s. Holds k.capacity k.start s };

    ghost first = { λ k. opening_view k.capacity k.start };
}
