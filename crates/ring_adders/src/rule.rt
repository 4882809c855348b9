//! The rule that holds between any two steps.
ghost use Rattle.std.specs.Prelude.{[]};
ghost use Rattle.ring_layout.specs.Refusals.{all_shares};
ghost use Rattle.ring_adders.specs.{Views.adder_view, SumRule.SumRule};

use crate::view::AdderView;
use atomic_table::TableRule;

/// The word is the sum of what all adders added.
pub struct SumsAll;

impl TableRule<(), AdderView, ()> for SumsAll {
    ghost holds = { λ _ s. SumRule s.words s.views };

    ghost first = { λ _. adder_view all_shares [] [] };
}
