//! The rule that holds between any two steps.
ghost use Rattle.std.specs.Prelude.{true, []};
ghost use Rattle.ring_layout.specs.Refusals.{all_shares};
ghost use Rattle.ring_counters.specs.{Views.values_view, ValuesRule.ValuesRule};

use crate::values::view::ValuesView;
use atomic_table::TableRule;

/// Only one seat writes. Each word is the value of its id after all writes. Each seat's view is its part of the writes.
pub struct OneWriter;

impl TableRule<(), ValuesView, usize> for OneWriter {
    ghost holds = { λ count s. ValuesRule count s.words s.views };

    ghost first = { λ _. values_view true all_shares [] [] [] };
}
