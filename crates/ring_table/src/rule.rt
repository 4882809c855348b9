//! The rule that holds between any two steps.
use crate::mode::Mode;
use crate::view::{Key, View};
use atomic_table::TableRule;
use std::marker::PhantomData;

/// There is one history of claims. The words show it, and each seat's view is its part of it. If bodies lie in slots,
/// those at home have them.
pub struct RingRule<M> {
    pub mode: PhantomData<M>,
}

impl<M: Mode> TableRule<u64, View, Key> for RingRule<M> {
    ghost use Rattle.ring_table.specs.{Marks.Keeps, Views.first_view};

    ghost holds = { λ key s. Keeps M.bodies key s.words s.homes s.views };

    ghost first = { first_view };
}
