//! The types of what each kind of step says. These types are for the proofs alone, and no value of them is made.
ghost use Rattle.std.specs.Prelude.{◌≡◌, ◌+◌, ◌-◌, ◌++◌, []};
ghost use Rattle.ring_adders.specs.{Views.adder_view, Steps.Adds, Steps.Loads};

use crate::view::AdderView;
use atomic_table::{Join, Play, Split};

/// An adder adds.
pub struct AddAmount;

impl Play<(), AdderView> for AddAmount {
    ghost then = { λ s m n w. Adds s.first m.0 n w.0 × (w.1 ≡ m.1) };
}

/// An adder loads the sum.
pub struct LoadSum;

impl Play<(), AdderView> for LoadSum {
    ghost then = { λ s m n w. Loads m.0 n w.0 × (w.1 ≡ m.1) };
}

/// A new adder gets one share of another adder.
pub struct CutAdder;

impl Split<AdderView> for CutAdder {
    ghost left = { λ v. adder_view (v.shares - 1) v.added v.seen };

    ghost right = { λ v. adder_view 1 [] v.seen };
}

/// An adder takes another adder back.
pub struct JoinAdder;

impl Join<AdderView> for JoinAdder {
    ghost both = { λ v w. adder_view (v.shares + w.shares) (v.added ++ w.added) v.seen };

    ghost spent = { adder_view 0 [] [] };
}
