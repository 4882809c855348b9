//! The types of what each kind of step says. These types are for the proofs alone, and no value of them is made.
ghost use Rattle.std.specs.Prelude.{◌≡◌, ◌+◌, ◌-◌, false, []};
ghost use Rattle.ring_counters.specs.Views.{values_view};
ghost use Rattle.ring_counters.specs.ValueSteps.{Loads, LearnsLoads, WritesValue};

use crate::values::view::ValuesView;
use atomic_table::{Join, Play, Split};

/// A reader loads a value.
pub struct LoadValue;

impl Play<(), ValuesView> for LoadValue {
    ghost then = { λ s m n w. Loads s.word m.0 n w.0 × (w.1 ≡ m.1) };
}

/// The writer learns what a reader that it took back has loaded.
pub struct LearnLoads;

impl Play<(), ValuesView> for LearnLoads {
    ghost then = { λ s m n w. LearnsLoads m.0 w.0 × (w.1 ≡ m.1) };
}

/// The writer stores a value.
pub struct StoreValue;

impl Play<(), ValuesView> for StoreValue {
    ghost then = { λ s m n w. WritesValue s.word s.first m.0 w.0 × (w.1 ≡ m.1) };
}

/// A reader gets one share of the writer.
pub struct CutReader;

impl Split<ValuesView> for CutReader {
    ghost left = { λ v. values_view v.writes (v.shares - 1) v.seen v.made v.loads };

    ghost right = { λ v. values_view false 1 v.seen v.seen [] };
}

/// A reader gives its share back.
pub struct JoinReader;

impl Join<ValuesView> for JoinReader {
    ghost both = { λ v w. values_view v.writes (v.shares + w.shares) v.seen w.made w.loads };

    ghost spent = { values_view false 0 [] [] [] };
}
