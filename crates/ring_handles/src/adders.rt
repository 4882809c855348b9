//! An adder of a shared counter in a handle.
ghost use Rattle.std.specs.Arc.{arc_value};
ghost use Rattle.ring_adders.specs.Adders.{IsAdderOf};

use crate::identity::Identity;
use ring_adders::{Adder, SharedCounter};
use std::sync::Arc;

/// An adder, with its shared counter.
#[derive(Drop)]
pub struct AdderSide {
    pub(crate) counter: Arc<SharedCounter>,
    /// The shared counter's.
    pub(crate) identity: Identity,
    pub(crate) adder: Adder,
    ghost of: { IsAdderOf (arc_value counter) adder },
}
