//! The type of what an adder knows. No value of this type is made.
use std::collections::LinkedList;

/// The knowledge of an adder.
pub struct AdderView {
    pub shares: u32,
    /// The amounts that were added with this adder, and with the adders that it took back.
    pub added: LinkedList<i64>,
    /// The amounts that all adders had added, in order, when this adder looked last.
    pub seen: LinkedList<i64>,
}
