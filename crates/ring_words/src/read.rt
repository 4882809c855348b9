//! What a read of the ring of one owner is made of.
pub(crate) mod action;
pub(crate) mod drain;
pub(crate) mod end;
pub(crate) mod handler;
pub(crate) mod head;
pub(crate) mod reads;
