//! What claims and writes of the ring of one owner are made of.
pub(crate) mod append;
pub(crate) mod claims;
pub(crate) mod settle;
