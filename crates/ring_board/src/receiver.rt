//! The calls of receivers.
pub(crate) mod copying;
pub(crate) mod found;
pub(crate) mod next_record;
pub(crate) mod raw;
pub(crate) mod seat;
