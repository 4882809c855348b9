//! What C calls.
// Written by c/bindings from felter.h and exports.txt. To change this file, change them and run c/bindings.
pub(crate) mod adding;
pub(crate) mod asking;
pub(crate) mod boards;
pub(crate) mod calling;
pub(crate) mod changing;
pub(crate) mod concluding;
pub(crate) mod conducting;
pub(crate) mod consuming;
pub(crate) mod counting;
pub(crate) mod counting_new;
pub(crate) mod ending;
pub(crate) mod joining;
pub(crate) mod lending;
pub(crate) mod opening;
pub(crate) mod places;
pub(crate) mod producing;
pub(crate) mod raw;
pub(crate) mod reading;
pub(crate) mod records;
pub(crate) mod recovering;
pub(crate) mod sharing;
