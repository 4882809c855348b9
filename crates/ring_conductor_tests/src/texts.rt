//! The texts of faults.
use crate::compare::same;
use std::alloc::Global;
use std::fmt;
use std::process::Abort;

/// Tests the text of a fault.
pub fn tells(rt: &impl Abort, alloc: Global, fault: impl fmt::Display + Drop, text: &str) {
    let told = fault.to_string(alloc).expect(rt, "memory");
    same(rt, told.as_str(), text);
}

/// Tests the text of each fault.
pub fn all_tell<F: fmt::Display + Copy + Drop>(rt: &impl Abort, alloc: Global, all: &[(F, &str)]) {
    for (fault, text) in all {
        tells(rt, alloc, *fault, text);
    }
}
