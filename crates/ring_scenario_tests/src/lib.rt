//! Tests of what no scenario shows: readers and writers that fail.
#![tactic(auto)]

#[cfg(test)]
mod tests;
