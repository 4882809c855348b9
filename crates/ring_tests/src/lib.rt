//! Tests of the libraries: what no clause of their contracts states.
#![tactic(auto)]

#[cfg(test)]
mod adders;
#[cfg(test)]
mod board;
#[cfg(test)]
mod calls;
#[cfg(test)]
mod compare;
#[cfg(test)]
mod counters;
#[cfg(test)]
mod texts;
