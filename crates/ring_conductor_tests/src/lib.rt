//! Tests of the conductor and its clients: what no clause of the contracts of `ring_protocol`, `ring_service` and
//! `ring_storm` states.
#![tactic(auto)]

#[cfg(test)]
mod calls;
#[cfg(test)]
mod compare;
#[cfg(test)]
mod conductor;
#[cfg(test)]
mod texts;
