//! Tests of the rings: what no clause of the contracts of `ring_layout`, `ring_words` and `ring_rings` states.
#![tactic(auto)]

#[cfg(test)]
mod calls;
#[cfg(test)]
mod compare;
#[cfg(test)]
mod play;
#[cfg(test)]
mod rings;
#[cfg(test)]
mod script;
#[cfg(test)]
mod texts;
#[cfg(test)]
mod words;
