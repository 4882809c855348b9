//! Tests of snapshots and of their reports.
#![tactic(auto)]

#[cfg(test)]
mod compare;
#[cfg(test)]
mod json;
#[cfg(test)]
mod listing;
#[cfg(test)]
mod metrics;
#[cfg(test)]
mod printing;
#[cfg(test)]
mod reports;
#[cfg(test)]
mod snapshots;
#[cfg(test)]
mod stored;
#[cfg(test)]
mod words;
