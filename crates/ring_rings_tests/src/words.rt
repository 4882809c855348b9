//! Tests of the ring of one owner, and of what lies in a ring.

mod faults;
mod layout;
mod solo;
mod standing;
