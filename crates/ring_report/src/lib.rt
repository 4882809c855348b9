//! Reports of what is in a ring, a board or counters. A report is made from a copy of their memory, which is read from
//! a file or given as words. It is printed as a table, as JSON, or as the text of Prometheus.
//!
//! - `ring`, `board`, `counters`: the report of each kind. `records`: the lists of records of rings and boards.
//!   `blocked`: the place at which the consumer of a ring stops. `recovered`: what is recovered from a ring.
//! - `report`, `state`: the content of a report. `table`, `json`, `prometheus` and `rates` print a report. `picture`,
//!   `bodies` and `colour` are parts of them. `origin`: the file of a report, and its place in it. `printable`: text
//!   that comes from outside.
//! - `input`, `input_fault`: a section of a file, read as words. `settled`: reads words that others may change
//!   meanwhile. `view`: the options of a report.
#![tactic(auto)]

mod blocked;
mod board;
mod bodies;
mod colour;
mod counters;
mod input;
mod input_fault;
mod json;
mod origin;
mod picture;
mod printable;
mod prometheus;
mod rates;
mod records;
mod recovered;
mod report;
mod ring;
mod settled;
mod state;
mod table;
mod view;

pub use blocked::{OpenClaim, Sight, Stop};
pub use input::{Section, section_words, words_of, words_of_bytes};
pub use input_fault::{Cause, InputFault, reason};
pub use origin::{Origin, process_of};
pub use printable::{Printable, is_control};
pub use prometheus::{Labelled, to_prometheus};
pub use report::{Cell, Column, Field, Report};
pub use settled::{Words, note_settled, ring_words, settled_words};
pub use state::State;
pub use view::{Bodies, View};
