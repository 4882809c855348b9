//! Reads what is in the words of a ring, a broadcast buffer or counters, from any copy of their memory. Also writes
//! such copies.
//!
//! - `ring`, `board`, `counters`: one pass over a copy, and the search for such words in memory. `ring` also joins the
//!   words of a ring whose bodies are stored separately. `buffer`, `listing`, `search`: what these three share.
//! - `record`, `board_record`, `counter`, `body`: the results of a pass.
//! - `ring_finding`, `board_finding`, `counters_finding`: the findings about words.
//! - `write`: writes copies.
#![tactic(auto)]

mod board;
mod board_finding;
mod board_record;
mod body;
mod buffer;
mod counter;
mod counters;
mod counters_finding;
mod listing;
mod record;
mod ring;
mod ring_finding;
mod search;
mod write;

pub use board::search::next_board;
pub use board::{BoardRecords, BoardSnapshot};
pub use board_finding::BoardFinding;
pub use board_record::BoardRecord;
pub use body::Body;
pub use counter::{Counter, CounterState};
pub use counters::search::next_counter;
pub use counters::{Counters, CountersSnapshot};
pub use counters_finding::CountersFinding;
pub use record::{Record, RecordState};
pub use ring::mark::{BAD_HEADER, header_at};
pub use ring::plain::join_bodies;
pub use ring::search::next_ring;
pub use ring::{Records, RingSnapshot};
pub use ring_finding::RingFinding;
pub use write::{CounterMetadata, CounterValueWords, Words, write_words};
