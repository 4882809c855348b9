//! The places of records in a ring, the words of records, and the definitions that every crate names.
//!
//! - `ring_buffer_descriptor`, `broadcast_buffer_descriptor`, `counter_descriptor`: the offset of each word. `formats`
//!   compares the rows of the documented formats with these offsets.
//! - `record_descriptor`, `mark_descriptor`, `word_bytes`: headers of records, kinds of marks, and bytes inside words.
//! - `capacity`, `placement`, `admission`: the capacities that there are, where a record goes, and whether it may go
//!   there.
//! - `make_fault`, `share`, `refusal_codes`: the errors that several crates have, and the number of each.
//! - `message`, `picture_law`: messages and claims as contracts name them, and a law about the words of a ring.
#![tactic(auto)]

mod admission;
pub mod broadcast_buffer_descriptor;
mod capacity;
pub mod counter_descriptor;
mod formats;
mod make_fault;
pub mod mark_descriptor;
mod message;
mod picture_law;
mod placement;
pub mod record_descriptor;
pub mod refusal_codes;
pub mod ring_buffer_descriptor;
mod share;
mod word_bytes;

pub use admission::{Admission, fits, has_room, is_length, is_position, is_type_id, place_record};
pub use capacity::{check_board, check_ring, is_board_capacity, is_capacity, max_message};
pub use make_fault::MakeFault;
pub use message::{Claim, ClaimState, Message};
pub use picture_law::word_depends_on_one_claim;
pub use placement::{byte_index, pad_and_span, word_index};
pub use record_descriptor::{
    aborted_header, align8, committed_header, open_header, pack_header, padding_header, span,
    unpack_header,
};
pub use share::{ALL_SHARES, NoShares, has_spare_share};
pub use word_bytes::{first_word, get_byte_word, put_bytes_word, put_part, put_word, store_bytes};
