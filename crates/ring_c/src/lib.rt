//! Rings for C: each export works on handles, and each handle owns what it means.
//!
//! - `exports`: what C calls, by kind of handle. `work_on`: what these calls have in common.
//! - What a handle means, and what its calls do, is in `ring_handles`.
#![tactic(auto)]

mod exports;
mod work_on;

// The rest of this file is written by c/bindings.
pub use exports::adding::{
    felter_adder_add, felter_adder_join, felter_adder_new_numbered, felter_adder_shares,
    felter_adder_split, felter_adder_value,
};
pub use exports::asking::{
    felter_conductor_count, felter_conductor_deadline, felter_conductor_find, felter_conductor_key,
    felter_conductor_label, felter_conductor_owner, felter_conductor_registration,
    felter_conductor_state, felter_conductor_type_id, felter_conductor_value,
};
pub use exports::boards::{
    felter_board_new_at_numbered, felter_board_new_numbered, felter_lapped_count, felter_receive,
    felter_subscribe, felter_transmit,
};
pub use exports::calling::{
    felter_client_heartbeat, felter_poll, felter_send_allocate, felter_send_allocate_owned,
    felter_send_close_owner, felter_send_free, felter_send_set,
};
pub use exports::changing::{
    felter_counter_compare_and_set, felter_counter_decrement, felter_counter_get_and_set,
    felter_counter_increment,
};
pub use exports::concluding::felter_conductor_finish;
pub use exports::conducting::{
    felter_conductor_client, felter_conductor_new_numbered, felter_conductor_set_heartbeat,
    felter_conductor_work,
};
pub use exports::consuming::{
    felter_peek, felter_read, felter_read_batch, felter_set_heartbeat, felter_take,
};
pub use exports::counting::{
    felter_counter_add, felter_counter_allocate, felter_counter_allocate_owned,
    felter_counter_find, felter_counter_free, felter_counter_key, felter_counter_label,
    felter_counter_owner, felter_counter_registration, felter_counter_set, felter_counter_type_id,
    felter_counter_value, felter_counters_available, felter_counters_close_owner,
    felter_counters_count,
};
pub use exports::counting_new::felter_counters_new_numbered;
pub use exports::ending::{
    felter_board_close, felter_board_join, felter_board_join_raw, felter_close,
    felter_counters_join, felter_finish,
};
pub use exports::joining::felter_join;
pub use exports::lending::{
    felter_conductor_join, felter_conductor_join_reader, felter_conductor_join_receiver,
    felter_conductor_reader, felter_conductor_subscribe,
};
pub use exports::opening::{
    felter_many_to_one_new_at_numbered, felter_many_to_one_new_numbered,
    felter_one_to_one_new_at_numbered, felter_one_to_one_new_numbered,
};
pub use exports::places::{
    felter_capacity, felter_raw_receiver_lap, felter_raw_receiver_place, felter_receiver_lap,
    felter_receiver_place, felter_version,
};
pub use exports::producing::{
    felter_abort, felter_claim, felter_commit, felter_heartbeat, felter_next_id, felter_positions,
    felter_put, felter_shares, felter_write, felter_write_batch,
};
pub use exports::raw::{
    felter_load_body, felter_raw_lapped_count, felter_receive_next, felter_subscribe_raw,
    felter_validate,
};
pub use exports::reading::{felter_counters_reader, felter_reader_value};

// (apart, since of more than 100 names in one group `rt fmt` puts each on a line of its own)
pub use exports::records::{
    felter_counter_deadline, felter_counter_propose_max, felter_counter_state,
};
pub use exports::recovering::felter_recover_words;
pub use exports::sharing::{felter_free, felter_split};
