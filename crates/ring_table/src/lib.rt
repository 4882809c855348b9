//! The rule of a shared ring, and a small function for each kind of step.
//!
//! - `view`, `claim`: what each seat knows. `rule`: what holds between any two steps. `mode`: where bodies lie.
//! - `bodies`, `putting`: whole bodies and bytes in slots.
//! - `plays`: what each kind of step says, by role. `steps`: a function for each kind, in files of the same names.
//! - `table`: a ring's table, from its making to its close. `laws`: what follows from the rule.
#![tactic(auto)]

mod bodies;
mod claim;
mod decode;
mod headers;
mod heads;
mod laws;
mod mode;
mod picture;
mod plays;
mod putting;
mod rescue;
mod rule;
mod runs;
mod steps;
mod table;
mod view;

pub use bodies::{
    copy_slots, fill_slots, fill_zeros, read_slots, store_claimed_slots, write_slots,
};
pub use claim::{PlacedMessage, Stage, StagedClaim};
pub use decode::decode_mark;
pub use headers::Headers;
pub use heads::{store_head_before_run, store_head_past_run};
pub use laws::{
    last_claim_stands_last, newest_claim_changes_alone, open_claims_are_counted,
    stored_claims_show_one_picture,
};
pub use mode::{InSlots, InWords, Mode};
pub use picture::{copy_words, show_slots};
pub use putting::put_slots;
pub use rescue::{Unsettled, rescue_slots, rescue_words, settle_words};
pub use rule::RingRule;
pub use runs::{Outgoing, write_run};
pub use steps::consumer::{
    clear_word, load_body_word, load_passed_word, store_head, store_head_before,
};
pub use steps::producer::{
    load_head, load_own_word, load_tail, move_tail, store_body_word, store_claimed_header,
    store_tail,
};
pub use steps::seats::{join_consumer, join_producer, split_consumer, split_producer};
pub use steps::service::{
    draw_correlation_id, load_cache, load_heartbeat, store_cache, store_heartbeat,
};
pub use steps::slots::{
    commit_record, commit_run, give_body, lend_body, open_record, reserve_at, reserve_body,
    return_body, take_body,
};
pub use steps::{RingSeat, SharedRing};
pub use table::{RingTable, open, open_slots};
pub use view::{ConsumerView, Key, ProducerView, Run, Service, View, Wanted};
