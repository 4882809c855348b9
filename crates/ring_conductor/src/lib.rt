//! The conductor and its storms under one name. The crate has all public items of `ring_service` and of `ring_storm`.
//!
//! - `Command`, `Reply`, `Client`, `Conductor`, `finish` and `whole_run` are of `ring_service`.
//! - `storm`, `StormPlan`, `StormReport`, `Gate` and `OpenGate` are of `ring_storm`.
#![tactic(auto)]

pub use ring_service::{
    Bad, Client, Command, Conductor, Cycle, FinishFault, FinishRefused, Finished, FinishedWithout,
    LONGEST_COMMAND, LONGEST_REPLY, Parties, Polled, RefusalCode, Reply, Request, SendFault,
    UnknownCode, WholeFault, WholeRun, Work, WorkStop, command_round_trip, command_type_ids,
    decode_command, decode_reply, encode_command, encode_reply, encode_request, finish,
    fold_ignores_receivers, fold_lengthens, fold_of_fold, longest_command, one_command, one_reply,
    reply_round_trip, reply_type_ids, whole_run, whole_run_over,
};
pub use ring_storm::{Gate, OpenGate, StormFault, StormPlan, StormReport, storm, storm_over};
