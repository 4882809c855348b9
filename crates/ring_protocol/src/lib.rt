//! Commands and replies, and their encoding as bytes.
//!
//! - `command`, `reply`: the messages, and their encoding. The module `decode` of each decodes them.
//! - `fields`: the fields of a body, which are read from its front and written at the start of an output.
//! - `codes`, `fault`: the reasons why a command is refused, and why bytes are not a message.
//! - `laws`: the laws of the encoding.
#![tactic(auto)]

mod codes;
mod command;
mod fault;
mod fields;
mod laws;
mod reply;

pub use codes::{RefusalCode, UnknownCode};
pub use command::decode::decode_command;
pub use command::{
    Command, LONGEST_COMMAND, Request, encode_command, encode_request, type_ids as command_type_ids,
};
pub use fault::Bad;
pub use laws::{command_round_trip, longest_command, one_command, one_reply, reply_round_trip};
pub use reply::decode::decode_reply;
pub use reply::{LONGEST_REPLY, Reply, encode_reply, type_ids as reply_type_ids};
