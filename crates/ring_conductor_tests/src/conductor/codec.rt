//! Commands and replies as bytes.
use crate::compare::same;
use ring_service::Command::{Allocate, AllocateOwned, Close, Free, Set};
use ring_service::{
    Bad, Command, Reply, decode_command, decode_reply, encode_command, encode_reply,
};
use std::process::Abort;

/// Commands with their type ids and their bytes, those of a free last.
static COMMANDS: [(Command<'static>, i32, &'static [u8]); 5] = [
    (
        Allocate {
            correlation: 5,
            type_id: 1,
            key: &[],
            label: &[],
        },
        1,
        &[5, 0, 0, 0, 0, 0, 0, 0, 1, 0, 0, 0, 0, 0, 0, 0, 0, 0, 0, 0],
    ),
    (
        Set {
            correlation: 0,
            id: 1,
            value: -2,
        },
        3,
        &[
            0, 0, 0, 0, 0, 0, 0, 0, 1, 0, 0, 0, 254, 255, 255, 255, 255, 255, 255, 255,
        ],
    ),
    (
        AllocateOwned {
            correlation: 4,
            type_id: -2,
            owner: 9,
            key: &[6, 5],
            label: &[97],
        },
        4,
        &[
            4, 0, 0, 0, 0, 0, 0, 0, 254, 255, 255, 255, 9, 0, 0, 0, 0, 0, 0, 0, 2, 0, 0, 0, 6, 5,
            1, 0, 0, 0, 97,
        ],
    ),
    (
        Close {
            correlation: 3,
            owner: 9,
        },
        5,
        &[3, 0, 0, 0, 0, 0, 0, 0, 9, 0, 0, 0, 0, 0, 0, 0],
    ),
    (
        Free {
            correlation: 1,
            id: 2,
        },
        2,
        &[1, 0, 0, 0, 0, 0, 0, 0, 2, 0, 0, 0],
    ),
];

/// Tests that a command has this type id and is spelled so, with nothing written after it.
fn is_spelled(rt: &impl Abort, command: &Command<'_>, type_id: i32, bytes: &[u8]) {
    let mut out = [7; 40];
    let len = encode_command(command, &mut out);
    same(rt, (command.type_id(), len), (type_id, Some(bytes.len())));
    assert!(rt; begins_with(&out, bytes));
    same(rt, decode_command(type_id, bytes), Ok(*command));
}

/// Tests whether these are the first bytes, and the rest are 7.
fn begins_with(out: &[u8], bytes: &[u8]) -> bool {
    out.starts_with(bytes) && out.iter().skip(bytes.len()).all(|byte| *byte == 7)
}

#[test]
fn commands_have_one_spelling_each(rt: HostRuntime) {
    for (command, type_id, bytes) in COMMANDS.iter() {
        is_spelled(&rt, command, *type_id, bytes);
    }
}

#[test]
fn nothing_is_written_where_it_does_not_fit(rt: HostRuntime) {
    let free = Free {
        correlation: 1,
        id: 2,
    };
    let mut out = [7; 11];
    let len = encode_command(&free, &mut out);
    same(&rt, (len, out), (None, [7; 11]));
}

/// Type ids and bytes that are no command.
static NO_COMMANDS: [(i32, &'static [u8], Bad); 12] = [
    // A byte less, or one more.
    (
        2,
        &[1, 0, 0, 0, 0, 0, 0, 0, 2, 0, 0, 0, 7],
        Bad::Malformed { correlation: 1 },
    ),
    (
        5,
        &[3, 0, 0, 0, 0, 0, 0, 0, 9, 0, 0, 0, 0, 0, 0],
        Bad::Malformed { correlation: 3 },
    ),
    (3, &[0; 19], Bad::Malformed { correlation: 0 }),
    (
        1,
        &[
            5, 0, 0, 0, 0, 0, 0, 0, 1, 0, 0, 0, 0, 0, 0, 0, 0, 0, 0, 0, 0,
        ],
        Bad::Malformed { correlation: 5 },
    ),
    (
        1,
        &[5, 0, 0, 0, 0, 0, 0, 0, 1, 0, 0, 0, 0, 0, 0, 0, 0, 0, 0],
        Bad::Malformed { correlation: 5 },
    ),
    // A key that passes the end.
    (
        1,
        &[5, 0, 0, 0, 0, 0, 0, 0, 1, 0, 0, 0, 255, 255, 255, 255],
        Bad::Malformed { correlation: 5 },
    ),
    // No correlation id.
    (
        2,
        &[],
        Bad::Malformed {
            correlation: u64::MAX,
        },
    ),
    (
        0,
        &[],
        Bad::UnknownType {
            correlation: u64::MAX,
        },
    ),
    // Other type ids.
    (
        0,
        &[1, 0, 0, 0, 0, 0, 0, 0, 2, 0, 0, 0],
        Bad::UnknownType { correlation: 1 },
    ),
    (
        -1,
        &[1, 0, 0, 0, 0, 0, 0, 0, 2, 0, 0, 0],
        Bad::UnknownType { correlation: 1 },
    ),
    (
        6,
        &[1, 0, 0, 0, 0, 0, 0, 0, 2, 0, 0, 0],
        Bad::UnknownType { correlation: 1 },
    ),
    (
        6,
        &[],
        Bad::UnknownType {
            correlation: u64::MAX,
        },
    ),
];

#[test]
fn other_bytes_are_no_message(rt: HostRuntime) {
    for (type_id, bytes, bad) in NO_COMMANDS.iter() {
        let found = decode_command(*type_id, bytes);
        same(&rt, (*type_id, found), (*type_id, Err(*bad)));
    }
    let done = [1, 0, 0, 0, 0, 0, 0, 0, 2, 0, 0, 0];
    for type_id in [100, 105] {
        let unknown = Bad::UnknownType { correlation: 1 };
        same(&rt, decode_reply(type_id, &done), Err(unknown));
    }
}

/// Replies with their correlation ids, their type ids and their bytes.
static REPLIES: [(Reply, u64, i32, &'static [u8]); 4] = [
    (
        Reply::Allocated {
            correlation: 1,
            id: 1,
        },
        1,
        101,
        &[1, 0, 0, 0, 0, 0, 0, 0, 1, 0, 0, 0],
    ),
    (
        Reply::Done { correlation: 22 },
        22,
        102,
        &[22, 0, 0, 0, 0, 0, 0, 0],
    ),
    (
        Reply::Refused {
            correlation: 5,
            code: 28,
        },
        5,
        103,
        &[5, 0, 0, 0, 0, 0, 0, 0, 28, 0, 0, 0],
    ),
    (
        Reply::Closed {
            correlation: 3,
            freed: 2,
        },
        3,
        104,
        &[3, 0, 0, 0, 0, 0, 0, 0, 2, 0, 0, 0],
    ),
];

/// Tests that a reply is spelled so, with nothing written after it.
fn is_reply(rt: &impl Abort, reply: &Reply, type_id: i32, bytes: &[u8]) {
    let mut out = [7; 12];
    let len = encode_reply(reply, &mut out);
    let lengths = (reply.type_id(), reply.encoded_len(), len);
    same(rt, lengths, (type_id, bytes.len(), bytes.len()));
    assert!(rt; begins_with(&out, bytes));
    same(rt, decode_reply(type_id, bytes), Ok(*reply));
    let short = bytes.get(1..).unwrap_or(bytes);
    assert!(rt; decode_reply(type_id, short).is_err());
}

#[test]
fn replies_have_one_spelling_each(rt: HostRuntime) {
    for (reply, correlation, type_id, bytes) in REPLIES.iter() {
        same(&rt, reply.correlation(), *correlation);
        is_reply(&rt, reply, *type_id, bytes);
    }
}
