//! Numbers and lengths of the protocol, as clients name them.
use crate::compare::same;
use crate::texts::tells;
use ring_counters::{AllocateRefused, BadOwner, IdFault};
use ring_service::{
    Bad, Command, LONGEST_COMMAND, LONGEST_REPLY, RefusalCode, UnknownCode, command_type_ids,
    encode_command, reply_type_ids,
};
use std::alloc::Global;
use std::fmt;
use std::process::Abort;

#[test]
fn commands_and_replies_have_these_type_ids(rt: HostRuntime) {
    let commands = [
        command_type_ids::ALLOCATE,
        command_type_ids::FREE,
        command_type_ids::SET,
        command_type_ids::ALLOCATE_OWNED,
        command_type_ids::CLOSE,
    ];
    same(&rt, commands, [1, 2, 3, 4, 5]);
    let replies = [
        reply_type_ids::ALLOCATED,
        reply_type_ids::DONE,
        reply_type_ids::REFUSED,
        reply_type_ids::CLOSED,
    ];
    same(&rt, replies, [101, 102, 103, 104]);
}

/// Commands with their correlation ids, and how many bytes spell them.
static COMMANDS: [(Command<'static>, u64, usize); 5] = [
    (
        Command::Allocate {
            correlation: 11,
            type_id: -1,
            key: &[1; 3],
            label: &[b'a'; 5],
        },
        11,
        28,
    ),
    (
        Command::Free {
            correlation: 12,
            id: 1,
        },
        12,
        12,
    ),
    (
        Command::Set {
            correlation: 13,
            id: 1,
            value: -1,
        },
        13,
        20,
    ),
    (
        Command::AllocateOwned {
            correlation: 14,
            type_id: 1,
            owner: 2,
            key: &[1; 3],
            label: &[b'a'; 5],
        },
        14,
        36,
    ),
    (
        Command::Close {
            correlation: u64::MAX,
            owner: 2,
        },
        u64::MAX,
        16,
    ),
];

#[test]
fn commands_tell_their_correlation_and_their_length(rt: HostRuntime) {
    for (command, correlation, len) in COMMANDS.iter() {
        let mut out = [0; 64];
        let written = encode_command(command, &mut out);
        let told = (command.correlation(), command.encoded_len(), written);
        same(&rt, told, (*correlation, Some(*len), Some(*len)));
    }
}

#[test]
fn the_longest_key_and_label_make_the_longest_command(rt: HostRuntime) {
    let (key, label) = ([255u8; 112], [b'z'; 380]);
    let longest = Command::AllocateOwned {
        correlation: u64::MAX,
        type_id: i32::MIN,
        owner: u64::MAX,
        key: &key,
        label: &label,
    };
    let (mut out, mut short) = ([0; LONGEST_COMMAND], [0; 519]);
    let lengths = [
        Some(LONGEST_COMMAND),
        longest.encoded_len(),
        encode_command(&longest, &mut out),
    ];
    same(&rt, lengths, [Some(520); 3]);
    same(&rt, encode_command(&longest, &mut short), None);
    same(&rt, LONGEST_REPLY, 12);
}

/// Refusals with their numbers and their texts.
static REFUSALS: [(RefusalCode, i32, &'static str); 9] = [
    (RefusalCode::KeyTooLong, 16, "16 KeyTooLong"),
    (RefusalCode::LabelTooLong, 17, "17 LabelTooLong"),
    (RefusalCode::LabelNotAscii, 18, "18 LabelNotAscii"),
    (RefusalCode::NoFreeCounter, 19, "19 NoFreeCounter"),
    (RefusalCode::BadId, 20, "20 BadId"),
    (RefusalCode::NotAllocated, 21, "21 NotAllocated"),
    (RefusalCode::Malformed, 22, "22 Malformed"),
    (RefusalCode::UnknownType, 23, "23 UnknownType"),
    (RefusalCode::BadOwner, 28, "28 BadOwner"),
];

#[test]
fn refusals_have_these_numbers_and_texts(rt: HostRuntime) {
    for (refusal, number, text) in REFUSALS.iter() {
        same(&rt, refusal.number(), *number);
        same(&rt, RefusalCode::try_from(*number), Ok(*refusal));
        tells(&rt, rt.alloc(), *refusal, text);
    }
    for number in [i32::MIN, -16, 0, 15, 24, 27, 29, 272, i32::MAX] {
        same(
            &rt,
            RefusalCode::try_from(number),
            Err(UnknownCode { number }),
        );
    }
    let unknown = UnknownCode { number: 24 };
    tells(&rt, rt.alloc(), unknown, "no refusal has the number 24");
}

/// Tests that a refusal has the text of the fault.
fn are_alike(
    rt: &impl Abort,
    alloc: Global,
    fault: impl fmt::Display + Drop,
    refusal: RefusalCode,
) {
    let told = fault.to_string(alloc).expect(rt, "memory");
    tells(rt, alloc, refusal, told.as_str());
}

#[test]
fn refusals_tell_what_the_faults_tell(rt: HostRuntime) {
    for fault in [
        AllocateRefused::KeyTooLong,
        AllocateRefused::LabelTooLong,
        AllocateRefused::LabelNotAscii,
        AllocateRefused::NoFreeCounter,
    ] {
        are_alike(&rt, rt.alloc(), fault, RefusalCode::from(fault));
    }
    for fault in [IdFault::BadId, IdFault::NotAllocated] {
        are_alike(&rt, rt.alloc(), fault, RefusalCode::from(fault));
    }
    for fault in [
        Bad::Malformed { correlation: 1 },
        Bad::UnknownType { correlation: 1 },
    ] {
        are_alike(&rt, rt.alloc(), fault, RefusalCode::from(fault));
    }
    are_alike(&rt, rt.alloc(), BadOwner, RefusalCode::from(BadOwner));
}
