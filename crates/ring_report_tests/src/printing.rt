//! Colours, rates and the texts of faults.
use crate::compare::same;
use crate::reports::{VIEW, board_report, counters_report, ring_report};
use crate::snapshots::shows;
use crate::stored::{LAPPED, WRAPPED};
use crate::words::change;
use ring_report::{Cause, InputFault, Printable, Report};
use std::alloc::{AllocError, Global};
use std::io::ErrorKind;
use std::process::Abort;

#[test]
fn colours_states(rt: HostRuntime) {
    let mut words = [0; 112];
    change(&mut words, WRAPPED.words);
    let report = Report::of_ring(rt.alloc(), &words, VIEW).expect(&rt, "memory");
    shows(
        &rt,
        report.to_colored_table(rt.alloc()),
        "\
ring  capacity 128  head 72  tail 176  head_cache 0  correlation 0  heartbeat 0
[\x1b[33mOOO\x1b[0m\x1b[32m===\x1b[0mT...H\x1b[32m===\x1b[0m\x1b[2mxxx-\x1b[0m]
place  index  state               type  length
   72     72  committed              4      24
\x1b[2m   96     96  aborted               -1      24\x1b[0m
\x1b[2m  120    120  aborted or padding    -1       8\x1b[0m
\x1b[33m  128      0  open                   6      24\x1b[0m
  152     24  committed              7      18
2 committed, 1 open, 2 aborted or padding; 24 of 128 bytes free; a read stops at 128 (open, type 6, length 24)
",
    );
}

/// The index of the tail, which is word 16 of the trailer.
const TAIL: usize = 32 + 16;

/// The tail before, the tail after some milliseconds, these, and the rates. Five messages have 112 bytes.
static RATES: [(u64, u64, u64, &str); 3] = [
    (
        0,
        112,
        500,
        "per second  bytes written 224  bytes read 0  correlation ids 0  messages about 10\n",
    ),
    (
        0,
        112,
        0,
        "per second  bytes written 112000  bytes read 0  correlation ids 0  messages about 5000\n",
    ),
    (
        112,
        0,
        1000,
        "per second  bytes written 0  bytes read 0  correlation ids 0\n",
    ),
];

/// The rates between two reports. They are dropped here, so that their drops are proved once.
fn rates(alloc: Global, before: Report, after: Report, millis: u64) -> Result<String, AllocError> {
    after.rates_since(alloc, &before, millis)
}

#[test]
fn says_how_fast_a_ring_goes(rt: HostRuntime) {
    for (then, now, millis, wanted) in &RATES {
        let before = ring_report(&rt, rt.alloc(), &[(TAIL, *then)]);
        let after = ring_report(&rt, rt.alloc(), &[(TAIL, *now)]);
        shows(&rt, rates(rt.alloc(), before, after, *millis), wanted);
    }
}

#[test]
fn says_how_fast_a_board_goes(rt: HostRuntime) {
    let before = board_report(&rt, rt.alloc(), &[]);
    let after = board_report(&rt, rt.alloc(), LAPPED.words);
    // (four messages of 104 bytes are listed)
    shows(
        &rt,
        rates(rt.alloc(), before, after, 10_000),
        "per second  bytes transmitted 36  messages about 1\n",
    );
}

#[test]
fn says_how_fast_counters_change(rt: HostRuntime) {
    let before = counters_report(&rt, rt.alloc(), &[]);
    // (the value of the second counter)
    let after = counters_report(&rt, rt.alloc(), &[(16, 1096)]);
    let rates = rates(rt.alloc(), before, after, 2000);
    shows(&rt, rates, "per second  id 1 -1500\n");
}

static FAULTS: [(Cause, &str); 11] = [
    (
        Cause::Unopened(ErrorKind::NotFound),
        "cannot open x: no such file",
    ),
    (
        Cause::Unopened(ErrorKind::PermissionDenied),
        "cannot open x: permission denied",
    ),
    (
        Cause::Unopened(ErrorKind::NotADirectory),
        "cannot open x: a part of its path is no folder",
    ),
    (
        Cause::Unread(ErrorKind::IsADirectory),
        "cannot read x: it is a folder",
    ),
    (
        Cause::Unread(ErrorKind::Interrupted),
        "cannot read x: the system cannot read there",
    ),
    (
        Cause::TooLarge,
        "x: the section is too large: at most 16777984 bytes are read",
    ),
    (Cause::TooShort, "x: the file ends before the section does"),
    (
        Cause::NotWords,
        "x: the section is not made of words of 8 bytes",
    ),
    (Cause::OutOfMemory, "x: out of memory"),
    (
        Cause::Unopened(ErrorKind::Other),
        "cannot open x: the system cannot read there",
    ),
    (
        Cause::Unread(ErrorKind::PermissionDenied),
        "cannot read x: permission denied",
    ),
];

#[test]
fn names_the_file_and_the_cause(rt: HostRuntime) {
    for (cause, wanted) in &FAULTS {
        let fault = InputFault {
            file: "x",
            cause: *cause,
        };
        shows(&rt, format!(in rt.alloc(); "{fault}"), wanted);
    }
}

/// Texts from outside, and how they are printed.
static TEXTS: [(&str, &str); 4] = [
    ("a b", "a b"),
    ("a\u{1b}[2J\n", "a\\x1b[2J\\x0a"),
    ("\u{9b}31m", "\\x9b31m"),
    ("naïve", "naïve"),
];

/// Tests how a text is printed alone, and as the name of a file.
fn is_printed(rt: &impl Abort, alloc: Global, text: &str, wanted: &str) {
    let printed = Printable(text);
    shows(rt, format!(in alloc; "{printed}"), wanted);
    let fault = InputFault {
        file: text,
        cause: Cause::OutOfMemory,
    };
    let line = format!(in alloc; "{fault}").expect(rt, "memory");
    same(
        rt,
        line.as_str().strip_suffix(": out of memory"),
        Some(wanted),
    );
}

#[test]
fn prints_no_control_characters(rt: HostRuntime) {
    for (text, wanted) in &TEXTS {
        is_printed(&rt, rt.alloc(), text, wanted);
    }
}
