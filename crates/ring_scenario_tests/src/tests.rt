//! Readers and writers that fail.
mod fakes;

use fakes::{FailingReader, FailingWriter};
use ring_scenario::{MAX_READS, Options, RunFault, run_scenario};
use std::io::{ErrorKind, Read, Write};
use std::sync::Wait;
use std::thread::Threads;

static SCRIPT: &[u8] = b"write 7 0102030405\nwrite 1 -\nread 1\nwrite 0 -\nread 9\nend\n";

static OUTPUT: &[u8] =
    b"ok\nok\nmessage 7 0102030405\nread 1 bytes 16 stopped limit\nrefused 4 BadType 0\nmessage 1 -\nread 1 bytes 8 stopped unpublished\nend messages 2 left 0\n";

/// Runs what a reader gives, with default options.
fn run<R: AllocGlobal + Threads + Wait, I: Read, O: Write>(
    rt: &R,
    reader: &mut I,
    writer: &mut O,
) -> Result<(), RunFault> {
    run_scenario(rt, rt.alloc(), &Options::default(), reader, writer)
}

#[test]
fn tells_where_the_input_cannot_be_read(rt: HostRuntime) {
    let reads = SCRIPT.len().div_ceil(7) as u32 + 1;
    for fails_at in 1..reads + 2 {
        let mut reader = FailingReader::new(SCRIPT, fails_at, ErrorKind::BrokenPipe);
        let mut output = Vec::new(rt.alloc());
        let outcome = run(&rt, &mut reader, &mut output);
        if fails_at <= reads {
            assert_eq!(rt; outcome, Err(RunFault::InputUnread));
            assert!(rt; output.is_empty());
        } else {
            assert_eq!(rt; outcome, Ok(()));
            assert_eq!(rt; output.as_slice(), OUTPUT);
        }
    }
}

#[test]
fn gives_up_on_a_reader_that_is_always_interrupted(rt: HostRuntime) {
    let mut reader = FailingReader::new(SCRIPT, 3, ErrorKind::Interrupted);
    let mut output = Vec::new(rt.alloc());
    let outcome = run(&rt, &mut reader, &mut output);
    assert_eq!(rt; outcome, Err(RunFault::InputUnread));
    assert_eq!(rt; reader.calls, MAX_READS);
    assert!(rt; output.is_empty());
}

#[test]
fn tells_where_the_output_cannot_be_written(rt: HostRuntime) {
    for fails_at in 1..100 {
        let mut reader = SCRIPT;
        let mut writer = FailingWriter::new(rt.alloc(), fails_at);
        let outcome = run(&rt, &mut reader, &mut writer);
        if outcome == Ok(()) {
            assert_eq!(rt; writer.written.as_slice(), OUTPUT);
            assert!(rt; fails_at > 20);
        } else {
            assert_eq!(rt; outcome, Err(RunFault::OutputUnwritten));
            assert!(rt; OUTPUT.starts_with(writer.written.as_slice()));
            assert!(rt; fails_at < 60);
        }
    }
}
