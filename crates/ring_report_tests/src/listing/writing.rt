//! What is written of rings and counters.
use crate::compare::same;
use ring_counters::CountersManager;
use ring_snapshot::{CounterMetadata, CounterValueWords, Words, write_words};
use ring_words::SoloRing;
use std::alloc::Global;
use std::io::{self, ErrorKind, Write};
use std::process::Abort;

/// Keeps what it is given: at most this many bytes at a time, and none beyond a limit.
#[derive(Drop)]
struct Slow {
    bytes: Vec<u8>,
    most: usize,
    limit: usize,
}

impl Write for Slow {
    fn write(&mut self, buf: &[u8]) -> io::Result<usize> {
        let len = buf.len().min(self.most);
        if self.bytes.len() >= self.limit {
            return Err(io::Error::from(ErrorKind::BrokenPipe));
        }
        match self.bytes.extend_from_slice(&buf[..len]) {
            Ok(()) => Ok(len),
            Err(_error) => Err(io::Error::from(ErrorKind::OutOfMemory)),
        }
    }

    fn flush(&mut self) -> io::Result<()> {
        Ok(())
    }
}

/// Whether all was written to a slow writer, and how many bytes it took.
fn is_written<S: Words>(alloc: Global, source: &S, most: usize, limit: usize) -> (bool, usize) {
    let mut out = Slow {
        bytes: Vec::new(alloc),
        most,
        limit,
    };
    let done = write_words(source, &mut out).is_ok();
    (done, out.bytes.len())
}

/// Tests whether these bytes are at an index.
fn stand(bytes: &[u8], at: usize, wanted: &[u8]) -> bool {
    bytes.get(at..).is_some_and(|rest| rest.starts_with(wanted))
}

/// Tests how many bytes are written, this many at a time, and some of them, each after its index.
fn writes<S: Words>(
    rt: &impl Abort,
    alloc: Global,
    source: &S,
    most: usize,
    len: usize,
    parts: &[(usize, &[u8])],
) {
    let mut out = Slow {
        bytes: Vec::new(alloc),
        most,
        limit: usize::MAX,
    };
    assert!(rt; write_words(source, &mut out).is_ok());
    same(rt, out.bytes.len(), len);
    for (at, wanted) in parts {
        assert!(rt; stand(out.bytes.as_slice(), *at, wanted), "at {at}");
    }
}

/// A ring with one record.
fn small_ring(rt: &impl Abort, alloc: Global) -> SoloRing {
    let mut ring = SoloRing::new(alloc, 128).expect(rt, "a ring");
    same(rt, ring.write(7, b"hello"), Ok(()));
    ring
}

/// A record, and the tail, which is 128 bytes after the buffer.
static RECORD: [(usize, &[u8]); 2] = [
    (
        0,
        &[13, 0, 0, 0, 7, 0, 0, 0, 104, 101, 108, 108, 111, 0, 0, 0],
    ),
    (256, &[16, 0, 0, 0, 0, 0, 0, 0]),
];

#[test]
fn writes_words_little_endian(rt: HostRuntime) {
    let ring = small_ring(&rt, rt.alloc());
    writes(&rt, rt.alloc(), &ring, 3, 128 + 768, &RECORD);
}

#[test]
fn a_failed_write_is_an_error(rt: HostRuntime) {
    let ring = SoloRing::new(rt.alloc(), 128).expect(&rt, "a ring");
    for (limit, is_done) in [
        (1, false),
        (8, false),
        (100, false),
        (895, false),
        (896, true),
    ] {
        same(
            &rt,
            is_written(rt.alloc(), &ring, 1, limit),
            (is_done, limit),
        );
    }
}

/// Counters of which the second has the value -2.
fn two_counters(rt: &impl Abort, alloc: Global) -> CountersManager {
    let (values, mut manager) = CountersManager::new(alloc, 2, 0).expect(rt, "counters");
    same(rt, manager.allocate(&values, 0, 5, b"", b"one", 0), Ok(0));
    same(rt, manager.allocate(&values, 0, 6, b"k", b"two", 0), Ok(1));
    same(rt, manager.set(&values, 1, -2), Ok(()));
    manager
}

/// The state, the type and the label of the second counter.
static METADATA: [(usize, &[u8]); 2] = [
    (512, &[1, 0, 0, 0, 6, 0, 0, 0]),
    (512 + 128, &[3, 0, 0, 0, 116, 119, 111]),
];

/// Its value.
static VALUES: [(usize, &[u8]); 1] = [(128, &[254, 255, 255, 255, 255, 255, 255, 255])];

#[test]
fn writes_the_records_of_counters(rt: HostRuntime) {
    let manager = two_counters(&rt, rt.alloc());
    let metadata = CounterMetadata(&manager);
    writes(&rt, rt.alloc(), &metadata, 100, 1024, &METADATA);
    let values = CounterValueWords(&manager);
    writes(&rt, rt.alloc(), &values, 100, 256, &VALUES);
}
