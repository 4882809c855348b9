//! Metrics, and what two looks say of a ring.
use crate::compare::same;
use crate::reports::{board_report, ring_report};
use crate::snapshots::shows;
use crate::stored::LAPPED;
use ring_report::{Labelled, OpenClaim, Origin, Report, Sight, Stop, note_settled, to_prometheus};
use std::alloc::{AllocError, Global};
use std::process::Abort;

/// A report with labels.
fn labelled<'a>(report: &'a Report, file: &'a str, at: u64, name: Option<&'a str>) -> Labelled<'a> {
    let origin = Some(Origin { file, at, name });
    Labelled { report, origin }
}

/// The metrics of two rings and a broadcast buffer: the first ring, which has a name, and the broadcast buffer are in the
/// memory of a process, and the second ring is in a file.
fn metrics_of_all<'a>(
    alloc: Global,
    ring: &'a Report,
    other: &'a Report,
    board: &'a Report,
    process: &'a str,
    file: &'a str,
    name: &'a str,
) -> Result<String, AllocError> {
    to_prometheus(
        alloc,
        &[
            labelled(ring, process, 4096, Some(name)),
            labelled(other, file, 0, None),
            labelled(board, process, 8192, None),
        ],
    )
}

#[test]
fn shows_each_metric_once(rt: HostRuntime) {
    let (ring, board) = (
        ring_report(&rt, rt.alloc(), &[]),
        board_report(&rt, rt.alloc(), LAPPED.words),
    );
    let mut other = ring_report(&rt, rt.alloc(), &[]);
    other.note_blocked(1023);
    shows(
        &rt,
        metrics_of_all(
            rt.alloc(),
            &ring,
            &other,
            &board,
            "/proc/17/mem",
            "a\"b",
            "orders",
        ),
        "\
# HELP felter_ring_capacity_bytes The bytes of the ring's buffer.
# TYPE felter_ring_capacity_bytes gauge
felter_ring_capacity_bytes{pid=\"17\",address=\"0x1000\",name=\"orders\"} 256
felter_ring_capacity_bytes{file=\"a\\\"b\",address=\"0x0\"} 256
# HELP felter_ring_used_bytes The bytes that are claimed and not yet read.
# TYPE felter_ring_used_bytes gauge
felter_ring_used_bytes{pid=\"17\",address=\"0x1000\",name=\"orders\"} 112
felter_ring_used_bytes{file=\"a\\\"b\",address=\"0x0\"} 112
# HELP felter_ring_written_bytes_total The bytes that were claimed in all: the tail.
# TYPE felter_ring_written_bytes_total counter
felter_ring_written_bytes_total{pid=\"17\",address=\"0x1000\",name=\"orders\"} 112
felter_ring_written_bytes_total{file=\"a\\\"b\",address=\"0x0\"} 112
# HELP felter_ring_read_bytes_total The bytes that were read in all: the head.
# TYPE felter_ring_read_bytes_total counter
felter_ring_read_bytes_total{pid=\"17\",address=\"0x1000\",name=\"orders\"} 0
felter_ring_read_bytes_total{file=\"a\\\"b\",address=\"0x0\"} 0
# HELP felter_ring_settled 1 if the positions stayed the same while the ring was read, otherwise 0.
# TYPE felter_ring_settled gauge
felter_ring_settled{pid=\"17\",address=\"0x1000\",name=\"orders\"} 1
felter_ring_settled{file=\"a\\\"b\",address=\"0x0\"} 1
# HELP felter_ring_blocked 1 if two looks saw the same open record at which a read stops, and the same head, otherwise 0.
# TYPE felter_ring_blocked gauge
felter_ring_blocked{pid=\"17\",address=\"0x1000\",name=\"orders\"} 0
felter_ring_blocked{file=\"a\\\"b\",address=\"0x0\"} 1
# HELP felter_ring_blocked_seconds The time between these two looks, 0 if the ring is not blocked.
# TYPE felter_ring_blocked_seconds gauge
felter_ring_blocked_seconds{pid=\"17\",address=\"0x1000\",name=\"orders\"} 0.000
felter_ring_blocked_seconds{file=\"a\\\"b\",address=\"0x0\"} 1.023
# HELP felter_broadcast_capacity_bytes The bytes of the broadcast buffer.
# TYPE felter_broadcast_capacity_bytes gauge
felter_broadcast_capacity_bytes{pid=\"17\",address=\"0x2000\"} 256
# HELP felter_broadcast_transmitted_bytes_total The bytes that were transmitted in all: the tail.
# TYPE felter_broadcast_transmitted_bytes_total counter
felter_broadcast_transmitted_bytes_total{pid=\"17\",address=\"0x2000\"} 360
# HELP felter_broadcast_settled 1 if the positions stayed the same while the broadcast buffer was read, otherwise 0.
# TYPE felter_broadcast_settled gauge
felter_broadcast_settled{pid=\"17\",address=\"0x2000\"} 1
# HELP felter_findings How many findings the memory has.
# TYPE felter_findings gauge
felter_findings{pid=\"17\",address=\"0x1000\",name=\"orders\"} 0
felter_findings{file=\"a\\\"b\",address=\"0x0\"} 0
felter_findings{pid=\"17\",address=\"0x2000\"} 0
",
    );
}

/// Tests the summary of a report with where a read stops. The report is dropped here, so that its drop is proved once.
fn shows_summary(rt: &impl Abort, alloc: Global, report: Report, wanted: &str) {
    let mut text = String::new(alloc);
    report.push_summary(&mut text).expect(rt, "memory");
    same(rt, text.as_str(), wanted);
}

#[test]
fn one_look_says_where_a_read_stops(rt: HostRuntime) {
    let report = ring_report(&rt, rt.alloc(), &[]);
    let claim = Some(OpenClaim {
        type_id: 5,
        length: 28,
    });
    same(&rt, report.stop, Some(Stop { place: 40, claim }));
    assert!(rt; !report.is_blocked());
    shows_summary(
        &rt,
        rt.alloc(),
        report,
        "4 committed, 1 open, 0 aborted or padding; 144 of 256 bytes free; a read stops at 40 (open, type 5, length 28)",
    );
}

/// What a look at the ring with these changes sees at the place where a read stops.
fn sight_of(rt: &impl Abort, alloc: Global, changes: &[(usize, u64)]) -> Option<Sight> {
    ring_report(rt, alloc, changes).sight()
}

#[test]
fn two_looks_say_that_it_is_blocked(rt: HostRuntime) {
    let before = sight_of(&rt, rt.alloc(), &[]);
    assert!(rt; before.is_some());
    let mut report = ring_report(&rt, rt.alloc(), &[]);
    same(&rt, report.sight(), before);
    report.note_blocked(250);
    shows_summary(
        &rt,
        rt.alloc(),
        report,
        "4 committed, 1 open, 0 aborted or padding; 144 of 256 bytes free; \
blocked for at least 250 ms at 40 (open, type 5, length 28)",
    );
}

/// The index of the head, which is word 48 of the trailer.
const HEAD: usize = 32 + 48;

/// Another head, and other headers of the claim at byte 40.
static OTHER_SIGHTS: [(usize, u64); 4] = [
    (HEAD, 16),
    (5, 0),
    (5, 0x5_ffff_ffec),
    (5, 0x6_ffff_ffe4),
];

#[test]
fn another_head_or_claim_is_another_sight(rt: HostRuntime) {
    let sight = sight_of(&rt, rt.alloc(), &[]);
    for other in &OTHER_SIGHTS {
        let other = sight_of(&rt, rt.alloc(), &[*other]);
        assert!(rt; other.is_some() && other != sight);
    }
    same(&rt, sight_of(&rt, rt.alloc(), &[(5, 0x5_0000_001c)]), None);
}

/// The report of an unsettled look.
fn unsettled(rt: &impl Abort, report: Report) -> Report {
    note_settled(Ok(report), false).expect(rt, "memory")
}

/// How many findings a report has.
fn count_findings(report: Report) -> usize {
    report.findings.len()
}

#[test]
fn an_unsettled_look_has_no_finding(rt: HostRuntime) {
    // (the tail is before the head)
    let wrong = ring_report(&rt, rt.alloc(), &[(HEAD, 4096)]);
    same(&rt, wrong.findings.len(), 1);
    same(&rt, count_findings(unsettled(&rt, wrong)), 0);
    let report = unsettled(&rt, ring_report(&rt, rt.alloc(), &[]));
    same(&rt, report.sight(), None);
    shows_summary(
        &rt,
        rt.alloc(),
        report,
        "4 committed, 1 open, 0 aborted or padding; 144 of 256 bytes free; \
a read stops at 40 (open, type 5, length 28); positions changed during each of 3 reads",
    );
}
