//! The report of a ring.
use crate::records::{Listed, Shown, Tally};
use crate::report::{Field, Report};
use crate::state::State;
use crate::view::View;
use ring_layout::byte_index;
use ring_snapshot::{Record, RecordState, RingSnapshot};
use std::alloc::{AllocError, Global};
use std::fmt::Write;

fn state_of(state: RecordState) -> State {
    match state {
        RecordState::Open => State::Open,
        RecordState::Committed => State::Committed,
        RecordState::Aborted => State::Aborted,
        RecordState::AbortedOrPadding => State::AbortedOrPadding,
        RecordState::Unstored => State::Unstored,
    }
}

impl<'a> From<Record<'a>> for Shown<'a> {
    ghost use Rattle.std.specs.Prelude.{◌≡◌};

    ghost from_gives = { λ own shown. (shown.place ≡ own.place) × (shown.index ≡ own.index)
        × (shown.type_id ≡ own.type_id) × (shown.length ≡ own.length) };

    fn from(record: Record<'a>) -> Shown<'a> {
        let has_message = matches!(record.state, RecordState::Open | RecordState::Committed);
        Shown {
            place: record.place,
            index: record.index,
            state: state_of(record.state),
            type_id: record.type_id,
            length: record.length,
            body: if has_message { Some(record.body) } else { None },
        }
    }
}

/// Returns how many bytes are free, or `None` if the head and the tail make no sense.
fn free(ring: &RingSnapshot<'_>) -> Option<u64> {
    let used = ring.tail().checked_sub(ring.head())?;
    u64::from(ring.capacity()).checked_sub(used)
}

/// Adds the numbers of the ring.
fn add_numbers(report: &mut Report, ring: &RingSnapshot<'_>) -> Result<(), AllocError> {
    report.fields.extend_from_slice(&[
        Field::new("capacity", u64::from(ring.capacity())),
        Field::new("head", ring.head()),
        Field::new("tail", ring.tail()),
        Field::new("head_cache", ring.head_cache()),
        Field::new("correlation", ring.correlation()),
        Field::new("heartbeat", ring.heartbeat()),
    ])
}

/// Adds the numbers that follow from the records.
fn add_counts(
    report: &mut Report,
    ring: &RingSnapshot<'_>,
    tally: Tally,
) -> Result<(), AllocError> {
    report.counts.extend_from_slice(&[
        Field::new("committed", u64::from(tally.committed)),
        Field::new("open", u64::from(tally.open)),
        Field::new("aborted_or_padding", u64::from(tally.passed)),
    ])?;
    report.stop = tally.stop;
    report.details.extend_from_slice(&[Field {
        name: "free",
        value: free(ring),
    }])
}

/// Adds the summary, which is one line.
fn sum_up(text: &mut String, ring: &RingSnapshot<'_>, tally: Tally) -> Result<(), AllocError> {
    let (committed, open, passed) = (tally.committed, tally.open, tally.passed);
    write!(
        text,
        "{committed} committed, {open} open, {passed} aborted or padding"
    )?;
    if tally.unstored {
        text.push_str(", then headers not yet stored")?;
    }
    if let Some(free) = free(ring) {
        write!(text, "; {free} of {} bytes free", ring.capacity())?;
    }
    Ok(())
}

/// Returns letters, and the byte indexes before which they are drawn.
fn signs(ring: &RingSnapshot<'_>) -> [(char, u64); 2] {
    let capacity = ring.capacity();
    [
        ('H', byte_index(capacity, ring.head())),
        ('T', byte_index(capacity, ring.tail())),
    ]
}

/// Adds the records from the head on, or from a position on.
fn list(
    alloc: Global,
    report: &mut Report,
    listed: &mut Listed,
    ring: &RingSnapshot<'_>,
    from: Option<u64>,
) -> Result<(), AllocError> {
    match ring.records_from(from.unwrap_or(ring.head())) {
        Ok(records) => listed.gather(alloc, &mut report.rows, &mut report.findings, records),
        Err(finding) => report.find(alloc, finding),
    }
}

impl Report {
    /// Returns the report of the words of a ring. It lists the records from the head on, or from the position that is
    /// asked for. The findings are words that are not those of a ring, positions that make no sense, and faults of the
    /// records.
    pub fn of_ring(alloc: Global, words: &[u64], view: View) -> Result<Report, AllocError> {
        let mut report = Report::empty(alloc, "ring", "records");
        report.add_ring(alloc, words, view)?;
        Ok(report)
    }

    /// Adds the report of the words of a ring.
    fn add_ring(&mut self, alloc: Global, words: &[u64], view: View) -> Result<(), AllocError> {
        let ring = match RingSnapshot::new(words) {
            Ok(ring) => ring,
            Err(finding) => return self.refuse(alloc, "not a ring", finding),
        };
        let mut listed = Listed::new(ring.capacity(), view);
        list(alloc, self, &mut listed, &ring, view.from)?;
        listed.draw(self, &signs(&ring))?;
        add_numbers(self, &ring)?;
        add_counts(self, &ring, listed.tally())?;
        sum_up(&mut self.summary, &ring, listed.tally())
    }
}
