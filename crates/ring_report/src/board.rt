//! The report of a broadcast buffer.
use crate::records::{Listed, Shown, Tally};
use crate::report::{Field, Report};
use crate::state::State;
use crate::view::View;
use ring_layout::byte_index;
use ring_snapshot::{BoardRecord, BoardSnapshot};
use std::alloc::{AllocError, Global};
use std::fmt::Write;

fn state_of(is_padding: bool, is_valid: bool) -> State {
    match (is_padding, is_valid) {
        (false, true) => State::Valid,
        (false, false) => State::Lapped,
        (true, true) => State::Padding,
        (true, false) => State::LappedPadding,
    }
}

impl<'a> From<BoardRecord<'a>> for Shown<'a> {
    ghost use Rattle.std.specs.Prelude.{◌≡◌};

    ghost from_gives = { λ own shown. (shown.place ≡ own.place) × (shown.index ≡ own.index)
        × (shown.type_id ≡ own.type_id) × (shown.length ≡ own.length) };

    fn from(record: BoardRecord<'a>) -> Shown<'a> {
        let (is_padding, is_valid) = (record.is_padding, record.is_valid);
        Shown {
            place: record.place,
            index: record.index,
            state: state_of(is_padding, is_valid),
            type_id: record.type_id,
            length: record.length,
            body: if is_padding { None } else { Some(record.body) },
        }
    }
}

/// Adds the numbers of the broadcast buffer and of its records.
fn add_numbers(
    report: &mut Report,
    board: &BoardSnapshot<'_>,
    tally: Tally,
) -> Result<(), AllocError> {
    report.fields.extend_from_slice(&[
        Field::new("capacity", u64::from(board.capacity())),
        Field::new("tail_intent", board.intent()),
        Field::new("tail", board.tail()),
        Field::new("latest", board.latest()),
    ])?;
    report.counts.extend_from_slice(&[
        Field::new("valid", u64::from(tally.committed)),
        Field::new("lapped", u64::from(tally.lapped)),
        Field::new("padding", u64::from(tally.passed)),
    ])
}

/// Adds the summary, which is one line.
fn sum_up(text: &mut String, board: &BoardSnapshot<'_>, tally: Tally) -> Result<(), AllocError> {
    let (valid, lapped, padding) = (tally.committed, tally.lapped, tally.passed);
    write!(text, "{valid} valid, {lapped} lapped, {padding} padding")?;
    let (intent, tail) = (board.intent(), board.tail());
    if intent > tail {
        write!(text, "; transmitting from {tail} to {intent}")?;
    }
    if !board.is_lap_whole() {
        text.push_str("; the begin of the lap is overwritten")?;
    }
    Ok(())
}

/// Returns letters, and the byte indexes before which they are drawn.
fn signs(board: &BoardSnapshot<'_>) -> [(char, u64); 3] {
    let capacity = board.capacity();
    [
        ('L', byte_index(capacity, board.latest())),
        ('T', byte_index(capacity, board.tail())),
        ('I', byte_index(capacity, board.intent())),
    ]
}

/// Adds the records of the current lap, or those from a position on.
fn list(
    alloc: Global,
    report: &mut Report,
    listed: &mut Listed,
    board: &BoardSnapshot<'_>,
    from: Option<u64>,
) -> Result<(), AllocError> {
    let begun = match from {
        Some(position) => board.records_from(position),
        None => board.records(),
    };
    match begun {
        Ok(records) => listed.gather(alloc, &mut report.rows, &mut report.findings, records),
        Err(finding) => report.find(alloc, finding),
    }
}

impl Report {
    /// Returns the report of the words of a broadcast buffer. It lists the current lap, or the records from the
    /// position that is asked for. Its findings are like those of `of_ring`.
    pub fn of_board(alloc: Global, words: &[u64], view: View) -> Result<Report, AllocError> {
        let mut report = Report::empty(alloc, "board", "records");
        report.add_board(alloc, words, view)?;
        Ok(report)
    }

    /// Adds the report of the words of a broadcast buffer.
    fn add_board(&mut self, alloc: Global, words: &[u64], view: View) -> Result<(), AllocError> {
        let board = match BoardSnapshot::new(words) {
            Ok(board) => board,
            Err(finding) => return self.refuse(alloc, "not a board", finding),
        };
        let mut listed = Listed::new(board.capacity(), view);
        list(alloc, self, &mut listed, &board, view.from)?;
        listed.draw(self, &signs(&board))?;
        add_numbers(self, &board, listed.tally())?;
        sum_up(&mut self.summary, &board, listed.tally())
    }
}
