//! The list of records that rings and broadcast buffers share.
ghost use Rattle.std.specs.Prelude.{◌≡◌, ◌<◌, ◌≤◌, length, OnOk, IfOk};
ghost use Rattle.std.specs.Iterator.{IsFinite};
ghost use Rattle.ring_report.specs.Rows.{IsAppended, IsRowOf};

use crate::blocked::{OpenClaim, Stop};
use crate::bodies;
use crate::picture::{Mark, Picture};
use crate::report::{Cell, Column, Report, add_finding};
use crate::state::State;
use crate::view::{Bodies, View};
use ring_layout::align8;
use ring_snapshot::Body;
use std::alloc::{AllocError, Global};
use std::fmt::Display;

/// The columns of a list of records. The last column is for bodies.
static COLUMNS: [Column; 6] = [
    Column {
        name: "place",
        is_number: true,
    },
    Column {
        name: "index",
        is_number: true,
    },
    Column {
        name: "state",
        is_number: false,
    },
    Column {
        name: "type",
        is_number: true,
    },
    Column {
        name: "length",
        is_number: true,
    },
    Column {
        name: "body",
        is_number: false,
    },
];

/// A record as it is shown.
#[derive(Drop)]
pub struct Shown<'a> {
    pub place: u64,
    pub index: u32,
    pub state: State,
    pub type_id: i32,
    pub length: u32,
    /// The message of the record, if it has one.
    pub body: Option<Body<'a>>,
}

fn body_cell(alloc: Global, bodies: Bodies, body: Option<Body<'_>>) -> Result<Cell, AllocError> {
    let Some(body) = body else {
        return Ok(Cell::Nothing);
    };
    let bytes: Vec<u8> = body.collect(alloc)?;
    bodies::cell(alloc, bodies, bytes.as_slice())
}

/// Marks the bytes of a record. If headers are not yet stored, the bytes may go on at the buffer's start.
fn mark(picture: &mut Picture, capacity: u32, shown: &Shown<'_>) {
    let span = align8(u64::from(shown.length));
    let room = u64::from(capacity.saturating_sub(shown.index));
    let mark = shown.state.mark();
    picture.mark(shown.index, span.min(room), mark);
    if span > room {
        picture.mark(0, span - room, mark);
    }
}

impl<'a> Shown<'a> {
    /// Returns the place at which a reader stops, if the record is open.
    fn open_stop(&self) -> Stop {
        Stop {
            place: self.place,
            claim: Some(OpenClaim {
                type_id: self.type_id,
                length: self.length,
            }),
        }
    }

    /// Returns the cells of the record, one cell for each column.
    fn row(self, alloc: Global, bodies: Bodies) -> Result<Vec<Cell>, AllocError>
        ensures { IfOk result (λ row. IsRowOf self.entry.place self.entry.index self.entry.type_id self.entry.length
            row.items) }
    {
        let mut row = vec![in alloc;
            Cell::Unsigned(self.place),
            Cell::Unsigned(u64::from(self.index)),
            Cell::State(self.state),
            Cell::Signed(i64::from(self.type_id)),
            Cell::Unsigned(u64::from(self.length)),
        ]?;
        if bodies != Bodies::None {
            row.push(body_cell(alloc, bodies, self.body)?)?;
        }
        Ok(row)
    }
}

/// The number of records of each mark.
#[derive(Clone, Copy, Default)]
pub struct Tally {
    pub committed: u32,
    pub lapped: u32,
    pub open: u32,
    /// The number of aborted records and of padding.
    pub passed: u32,
    pub unstored: bool,
    /// The number of bytes of the records that are messages, each from its start to the start of the next record.
    pub message_bytes: u64,
    /// The first record at which a reader stops.
    pub stop: Option<Stop>,
}

impl Tally {
    /// Counts a record.
    fn add(&mut self, shown: &Shown<'_>) {
        let mark = shown.state.mark();
        if matches!(mark, Mark::Committed | Mark::Lapped | Mark::Open) {
            let span = align8(u64::from(shown.length));
            self.message_bytes = self.message_bytes.saturating_add(span);
        }
        match mark {
            Mark::Committed => self.committed = self.committed.saturating_add(1),
            Mark::Lapped => self.lapped = self.lapped.saturating_add(1),
            Mark::Aborted | Mark::AbortedOrPadding => self.passed = self.passed.saturating_add(1),
            Mark::Open => {
                self.open = self.open.saturating_add(1);
                self.stop = self.stop.or(Some(shown.open_stop()));
            }
            Mark::Unstored => {
                self.unstored = true;
                self.stop = self.stop.or(Some(Stop {
                    place: shown.place,
                    claim: None,
                }));
            }
            Mark::Free => {}
        }
    }
}

/// The results of a listing, apart from what is added to its report.
#[derive(Clone, Copy)]
pub struct Listed {
    capacity: u32,
    bodies: Bodies,
    /// The largest number of rows that are listed.
    limit: u64,
    picture: Picture,
    tally: Tally,
    /// How many rows were left out.
    unlisted: u64,
}

impl Listed {
    /// Returns empty results for a buffer.
    pub fn new(capacity: u32, view: View) -> Listed {
        Listed {
            capacity,
            bodies: view.bodies,
            limit: view.limit.unwrap_or(u64::MAX),
            picture: Picture::new(capacity, view.width),
            tally: Tally::default(),
            unlisted: 0,
        }
    }

    /// Adds a record. The record becomes a row if fewer rows than the limit are listed.
    fn add(
        &mut self,
        alloc: Global,
        rows: &mut Vec<Vec<Cell>>,
        shown: Shown<'_>,
    ) -> Result<(), AllocError>
        ensures listed { OnOk result (length rows.old.items < self.old.limit
            → IsAppended rows.old.items rows.new.items (λ row. IsRowOf shown.entry.place shown.entry.index
            shown.entry.type_id shown.entry.length row.items)) }
        ensures left_out { OnOk result (self.old.limit ≤ length rows.old.items
            → rows.new.items ≡ rows.old.items) }
        ensures limit { self.new.limit ≡ self.old.limit }
    {
        mark(&mut self.picture, self.capacity, &shown);
        self.tally.add(&shown);
        if rows.len() as u64 >= self.limit {
            self.unlisted = self.unlisted.saturating_add(1);
            return Ok(());
        }
        let row = shown.row(alloc, self.bodies)?;
        rows.push(row)?;
        Ok(())
    }

    /// Adds the records of a listing, and its findings.
    pub fn gather<
        'a,
        R: Into<Shown<'a>> + Drop,
        F: Display + Drop,
        I: Iterator<Item = Result<R, F>> + Drop,
    >(
        &mut self,
        alloc: Global,
        rows: &mut Vec<Vec<Cell>>,
        findings: &mut Vec<String>,
        records: I,
    ) -> Result<(), AllocError>
        requires can { I.can_next records }
        requires ends { IsFinite (I.remaining records) }
    {
        for entry in records {
            match entry {
                Ok(record) => self.add(alloc, rows, record.into())?,
                Err(finding) => add_finding(alloc, findings, finding)?,
            }
        }
        Ok(())
    }

    /// Returns the number of records that were added.
    pub fn tally(&self) -> Tally {
        self.tally
    }

    /// Adds the columns, the number of rows that were left out, the bytes of messages, and the picture. The picture has
    /// letters before the pieces of these byte indexes.
    pub fn draw(&self, report: &mut Report, signs: &[(char, u64)]) -> Result<(), AllocError> {
        report.columns = if self.bodies == Bodies::None {
            &COLUMNS[..5]
        } else {
            &COLUMNS
        };
        report.unlisted = self.unlisted;
        report.message_bytes = self.tally.message_bytes;
        self.picture.push_line(&mut report.picture, signs)
    }
}
