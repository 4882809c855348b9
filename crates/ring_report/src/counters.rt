//! The report of counters.
use crate::bodies;
use crate::report::{Cell, Column, Field, Report};
use crate::state::State;
use crate::view::{Bodies, View};
use ring_layout::counter_descriptor::NOT_FREE_FOR_REUSE;
use ring_snapshot::{Body, Counter, CounterState, CountersSnapshot};
use std::alloc::{AllocError, Global};
use std::fmt::Write;

/// The columns of a list of counters. The last column is for keys.
static COLUMNS: [Column; 9] = [
    Column {
        name: "id",
        is_number: true,
    },
    Column {
        name: "state",
        is_number: false,
    },
    Column {
        name: "type",
        is_number: true,
    },
    Column {
        name: "value",
        is_number: true,
    },
    Column {
        name: "registration",
        is_number: true,
    },
    Column {
        name: "owner",
        is_number: true,
    },
    Column {
        name: "deadline",
        is_number: true,
    },
    Column {
        name: "label",
        is_number: false,
    },
    Column {
        name: "key",
        is_number: false,
    },
];

fn state_of(state: CounterState) -> State {
    match state {
        CounterState::Allocated => State::InUse,
        CounterState::Reclaimed => State::Freed,
    }
}

/// Returns the number of bytes up to the last byte that is not 0.
fn used_len(bytes: &[u8]) -> usize {
    let mut len = 0;
    for (k, byte) in bytes.iter().enumerate() {
        if *byte != 0 {
            len = k + 1;
        }
    }
    len
}

/// Returns a key without the zeros at its end, since memory does not say how long the key is.
fn key_cell(alloc: Global, bodies: Bodies, key: Body<'_>) -> Result<Cell, AllocError> {
    let bytes: Vec<u8> = key.collect(alloc)?;
    let len = used_len(bytes.as_slice()).min(bytes.len());
    bodies::cell(alloc, bodies, &bytes[..len])
}

/// Returns the cell of the moment from which a freed id may be allocated again.
fn deadline_cell(deadline: u64) -> Cell {
    if deadline == NOT_FREE_FOR_REUSE {
        Cell::Nothing
    } else {
        Cell::Unsigned(deadline)
    }
}

fn label_cell(alloc: Global, label: Body<'_>) -> Result<Cell, AllocError> {
    let bytes: Vec<u8> = label.collect(alloc)?;
    bodies::cell(alloc, Bodies::Text, bytes.as_slice())
}

/// Returns the cells of a counter's value record, which are its value, its registration id and its owner. The cells are
/// empty if the values are not known.
fn value_cells(counter: &Counter<'_>, has_values: bool) -> (Cell, Cell, Cell) {
    if !has_values {
        return (Cell::Nothing, Cell::Nothing, Cell::Nothing);
    }
    (
        Cell::Signed(counter.value),
        Cell::Unsigned(counter.registration),
        Cell::Unsigned(counter.owner),
    )
}

/// Returns the cells of a counter up to the label, one cell for each column.
fn cells(alloc: Global, counter: &Counter<'_>, has_values: bool) -> Result<Vec<Cell>, AllocError> {
    let (value, registration, owner) = value_cells(counter, has_values);
    let cells = vec![in alloc;
        Cell::Unsigned(u64::from(counter.id)),
        Cell::State(state_of(counter.state)),
        Cell::Signed(i64::from(counter.type_id)),
        value,
        registration,
        owner,
        deadline_cell(counter.deadline),
    ]?;
    Ok(cells)
}

/// Adds the cell of a counter's label. If bytes are shown, also adds the cell of its key.
fn push_texts(
    alloc: Global,
    row: &mut Vec<Cell>,
    bodies: Bodies,
    counter: Counter<'_>,
) -> Result<(), AllocError> {
    row.push(label_cell(alloc, counter.label)?)?;
    if bodies != Bodies::None {
        row.push(key_cell(alloc, bodies, counter.key)?)?;
    }
    Ok(())
}

/// The number of counters that were added.
#[derive(Clone, Copy, Default)]
struct Tally {
    in_use: u32,
    freed: u32,
}

impl Tally {
    /// Adds a counter to the count of its state.
    fn count(&mut self, state: CounterState) {
        match state {
            CounterState::Allocated => self.in_use = self.in_use.saturating_add(1),
            CounterState::Reclaimed => self.freed = self.freed.saturating_add(1),
        }
    }
}

/// The number of words of a value record. The first three words have the value, the registration id and the owner. The
/// others are 0.
const VALUE_WORDS: usize = 16;

/// The number of words of a value record in the memory of a running program. These are the first three words.
const PACKED_WORDS: usize = 3;

/// The number of words of a counter's metadata.
const METADATA_WORDS: usize = 64;

/// Returns the value records with all their words. If the records are of a running program, the words that are always 0
/// are added to each.
fn spread(alloc: Global, ids: usize, values: &[u64]) -> Result<Vec<u64>, AllocError> {
    if values.len() / PACKED_WORDS != ids || values.len() % PACKED_WORDS != 0 {
        return Vec::from_slice(alloc, values);
    }
    let mut words = Vec::new(alloc);
    for record in values.chunks(PACKED_WORDS) {
        words.extend_from_slice(record)?;
        words.extend_from_slice(&[0; VALUE_WORDS - PACKED_WORDS])?;
    }
    Ok(words)
}

impl Report {
    /// Returns the report of the words of counters, which are their metadata and their values. It lists the counters
    /// from the first id on, or from the id that is asked for. The value records have 16 words each, or the three words
    /// that a running program keeps of each. `values` is `None` if the place of the values is not known. The findings
    /// are words that are not those of counters, and ids with a record that no counter has.
    pub fn of_counters(
        alloc: Global,
        metadata: &[u64],
        values: Option<&[u64]>,
        view: View,
    ) -> Result<Report, AllocError> {
        let ids = metadata.len() / METADATA_WORDS;
        let words = match values {
            Some(values) => spread(alloc, ids, values)?,
            None => vec![in alloc; 0; metadata.len() / 4]?,
        };
        let mut report = Report::empty(alloc, "counters", "counters");
        match CountersSnapshot::new(metadata, words.as_slice()) {
            Ok(counters) => report.add_counters(alloc, &counters, values.is_some(), view)?,
            Err(finding) => report.refuse(alloc, "not counters", finding)?,
        }
        Ok(report)
    }

    /// Adds a row for a counter, if fewer rows than the limit are listed.
    fn add_counter(
        &mut self,
        alloc: Global,
        view: View,
        has_values: bool,
        counter: Counter<'_>,
    ) -> Result<(), AllocError> {
        if self.rows.len() as u64 >= view.limit.unwrap_or(u64::MAX) {
            self.unlisted = self.unlisted.saturating_add(1);
            return Ok(());
        }
        let mut row = cells(alloc, &counter, has_values)?;
        push_texts(alloc, &mut row, view.bodies, counter)?;
        self.rows.push(row)?;
        Ok(())
    }

    /// Adds the counters from the first id on, or from the id that is asked for, and the summary.
    fn add_counters(
        &mut self,
        alloc: Global,
        counters: &CountersSnapshot<'_>,
        has_values: bool,
        view: View,
    ) -> Result<(), AllocError> {
        let mut tally = Tally::default();
        let first = u32::try_from(view.from.unwrap_or(0)).unwrap_or(u32::MAX);
        for entry in counters.counters_from(first) {
            match entry {
                Ok(counter) => {
                    tally.count(counter.state);
                    self.add_counter(alloc, view, has_values, counter)?;
                }
                Err(finding) => self.find(alloc, finding)?,
            }
        }
        self.columns = if view.bodies == Bodies::None {
            &COLUMNS[..8]
        } else {
            &COLUMNS
        };
        self.sum_up(counters.count(), tally)?;
        if !has_values {
            self.summary.push_str("; their values are not known")?;
        }
        Ok(())
    }

    /// Adds the summary of this many ids.
    fn sum_up(&mut self, ids: u32, tally: Tally) -> Result<(), AllocError> {
        let Tally { in_use, freed } = tally;
        self.fields
            .extend_from_slice(&[Field::new("ids", u64::from(ids))])?;
        self.counts.extend_from_slice(&[
            Field::new("in_use", u64::from(in_use)),
            Field::new("freed", u64::from(freed)),
        ])?;
        write!(self.summary, "{in_use} in use, {freed} freed, of {ids} ids")
    }
}
