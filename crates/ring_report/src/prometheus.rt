//! Writes reports in the text format of Prometheus.
use crate::origin::{Origin, push_escaped};
use crate::report::{Cell, Report, number};
use crate::state::State;
use std::alloc::{AllocError, Global};
use std::fmt::Write;

/// A report with its origin.
#[derive(Clone, Copy)]
pub struct Labelled<'a> {
    /// The report.
    pub report: &'a Report,
    /// The file and the place of the report, which are the labels of its metrics. If it is `None`, the metrics have no
    /// label.
    pub origin: Option<Origin<'a>>,
}

/// The number that a metric has.
#[derive(Clone, Copy)]
enum Number {
    /// The number of the report with this name.
    Field(&'static str),
    /// The bytes that are claimed and not yet read.
    Used,
    /// 1 if the positions stayed the same.
    Settled,
    /// 1 if two looks saw the consumer blocked.
    Blocked,
    /// The number of milliseconds between two looks that saw the consumer blocked.
    BlockedMillis,
    /// The number of findings.
    Findings,
}

/// A metric that each report has at most once.
struct Metric {
    /// The kind of report that has the metric. An empty text means any kind.
    of: &'static str,
    name: &'static str,
    /// `gauge` or `counter`.
    kind: &'static str,
    help: &'static str,
    number: Number,
}

static METRICS: [Metric; 11] = [
    Metric {
        of: "ring",
        name: "ring_capacity_bytes",
        kind: "gauge",
        help: "The bytes of the ring's buffer.",
        number: Number::Field("capacity"),
    },
    Metric {
        of: "ring",
        name: "ring_used_bytes",
        kind: "gauge",
        help: "The bytes that are claimed and not yet read.",
        number: Number::Used,
    },
    Metric {
        of: "ring",
        name: "ring_written_bytes_total",
        kind: "counter",
        help: "The bytes that were claimed in all: the tail.",
        number: Number::Field("tail"),
    },
    Metric {
        of: "ring",
        name: "ring_read_bytes_total",
        kind: "counter",
        help: "The bytes that were read in all: the head.",
        number: Number::Field("head"),
    },
    Metric {
        of: "ring",
        name: "ring_settled",
        kind: "gauge",
        help: "1 if the positions stayed the same while the ring was read, otherwise 0.",
        number: Number::Settled,
    },
    Metric {
        of: "ring",
        name: "ring_blocked",
        kind: "gauge",
        help: "1 if two looks saw the same open record at which a read stops, and the same head, otherwise 0.",
        number: Number::Blocked,
    },
    Metric {
        of: "ring",
        name: "ring_blocked_seconds",
        kind: "gauge",
        help: "The time between these two looks, 0 if the ring is not blocked.",
        number: Number::BlockedMillis,
    },
    Metric {
        of: "board",
        name: "broadcast_capacity_bytes",
        kind: "gauge",
        help: "The bytes of the broadcast buffer.",
        number: Number::Field("capacity"),
    },
    Metric {
        of: "board",
        name: "broadcast_transmitted_bytes_total",
        kind: "counter",
        help: "The bytes that were transmitted in all: the tail.",
        number: Number::Field("tail"),
    },
    Metric {
        of: "board",
        name: "broadcast_settled",
        kind: "gauge",
        help: "1 if the positions stayed the same while the broadcast buffer was read, otherwise 0.",
        number: Number::Settled,
    },
    Metric {
        of: "",
        name: "findings",
        kind: "gauge",
        help: "How many findings the memory has.",
        number: Number::Findings,
    },
];

/// Returns the bytes that are claimed and not yet read. Returns `None` if the positions make no sense.
fn used(report: &Report) -> Option<u64> {
    let capacity = report.number("capacity")?;
    let free = number(report.details.as_slice(), "free")?;
    Some(capacity.saturating_sub(free))
}

/// Returns a number of a report.
fn number_of(report: &Report, wanted: Number) -> Option<u64> {
    match wanted {
        Number::Field(name) => report.number(name),
        Number::Used => used(report),
        Number::Settled => Some(u64::from(report.is_settled)),
        Number::Blocked => Some(u64::from(report.is_blocked())),
        Number::BlockedMillis => Some(report.blocked_ms.unwrap_or(0)),
        Number::Findings => Some(report.findings.len() as u64),
    }
}

impl Metric {
    /// Returns the number that a report has for this metric, if it has one. If the memory is not what it was said to
    /// be, the report only has the number of its findings.
    fn number_in(&self, report: &Report) -> Option<u64> {
        if self.of.is_empty() {
            return number_of(report, self.number);
        }
        if self.of != report.kind || report.number("capacity").is_none() {
            return None;
        }
        number_of(report, self.number)
    }

    /// Adds the lines that come before the first sample.
    fn push_head(&self, text: &mut String) -> Result<(), AllocError> {
        let Metric {
            name,
            kind,
            help,
            ..
        } = self;
        write!(
            text,
            "# HELP felter_{name} {help}\n# TYPE felter_{name} {kind}\n"
        )
    }

    /// Adds the line of a sample. Times are in seconds.
    fn push_sample(
        &self,
        text: &mut String,
        origin: Option<Origin<'_>>,
        number: u64,
    ) -> Result<(), AllocError> {
        write!(text, "felter_{}", self.name)?;
        if let Some(origin) = origin {
            text.push('{')?;
            origin.push_labels(text)?;
            text.push('}')?;
        }
        match self.number {
            Number::BlockedMillis => { writeln!(text, " {}.{:03}", number / 1000, number % 1000) }
            _ => writeln!(text, " {number}"),
        }
    }

    /// Adds the lines of this metric for all reports that have it.
    fn push_all(&self, text: &mut String, reports: &[Labelled<'_>]) -> Result<(), AllocError> {
        let mut is_first = true;
        for labelled in reports {
            if let Some(number) = self.number_in(labelled.report) {
                if is_first {
                    self.push_head(text)?;
                }
                is_first = false;
                self.push_sample(text, labelled.origin, number)?;
            }
        }
        Ok(())
    }
}

/// Adds the line of a counter in use whose value is known.
fn push_counter(
    text: &mut String,
    origin: Option<Origin<'_>>,
    row: &[Cell],
) -> Result<(), AllocError> {
    let [
        Cell::Unsigned(id),
        Cell::State(State::InUse),
        Cell::Signed(type_id),
        Cell::Signed(value),
        _,
        Cell::Unsigned(owner),
        _,
        Cell::Text(label),
        ..
    ] = row
    else {
        return Ok(());
    };
    text.push_str("felter_counter{")?;
    if let Some(origin) = origin {
        origin.push_labels(text)?;
        text.push(',')?;
    }
    write!(text, "id=\"{id}\",type=\"{type_id}\",label=\"")?;
    push_escaped(text, label.as_str())?;
    writeln!(text, "\",owner=\"{owner}\"}} {value}")
}

/// Adds the lines of the counters in use, for all reports of counters.
fn push_counters(text: &mut String, reports: &[Labelled<'_>]) -> Result<(), AllocError> {
    text.push_str(
        "\
# HELP felter_counter The value of a counter in use, by its id, its type id, its label and its owner.
# TYPE felter_counter gauge
",
    )?;
    for labelled in reports {
        for row in labelled.report.rows.iter() {
            if labelled.report.kind == "counters" {
                push_counter(text, labelled.origin, row.as_slice())?;
            }
        }
    }
    Ok(())
}

/// Writes reports in the text format of Prometheus, which has each metric only once. The metrics are the positions of
/// rings and of broadcast buffers, the counters in use that are listed, and the number of findings of each report.
pub fn to_prometheus(alloc: Global, reports: &[Labelled<'_>]) -> Result<String, AllocError> {
    let mut text = String::new(alloc);
    if reports.iter().any(|it| it.report.kind == "counters") {
        push_counters(&mut text, reports)?;
    }
    for metric in METRICS.iter() {
        metric.push_all(&mut text, reports)?;
    }
    Ok(text)
}
