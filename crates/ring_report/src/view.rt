//! The options of a report.

/// The form in which the bytes of messages, keys and labels are shown.
#[derive(Clone, Copy, Debug, PartialEq, Eq)]
pub enum Bodies {
    /// Bytes are shown as hexadecimal digits, with `-` for no bytes.
    Hex,
    /// Bytes are shown as ASCII, with a dot for each byte that is not printable.
    Text,
    /// Bytes are not shown, and the column is left out.
    None,
}

/// The options of a report.
#[derive(Clone, Copy, Debug)]
pub struct View {
    /// The position from which on records are listed, or for counters the id. If there is none, a ring is listed from
    /// its head, a broadcast buffer from its current lap, and counters from the first id.
    pub from: Option<u64>,
    /// The form in which bytes are shown. Labels are always shown as text.
    pub bodies: Bodies,
    /// The largest number of records or counters that are listed. All of them are counted.
    pub limit: Option<u64>,
    /// The largest number of pieces in which a buffer is drawn, which is up to 512. A piece has at least 8 bytes.
    pub width: u32,
}
