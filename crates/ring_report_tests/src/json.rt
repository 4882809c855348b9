//! A ring as JSON.
use crate::snapshots::shows;
use crate::words::change;
use ring_report::{Bodies, Report, View};

static WHOLE: View = View {
    from: None,
    bodies: Bodies::Text,
    limit: None,
    width: 64,
};

/// The words of a ring of 128 bytes with the record `hello` of type 7 and a tail of 32. After the record is a length of
/// 5.
fn wrong_words() -> [u64; 112] {
    let mut words = [0; 112];
    let hello = u64::from_le_bytes(*b"hello\0\0\0");
    // The tail is word 16 of the trailer.
    change(
        &mut words,
        &[
            (0, 0x0000_0007_0000_000d),
            (1, hello),
            (2, 5),
            (16 + 16, 32),
        ],
    );
    words
}

#[test]
fn shows_a_ring(rt: HostRuntime) {
    let report = Report::of_ring(rt.alloc(), &wrong_words(), WHOLE).expect(&rt, "memory");
    shows(
        &rt,
        report.to_json(rt.alloc(), None),
        r#"{
  "blocked_at": null,
  "blocked_ms": null,
  "capacity": 128,
  "correlation": 0,
  "counts": {
    "aborted_or_padding": 0,
    "committed": 1,
    "open": 0
  },
  "findings": [
    "BadLength at 16: length 5"
  ],
  "free": 96,
  "head": 0,
  "head_cache": 0,
  "heartbeat": 0,
  "kind": "ring",
  "open_length": null,
  "open_type": null,
  "records": [
    {
      "body": "hello",
      "index": 0,
      "length": 13,
      "place": 0,
      "state": "committed",
      "type": 7
    }
  ],
  "settled": true,
  "stops_at": null,
  "tail": 32,
  "unlisted": 0
}
"#,
    );
}
