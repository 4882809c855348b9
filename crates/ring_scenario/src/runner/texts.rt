//! The texts of the results of calls.
ghost use Rattle.std.specs.Prelude.{◌≡◌, ◌++◌, false, IfOk, string_bytes};
ghost use Rattle.ring_scenario.specs.{RefusalTexts.claim_refused, RefusalTexts.load_refused, ServiceTexts.value_text};
ghost use Rattle.ring_scenario.specs.Texts.{answer_text, claimed_text, done_text, number_text, ok_text, read_text, received_text, stop_text};

use super::Runner;
use crate::printer::{Printer, hex_word};
use crate::refusal::Refusal;
use crate::ring::Claimed;
use ring_counters::BadId;
use ring_ends::Received;
use ring_words::{ClaimFault, ReadEnd, Stop};
use std::alloc::AllocError;

impl Runner {
    pub(super) fn ok(&self) -> Result<String, AllocError>
        ensures { IfOk result (λ text. string_bytes text ≡ ok_text) }
    {
        String::from_str(self.alloc, "ok\n")
    }

    /// Returns the text of a call that returns no value.
    pub(super) fn done<F: Refusal>(&self, done: Result<(), F>) -> Result<String, AllocError>
        ensures { IfOk result (λ text. string_bytes text ≡ done_text F.line done) }
    {
        match done {
            Ok(()) => self.ok(),
            Err(fault) => fault.line(self.alloc),
        }
    }

    /// Returns the text of a call that returns the number of what it made.
    pub(super) fn numbered<F: Refusal>(
        &self,
        word: &str,
        made: Result<usize, F>,
    ) -> Result<String, AllocError>
        ensures { IfOk result (λ text. string_bytes text ≡ answer_text (number_text word.now) F.line made) }
    {
        match made {
            Ok(number) => format!(in self.alloc; "{word} {number}\n"),
            Err(fault) => fault.line(self.alloc),
        }
    }

    /// Returns the text of a call that returns an id.
    pub(super) fn identified<F: Refusal>(
        &self,
        word: &str,
        given: Result<u64, F>,
    ) -> Result<String, AllocError>
        ensures { IfOk result (λ text. string_bytes text ≡ answer_text (number_text word.now) F.line given) }
    {
        match given {
            Ok(id) => format!(in self.alloc; "{word} {id}\n"),
            Err(fault) => fault.line(self.alloc),
        }
    }

    /// Returns the text of a claim.
    pub(super) fn claimed(&self, tried: Result<Claimed, ClaimFault>) -> Result<String, AllocError>
        ensures { IfOk result (λ text. string_bytes text ≡ answer_text claimed_text claim_refused tried) }
    {
        match tried {
            Ok(Claimed { number, index }) => format!(in self.alloc;
                "claim {number} index {index}\n"
            ),
            Err(fault) => fault.line(self.alloc),
        }
    }

    /// Returns the text of a read, which is the lines of its messages and a last line.
    pub(super) fn read_text(&self, printer: Printer, end: ReadEnd) -> Result<String, AllocError>
        ensures { IfOk result (λ text. (printer.entry.wants_memory ≡ false)
            × (string_bytes text ≡ string_bytes printer.entry.text ++ read_text end)) }
    {
        let stop = stop_name(end.stopped);
        let last = format!(in self.alloc;
            "read {} bytes {} stopped {stop}\n",
            end.messages, end.bytes
        )?;
        let mut text = printer.into_text()?;
        text.push_str(last.as_str())?;
        Ok(text)
    }

    /// Returns the text of a receiver or a listener.
    pub(super) fn received(&self, received: Received) -> Result<String, AllocError>
        ensures { IfOk result (λ text. string_bytes text ≡ received_text received) }
    {
        match received {
            Received::Copy {
                place,
                type_id,
                body,
            } => {
                let digits = hex_word(self.alloc, body.as_slice())?;
                format!(in self.alloc; "copy {type_id} {digits} place {place}\n")
            }
            Received::Nothing => String::from_str(self.alloc, "none\n"),
            Received::Lapped(lapped) => format!(in self.alloc; "lapped {}\n", lapped.count),
        }
    }

    /// Returns the text of a watcher.
    pub(super) fn loaded(&self, loaded: Result<i64, BadId>) -> Result<String, AllocError>
        ensures { IfOk result (λ text. string_bytes text ≡ answer_text value_text load_refused loaded) }
    {
        match loaded {
            Ok(value) => format!(in self.alloc; "value {value}\n"),
            Err(fault) => fault.line(self.alloc),
        }
    }
}

fn stop_name(stop: Stop) -> &'static str
    ensures { result.now ≡ stop_text stop }
{
    match stop {
        Stop::Limit => "limit",
        Stop::Block => "block",
        Stop::Unpublished => "unpublished",
        Stop::Action => "action",
    }
}
