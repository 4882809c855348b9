//! A reader of the values of counters.
ghost use Rattle.std.specs.Prelude.{◌≡◌, false, true, IfSome, IsSome, None};
ghost use Rattle.ring_counters.specs.Seats.{IsReaderOf};
ghost use Rattle.ring_ends.specs.Counters.{Loads};

use crate::lending::Lender;
use ring_counters::{BadId, CounterValues, ValueReader};
use std::marker::Model;

/// A reader, with the values that it reads. They are those of counters, or of a conductor's.
#[derive(Drop)]
pub struct ReaderEnd {
    pub(crate) values: Lender<CounterValues>,
    pub(crate) reader: ValueReader,
}

impl Model for ReaderEnd {
    ghost use Rattle.ring_counters.specs.Seats.{IsReaderOf};
    ghost use Rattle.ring_ends.specs.{Counters.SeatedReader, Lending.conductor_of, Lending.values_in};

    ghost Value = { SeatedReader };

    ghost view = { λ e. record {
      values = values_in e.values;
      lender = conductor_of e.values;
      reader = e.reader;
    } };

    ghost invariant = { λ e. IsReaderOf (values_in e.values) e.reader };
}

impl ReaderEnd {
    /// Loads the value of an id, by one step. The value is 0 if the id was never used, and the last value if its
    /// counter was freed. Returns `BadId` if the id is not below the number of counters.
    pub fn load(&mut self, id: u32) -> Result<i64, BadId>
        ensures { Loads id self.old result self.new }
    {
        self.values.values().load(&mut self.reader, id)
    }

    /// Returns the reader without its values.
    pub(crate) fn into_reader(self) -> ValueReader
        ensures reader { result ≡ self.reader }
        ensures lent { IfSome self.lender (λ shared. IsReaderOf shared.values result) }
    {
        let ReaderEnd { values: _, reader } = self;
        reader
    }

    /// Tests whether a conductor lends the values.
    pub fn is_lent(&self) -> bool
        ensures own { result ≡ false → self.now.lender ≡ None }
        ensures lent { result ≡ true → IsSome self.now.lender }
    {
        match &self.values {
            Lender::Own(_) => false,
            Lender::Lent(_) => true,
        }
    }
}
