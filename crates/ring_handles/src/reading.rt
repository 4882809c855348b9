//! What readers of counters' values do.
ghost use Rattle.std.specs.Prelude.{◌≡◌, IfErr, IfOk, OnOk};
ghost use Rattle.ring_handles.specs.Lending.{WhyNotLent, Lends, SaysValue};
ghost use Rattle.ring_handles.specs.Returning.{IsOfOthers, IsOfThese, TakesLoads};

use crate::code::{BAD_ID, DONE, NO_SHARES, OTHER_RING, OUT_OF_MEMORY};
use crate::counters::{CountersSide, ReaderSide};
use ring_ends::SplitFault;

impl CountersSide {
    /// Makes a reader of the values.
    pub fn reader(&mut self) -> Result<ReaderSide, i32>
        ensures lent { IfOk result (Lends self.old self.new) }
        ensures refused { IfErr result (λ code. (self.new ≡ self.old) × WhyNotLent self.old code) }
    {
        match self.end.reader() {
            Ok(end) => Ok(ReaderSide {
                end,
                identity: self.identity,
            }),
            Err(SplitFault::OneShare) => Err(NO_SHARES),
            Err(SplitFault::OutOfMemory) => Err(OUT_OF_MEMORY),
        }
    }

    /// Takes a reader of the values back, with its share. Otherwise it comes back.
    pub fn join(&mut self, reader: ReaderSide) -> Result<(), (i32, ReaderSide)>
        requires { IsOfThese self.old reader }
        ensures joined { OnOk result (TakesLoads self.old reader self.new) }
        ensures refused { IfErr result (λ r. (self.new ≡ self.old) × (r.1 ≡ reader) × IsOfOthers self.old reader r.0) }
    {
        if reader.end.is_lent() || !self.identity.is(reader.identity) {
            return Err((OTHER_RING, reader));
        }
        let ReaderSide { end, identity: _ } = reader;
        self.end.join(end);
        Ok(())
    }
}

impl ReaderSide {
    /// Loads a value.
    pub fn load(&mut self, id: u32, value: &mut i64) -> i32
        ensures { SaysValue id value.old value.new self.old self.new result }
    {
        match self.end.load(id) {
            Ok(loaded) => {
                *value = loaded;
                DONE
            }
            Err(_) => BAD_ID,
        }
    }
}
