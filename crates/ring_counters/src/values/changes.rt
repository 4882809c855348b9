//! Calls that change a value and return the value before the change.
ghost use Rattle.std.specs.Prelude.{◌≡◌, pos, negsuc, true, false, IfOk, OnOk, OnErr};
ghost use Rattle.ring_counters.specs.{Available.has_value, Registry.answer, Registry.value_at, Registry.value_plus};
ghost use Rattle.ring_counters.specs.Manager.{refusal_at, registry_of, shares_of, IsManagerOf, SetsValue};

use crate::fault::IdFault;
use crate::manager::CountersManager;
use crate::values::seats::CounterValues;

impl CountersManager {
    /// Adds 1 to the value of a counter in use, and returns the value before the addition. The call makes one `set`.
    ///
    /// The value 2^63 - 1 wraps to -2^63. The errors are those of `set`. After an error nothing has changed.
    pub fn increment(&mut self, values: &CounterValues, id: u32) -> Result<i64, IdFault>
        requires { IsManagerOf values.now self.old }
        ensures before { result ≡ answer (refusal_at self.old id) (value_at (registry_of self.old) id) }
        ensures sets { OnOk result (SetsValue id (value_plus (registry_of self.old) id (pos 1)) self.old self.new) }
        ensures shares { shares_of self.new ≡ shares_of self.old }
        ensures values { IsManagerOf values.now self.new }
        ensures err { OnErr result (self.new ≡ self.old) }
    {
        self.add(values, id, 1)
    }

    /// Subtracts 1 from the value of a counter in use, and returns the value before the subtraction. The call makes one
    /// `set`.
    ///
    /// The value -2^63 wraps to 2^63 - 1. The errors are those of `set`. After an error nothing has changed.
    pub fn decrement(&mut self, values: &CounterValues, id: u32) -> Result<i64, IdFault>
        requires { IsManagerOf values.now self.old }
        ensures before { result ≡ answer (refusal_at self.old id) (value_at (registry_of self.old) id) }
        ensures sets { OnOk result (SetsValue id (value_plus (registry_of self.old) id (negsuc 0)) self.old self.new) }
        ensures shares { shares_of self.new ≡ shares_of self.old }
        ensures values { IsManagerOf values.now self.new }
        ensures err { OnErr result (self.new ≡ self.old) }
    {
        self.add(values, id, -1)
    }

    /// Sets the value of a counter in use, and returns the value that it had before. The call makes one `set`.
    ///
    /// The errors are those of `set`. After an error nothing has changed.
    pub fn get_and_set(
        &mut self,
        values: &CounterValues,
        id: u32,
        value: i64,
    ) -> Result<i64, IdFault>
        requires { IsManagerOf values.now self.old }
        ensures before { result ≡ answer (refusal_at self.old id) (value_at (registry_of self.old) id) }
        ensures sets { OnOk result (SetsValue id value self.old self.new) }
        ensures shares { shares_of self.new ≡ shares_of self.old }
        ensures values { IsManagerOf values.now self.new }
        ensures err { OnErr result (self.new ≡ self.old) }
    {
        let before = self.value(id)?;
        self.set(values, id, value)?;
        Ok(before)
    }

    /// Sets the value of a counter in use if the value before is `expected`. Returns whether the value was set. The
    /// call makes one `set`, or does nothing.
    ///
    /// The errors are those of `set`. After an error nothing has changed.
    pub fn compare_and_set(
        &mut self,
        values: &CounterValues,
        id: u32,
        expected: i64,
        value: i64,
    ) -> Result<bool, IdFault>
        requires { IsManagerOf values.now self.old }
        ensures was { result ≡ answer (refusal_at self.old id) (has_value (registry_of self.old) id expected) }
        ensures sets { IfOk result (λ was. was ≡ true → SetsValue id value self.old self.new) }
        ensures kept { IfOk result (λ was. was ≡ false → self.new ≡ self.old) }
        ensures shares { shares_of self.new ≡ shares_of self.old }
        ensures values { IsManagerOf values.now self.new }
        ensures err { OnErr result (self.new ≡ self.old) }
    {
        let is_expected = self.value(id)? == expected;
        if is_expected {
            self.set(values, id, value)?;
        }
        Ok(is_expected)
    }
}
