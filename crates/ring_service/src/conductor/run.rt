//! The conductor's work in several cycles.

ghost use Rattle.std.specs.Prelude.{◌≡◌, ◌^◌, ◌≤◌, All};
ghost use Rattle.ring_board.specs.Board.{heard_by, transmitted};
ghost use Rattle.ring_service.specs.{declared.conductor.WorkStop.TheVariants.Limit, Running.Runs};
ghost use Rattle.ring_layout.specs.Lists.{Begins};
ghost use Rattle.ring_service.specs.Conducting.{IsConductorOf, ledger_of, ring_view, transmitter_of, value_shares_of};

use crate::conductor::{Conductor, Cycle, Work, WorkStop};
use ring_board::Board;
use ring_counters::CounterValues;
use ring_rings::CommandSource;

impl Conductor {
    /// Calls `do_work` for each cycle, up to a cycle that reaches the end of the broadcast buffer. Returns the sum of
    /// the messages and the last stop, or 0 and `Limit` if there is no cycle.
    pub fn run<R: CommandSource>(
        &mut self,
        ring: &R,
        board: &Board,
        values: &CounterValues,
        cycles: &[Cycle],
    ) -> Work
        requires conductor { IsConductorOf R.is_consumer ring.now board.now values.now self.old }
        requires moments { All (λ cycle. cycle.now ≤ 2 ^ 62) cycles.now }
        ensures conductor { IsConductorOf R.is_consumer ring.now board.now values.now self.new }
        ensures runs { Runs cycles.now Limit (ring_view self.old) (ring_view self.new)
            (ledger_of self.old) (ledger_of self.new) result }
        ensures grows { Begins (transmitted (transmitter_of self.old)) (transmitted (transmitter_of self.new)) }
        ensures heard { heard_by (transmitter_of self.new) ≡ heard_by (transmitter_of self.old) }
        ensures value_shares { value_shares_of self.new ≡ value_shares_of self.old }
    {
        let mut messages = 0;
        let mut stopped = WorkStop::Limit;
        for cycle in cycles {
            let work = self.do_work(ring, board, values, cycle.now, cycle.limit);
            messages += work.messages;
            stopped = work.stopped;
            if let WorkStop::BoardEnd = work.stopped {
                return Work { messages, stopped };
            }
        }
        Work { messages, stopped }
    }
}
