//! Receivers of the conductor's replies, and readers of the counters' values.

ghost use Rattle.std.specs.Prelude.{◌≡◌, ◌+◌, ◌<◌, ◌↔◌, IfOk, IsOk, OnErr, OnOk};
ghost use Rattle.ring_board.specs.{Refusals.subscribe_refusal_of, Refusals.IsSubscribedUnless, Runs.AreRuns};
ghost use Rattle.ring_board.specs.{Board.copied, Board.subscribed_at, Board.transmitted, Views.fewer, Views.newcomer};
ghost use Rattle.ring_board.specs.Seats.{receiver_view, shares_of, IsReceiverOf, IsTransmitterOf};
ghost use Rattle.ring_counters.specs.{Agree.Agree, Manager.registry_of, Manager.writes_of, Manager.IsManagerOf};
ghost use Rattle.ring_counters.specs.Seats.{IsNewReaderOf, IsReaderOf, made_of, loads_of};
ghost use Rattle.ring_counters.specs.ValueWrites.{AreLoads};
ghost use Rattle.ring_service.specs.Conducting.{JoinsReceiver, KeepsAllCounters, KeepsTheRest};
ghost use Rattle.ring_service.specs.Conducting.{board_view, manager_in, transmitter_of, value_shares_of};

use crate::conductor::Conductor;
use ring_board::{Board, CopyReceiver, SubscribeFault};
use ring_counters::{CounterValues, NoShares, ValueReader};
use std::alloc::Global;

impl Conductor {
    /// Makes a receiver of the replies, which starts with the most recent reply. The receiver takes one share of the
    /// transmitter.
    ///
    /// Returns `NoShares` if the transmitter has only one share left, and otherwise `OutOfMemory` if there is no
    /// memory. After an error nothing has changed.
    pub fn subscribe(
        &mut self,
        alloc: Global,
        board: &Board,
    ) -> Result<CopyReceiver, SubscribeFault>
        requires { IsTransmitterOf board.now (transmitter_of self.old) }
        ensures board { IsTransmitterOf board.now (transmitter_of self.new) }
        ensures refused { IsSubscribedUnless (subscribe_refusal_of (shares_of (transmitter_of self.old))) result }
        ensures receiver { IfOk result (λ r. IsReceiverOf board.now r
            × (receiver_view r ≡ newcomer (board_view self.old))) }
        ensures fewer { OnOk result (board_view self.new ≡ fewer (board_view self.old)) }
        ensures others { KeepsTheRest self.old self.new }
        ensures err { OnErr result (self.new ≡ self.old) }
    {
        board.subscribe(alloc, &mut self.transmitter)
    }

    /// Takes a receiver back, with its share. The copies of the receiver are runs of the transmitted list.
    pub fn join_receiver(&mut self, board: &Board, receiver: CopyReceiver)
        requires transmitter { IsTransmitterOf board.now (transmitter_of self.old) }
        requires receiver { IsReceiverOf board.now receiver }
        ensures board { IsTransmitterOf board.now (transmitter_of self.new) }
        ensures runs { AreRuns (transmitted (transmitter_of self.old)) (subscribed_at receiver) (copied receiver) }
        ensures joined { JoinsReceiver receiver self.old self.new }
        ensures others { KeepsTheRest self.old self.new }
    {
        board.join(&mut self.transmitter, receiver);
    }

    /// Makes a reader of the counters' values, for another thread. The reader takes one share of the values.
    ///
    /// Returns `NoShares` if only one share is left. Nothing has then changed.
    pub fn value_reader(&mut self, values: &CounterValues) -> Result<ValueReader, NoShares>
        requires { IsManagerOf values.now (manager_in self.old) }
        ensures enough { IsOk result ↔ (1 < value_shares_of self.old) }
        ensures reader { IfOk result (IsNewReaderOf values.now (writes_of (manager_in self.old))) }
        ensures shares { OnOk result (value_shares_of self.new + 1 ≡ value_shares_of self.old) }
        ensures keeps { KeepsAllCounters values.now self.old self.new }
        ensures err { OnErr result (self.new ≡ self.old) }
    {
        self.counters.reader(values)
    }

    /// Takes a reader of the values back, with its share. Each value that the reader loaded is the counter's value
    /// after some prefix of the writes.
    pub fn join_value_reader(&mut self, values: &CounterValues, reader: ValueReader)
        requires counters { IsManagerOf values.now (manager_in self.old) }
        requires reader { IsReaderOf values.now reader }
        ensures loads { AreLoads (made_of reader) (loads_of reader) (writes_of (manager_in self.new)) }
        ensures agree { Agree (registry_of (manager_in self.new)) (writes_of (manager_in self.new)) }
        ensures shares { value_shares_of self.new ≡ value_shares_of self.old + 1 }
        ensures keeps { KeepsAllCounters values.now self.old self.new }
    {
        self.counters.join_reader(values, reader);
    }
}
