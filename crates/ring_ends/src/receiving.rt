//! Numbered receivers that ask for messages.
ghost use Rattle.std.specs.Prelude.{◌≡◌, IfNone, IfOk, IfSome};
ghost use Rattle.ring_ends.specs.Held.{IsFree, held_count, held_in};
ghost use Rattle.ring_ends.specs.Receivers.{AreReceivers, ReceivesAt};

use crate::numbered::Numbered;
use crate::received::Received;
use ring_board::{Board, CopyReceiver};
use std::alloc::{AllocError, Global};

/// Asks the receiver of this number for the next message, if it has not left.
pub fn receive_at(
    alloc: Global,
    board: &Board,
    receivers: &mut Numbered<CopyReceiver>,
    number: usize,
) -> Option<Result<Received, AllocError>>
    requires { AreReceivers board.now (held_in receivers.old) }
    ensures receivers { AreReceivers board.now (held_in receivers.new) }
    ensures told { IfSome result (λ answer. IfOk answer (λ told.
        ReceivesAt told receivers.old number receivers.new)) }
    ensures free { IfNone result (IsFree (held_in receivers.old) number) }
    ensures same { IfNone result (held_in receivers.new ≡ held_in receivers.old) }
    ensures count { held_count (held_in receivers.new) ≡ held_count (held_in receivers.old) }
{
    let mut receiver = receivers.take(number)?;
    let received = Received::of(alloc, board, &mut receiver);
    receivers.put_back(number, receiver);
    Some(received)
}
