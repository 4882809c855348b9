//! Commands as a client sends them, and replies as a listener receives them.
ghost use Rattle.std.specs.Prelude.{◌≡◌};
ghost use Rattle.ring_rings.specs.Seats.{all_shares, shares_of, IsProducerOf};
ghost use Rattle.ring_board.specs.Seats.{IsReceiverOf};

use ring_board::{Board, Copied, CopyReceiver, Lapped};
use ring_rings::{Bodies, Kind, Producer, Ring};
use ring_service::{Command, Reply, Work, WorkStop, decode_reply, encode_command};

/// Sends a command, and tests whether there was room for it.
fn send_one<K: Kind, B: Bodies>(
    ring: &Ring<K, B>,
    producer: &mut Producer,
    command: &Command<'_>,
) -> bool
    requires producer { IsProducerOf ring.now producer.old }
    requires sole { shares_of producer.old ≡ all_shares }
    ensures producer { IsProducerOf ring.now producer.new }
    ensures sole { shares_of producer.new ≡ all_shares }
{
    let mut bytes = [0; 64];
    let len = encode_command(command, &mut bytes).unwrap_or(0);
    let body = bytes.get(..len).unwrap_or(&[]);
    ring.try_write(producer, command.type_id(), body).is_ok()
}

/// Sends commands, and tests whether there was room for all.
pub fn send<K: Kind, B: Bodies>(
    ring: &Ring<K, B>,
    producer: &mut Producer,
    commands: &[Command],
) -> bool
    requires producer { IsProducerOf ring.now producer.old }
    requires sole { shares_of producer.old ≡ all_shares }
    ensures producer { IsProducerOf ring.now producer.new }
    ensures sole { shares_of producer.new ≡ all_shares }
{
    let mut all = true;
    for command in commands {
        all = send_one(ring, producer, command) && all;
    }
    all
}

/// What was copied, read as a reply with its place.
fn reply_of(copied: Result<Option<Copied>, Lapped>) -> Option<(u64, Reply)> {
    match copied {
        Ok(Some(copied)) => match decode_reply(copied.type_id, copied.body) {
            Ok(reply) => Some((copied.place, reply)),
            Err(_bad) => None,
        },
        Ok(None) => None,
        Err(_lapped) => None,
    }
}

/// The next reply, with its place.
fn next_reply(board: &Board, receiver: &mut CopyReceiver) -> Option<(u64, Reply)>
    requires { IsReceiverOf board.now receiver.old }
    ensures { IsReceiverOf board.now receiver.new }
{
    reply_of(receiver.receive(board))
}

/// Tests whether these are the next replies, with their places, and no more follow.
pub fn receives(board: &Board, receiver: &mut CopyReceiver, replies: &[(u64, Reply)]) -> bool
    requires { IsReceiverOf board.now receiver.old }
    ensures { IsReceiverOf board.now receiver.new }
{
    let mut all = true;
    for (place, reply) in replies {
        all = next_reply(board, receiver) == Some((*place, *reply)) && all;
    }
    all && next_reply(board, receiver).is_none()
}

/// How work ends.
pub fn work(messages: u64, stopped: WorkStop) -> Work {
    Work { messages, stopped }
}
