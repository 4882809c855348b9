//! What a client sends, and what it receives.
ghost use Rattle.ring_board.specs.Seats.{IsTransmitterOf};

use crate::calls::Plays;
use crate::compare::same;
use crate::conductor::talk::Call::{Poll, Send, SendAs, Work};
use crate::conductor::talk::Said::{Full, Id, Sent, TooLong};
use crate::conductor::talk::{Call, Said, Talk, plays};
use ring_board::{Board, Lapped, Transmitter};
use ring_rings::{Kind, ManyToOne, ManyToOneRing, OneToOne};
use ring_service::Polled::{Another, Answered, Nothing};
use ring_service::{Client, Command, Polled, Reply, Request, WorkStop, encode_command};
use std::alloc::Global;
use std::process::Abort;

static ASKED: [(Call<'static>, Said); 14] = [
    (Poll(0), Said::Polled(Nothing)),
    (
        Send(Request::Allocate {
            type_id: 5,
            key: &[],
            label: &[],
        }),
        Id(0),
    ),
    (
        Send(Request::AllocateOwned {
            type_id: 1,
            owner: 9,
            key: &[7],
            label: &[b'c'],
        }),
        Id(1),
    ),
    (Send(Request::Set { id: 0, value: -3 }), Id(2)),
    (Send(Request::Close { owner: 9 }), Id(3)),
    (Send(Request::Free { id: 1 }), Id(4)),
    (Work(9), Said::Worked(5, WorkStop::Unpublished)),
    (
        Poll(0),
        Said::Polled(Answered(Reply::Allocated {
            correlation: 0,
            id: 0,
        })),
    ),
    (
        Poll(0),
        Said::Polled(Another(Reply::Allocated {
            correlation: 1,
            id: 1,
        })),
    ),
    (
        Poll(2),
        Said::Polled(Answered(Reply::Done { correlation: 2 })),
    ),
    (
        Poll(3),
        Said::Polled(Answered(Reply::Closed {
            correlation: 3,
            freed: 1,
        })),
    ),
    (
        Poll(4),
        Said::Polled(Answered(Reply::Refused {
            correlation: 4,
            code: 21,
        })),
    ),
    (Poll(4), Said::Polled(Nothing)),
    (Call::Value(0), Said::Value(Ok(-3))),
];

/// How many commands a conductor received of which these calls were made.
fn received<K: Kind>(rt: &impl Abort, alloc: Global, calls: &[(Call<'_>, Said)]) -> u64 {
    let mut talk = Talk::<K>::new(rt, alloc, 1024, 256);
    talk.plays(rt, calls);
    talk.finish().expect(rt, "an end").received
}

#[test]
fn each_request_is_the_command_with_the_drawn_id(rt: HostRuntime) {
    same(&rt, received::<ManyToOne>(&rt, rt.alloc(), &ASKED), 5);
    same(&rt, received::<OneToOne>(&rt, rt.alloc(), &ASKED), 5);
}

/// A command to set, whose record takes 32 bytes of the ring.
const SET: Request<&'static [u8]> = Request::Set { id: 0, value: 1 };

const FULL: Said = Full(8, 256, 0);

/// The ring is full at the ninth command.
static AGAIN: [(Call<'static>, Said); 25] = [
    (Send(SET), Id(0)),
    (Send(SET), Id(1)),
    (Send(SET), Id(2)),
    (Send(SET), Id(3)),
    (Send(SET), Id(4)),
    (Send(SET), Id(5)),
    (Send(SET), Id(6)),
    (Send(SET), Id(7)),
    (Send(SET), FULL),
    (SendAs(8, SET), FULL),
    (Work(1), Said::Worked(1, WorkStop::Limit)),
    (SendAs(8, SET), Sent),
    (Work(9), Said::Worked(7, WorkStop::Block)),
    (Work(9), Said::Worked(1, WorkStop::Unpublished)),
    (
        Poll(8),
        Said::Polled(Another(Reply::Refused {
            correlation: 0,
            code: 21,
        })),
    ),
    (
        Poll(8),
        Said::Polled(Another(Reply::Refused {
            correlation: 1,
            code: 21,
        })),
    ),
    (
        Poll(8),
        Said::Polled(Another(Reply::Refused {
            correlation: 2,
            code: 21,
        })),
    ),
    (
        Poll(8),
        Said::Polled(Another(Reply::Refused {
            correlation: 3,
            code: 21,
        })),
    ),
    (
        Poll(8),
        Said::Polled(Another(Reply::Refused {
            correlation: 4,
            code: 21,
        })),
    ),
    (
        Poll(8),
        Said::Polled(Another(Reply::Refused {
            correlation: 5,
            code: 21,
        })),
    ),
    (
        Poll(8),
        Said::Polled(Another(Reply::Refused {
            correlation: 6,
            code: 21,
        })),
    ),
    (
        Poll(8),
        Said::Polled(Another(Reply::Refused {
            correlation: 7,
            code: 21,
        })),
    ),
    (
        Poll(8),
        Said::Polled(Answered(Reply::Refused {
            correlation: 8,
            code: 21,
        })),
    ),
    (Poll(8), Said::Polled(Nothing)),
    (Call::NextId, Id(9)),
];

#[test]
fn a_refused_command_can_be_sent_again_with_its_id(rt: HostRuntime) {
    plays::<ManyToOne>(&rt, rt.alloc(), (256, 1024), &AGAIN);
    plays::<OneToOne>(&rt, rt.alloc(), (256, 1024), &AGAIN);
}

/// A heartbeat is the last that was stored, and neither a command nor a reply changes it.
static BEATS: [(Call<'static>, Said); 8] = [
    (Call::Heartbeat, Said::Heartbeat(0)),
    (Call::Beat(7), Said::Beaten),
    (Call::Heartbeat, Said::Heartbeat(7)),
    (Send(SET), Id(0)),
    (Work(9), Said::Worked(1, WorkStop::Unpublished)),
    (Call::Heartbeat, Said::Heartbeat(7)),
    (Call::Beat(u64::MAX), Said::Beaten),
    (Call::Heartbeat, Said::Heartbeat(u64::MAX)),
];

#[test]
fn a_client_loads_the_last_heartbeat(rt: HostRuntime) {
    plays::<ManyToOne>(&rt, rt.alloc(), (256, 256), &BEATS);
}

const TOO_LONG: Request<&'static [u8]> = Request::AllocateOwned {
    type_id: 1,
    owner: 9,
    key: &[1; 112],
    label: &[b'l'; 381],
};

const LONGEST: Request<&'static [u8]> = Request::AllocateOwned {
    type_id: 1,
    owner: 9,
    key: &[1; 112],
    label: &[b'l'; 380],
};

static LONG: [(Call<'static>, Said); 5] = [
    (Send(TOO_LONG), TooLong),
    (SendAs(7, TOO_LONG), TooLong),
    (Send(LONGEST), Id(0)),
    (Work(9), Said::Worked(1, WorkStop::Unpublished)),
    (
        Poll(0),
        Said::Polled(Answered(Reply::Allocated {
            correlation: 0,
            id: 0,
        })),
    ),
];

#[test]
fn no_id_is_drawn_for_a_command_that_is_too_long(rt: HostRuntime) {
    plays::<ManyToOne>(&rt, rt.alloc(), (8192, 256), &LONG);
}

const FREE: Request<&'static [u8]> = Request::Free { id: 0 };

/// A refusal takes 24 bytes of the board.
static LAPPED: [(Call<'static>, Said); 15] = [
    (Send(FREE), Id(0)),
    (Send(FREE), Id(1)),
    (Send(FREE), Id(2)),
    (Send(FREE), Id(3)),
    (Send(FREE), Id(4)),
    (Send(FREE), Id(5)),
    (Send(FREE), Id(6)),
    (Send(FREE), Id(7)),
    (Send(FREE), Id(8)),
    (Send(FREE), Id(9)),
    (Send(FREE), Id(10)),
    (Work(20), Said::Worked(11, WorkStop::Unpublished)),
    (
        Poll(0),
        Said::Polled(Polled::Lapped(Lapped {
            count: 1,
            place: 0,
            intent: 280,
        })),
    ),
    (
        Poll(0),
        Said::Polled(Another(Reply::Refused {
            correlation: 10,
            code: 21,
        })),
    ),
    (Poll(0), Said::Polled(Nothing)),
];

#[test]
fn a_client_is_told_that_it_was_lapped(rt: HostRuntime) {
    plays::<ManyToOne>(&rt, rt.alloc(), (1024, 256), &LAPPED);
}

/// Transmits a command with the type id of a reply, and then that reply.
fn transmits(rt: &impl Abort, board: &Board, transmitter: &mut Transmitter)
    requires { IsTransmitterOf board.now transmitter.old }
{
    let mut body = [0; 16];
    let free = Command::Free {
        correlation: 3,
        id: 1,
    };
    same(rt, encode_command(&free, &mut body), Some(12));
    let sent = [
        board.transmit(transmitter, 102, &body[..12]),
        board.transmit(transmitter, 102, &body[..8]),
    ];
    same(rt, sent, [Ok(()), Ok(())]);
}

#[test]
fn what_is_no_reply_is_told_apart(rt: HostRuntime) {
    let (_ring, producer, _consumer) = ManyToOneRing::new(rt.alloc(), 1024).expect(&rt, "a ring");
    let (board, mut transmitter) = Board::new(rt.alloc(), 256).expect(&rt, "a board");
    let receiver = board
        .subscribe(rt.alloc(), &mut transmitter)
        .expect(&rt, "a receiver");
    transmits(&rt, &board, &mut transmitter);
    let mut client = Client::new(producer, receiver);
    let polled = [client.poll(&board, 3), client.poll(&board, 3)];
    let done = Reply::Done { correlation: 3 };
    same(&rt, polled, [Polled::NoReply, Polled::Answered(done)]);
}
