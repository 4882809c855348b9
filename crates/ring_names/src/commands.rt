//! `ring_conductor`: commands and replies, and the conductor.

use ring_conductor::{Command, Reply};
use std::alloc::Global;

/// What became of a command and a reply that were encoded and decoded, and of what cannot be decoded.
#[derive(Debug, Drop)]
pub struct Coded {
    types: [i32; 6],
    lens: ([Option<usize>; 3], [usize; 3]),
    same: [bool; 2],
    bad: Option<ring_conductor::Bad>,
}

/// A command and a reply are encoded and decoded.
pub fn codec() -> Coded {
    let allocate = Command::Allocate {
        correlation: 3,
        type_id: 4,
        key: b"key",
        label: b"label",
    };
    let free = Command::Free {
        correlation: 5,
        id: 6,
    };
    let command: Command<'_> = Command::Set {
        correlation: 1,
        id: 2,
        value: -3,
    };
    let mut bytes = [0; 64];
    let lens = [
        ring_conductor::encode_command(&allocate, &mut bytes),
        ring_conductor::encode_command(&free, &mut bytes),
        ring_conductor::encode_command(&command, &mut bytes),
    ];
    let decoded = ring_conductor::decode_command(command.type_id(), &bytes[..20]);
    let reply = Reply::Done { correlation: 1 };
    let allocated = Reply::Allocated {
        correlation: 1,
        id: 2,
    };
    let refused = Reply::Refused {
        correlation: 1,
        code: 20,
    };
    let mut spelled = [0; 12];
    let reply_lens = [
        ring_conductor::encode_reply(&allocated, &mut spelled),
        ring_conductor::encode_reply(&refused, &mut spelled),
        ring_conductor::encode_reply(&reply, &mut spelled),
    ];
    let heard = ring_conductor::decode_reply(reply.type_id(), &spelled[..8]);
    Coded {
        types: [
            allocate.type_id(),
            free.type_id(),
            command.type_id(),
            allocated.type_id(),
            reply.type_id(),
            refused.type_id(),
        ],
        lens: (lens, reply_lens),
        same: [decoded == Ok(command), heard == Ok(reply)],
        bad: ring_conductor::decode_command(99, &[]).err(),
    }
}

/// What came of a conductor's work.
#[derive(Debug, Drop)]
pub struct Came {
    work: ring_conductor::Work,
    runs: ring_conductor::Work,
    counters: u32,
    refused: i32,
    received: u64,
    rest: ring_rings::Positions,
    intent: u64,
    count: u32,
    stopped: ring_conductor::WorkStop,
}

/// A conductor takes two commands that cannot be decoded, refuses to finish while a receiver is out, and finishes.
pub fn conductor(alloc: Global) -> anyhow::Result<Option<Came>> {
    let (values, counters) = ring_counters::CountersManager::new(alloc, 4, 50)?;
    let (board, transmitter) = ring_board::Board::new(alloc, 256)?;
    let (ring, mut producer, consumer) = ring_rings::OneToOneRing::new(alloc, 256)?;
    let mut conductor = ring_conductor::Conductor::new(consumer, transmitter, counters);
    let receiver = conductor.subscribe(alloc, &board)?;
    ring.write(&mut producer, 1, b"no command")?;
    let work = conductor.do_work(&ring, &board, &values, 0, 9);
    ring.write(&mut producer, 99, b"")?;
    let cycles = [ring_conductor::Cycle { now: 1, limit: 9 }];
    let runs = conductor.run(&ring, &board, &values, &cycles);
    let counters = conductor.counters().count();
    let ended = ring_conductor::finish(ring, board, values, conductor, producer);
    let refused: ring_conductor::FinishRefused<ring_rings::OneToOneRing> = match ended {
        Ok(_finished) => return Ok(None),
        Err(refused) => refused,
    };
    let reason: ring_conductor::FinishFault = refused.reason;
    let ring_conductor::FinishRefused {
        reason: _,
        ring,
        board,
        values,
        mut conductor,
        producer,
    } = refused;
    conductor.join_receiver(&board, receiver);
    let finished: ring_conductor::Finished = match ring_conductor::finish(
        ring, board, values, conductor, producer,
    ) {
        Ok(finished) => finished,
        Err(_refused) => return Ok(None),
    };
    Ok(Some(Came {
        work,
        runs,
        counters,
        refused: reason.code(),
        received: finished.received,
        rest: finished.rest.positions(),
        intent: finished.board.intent(),
        count: finished.counters.count(),
        stopped: work.stopped,
    }))
}
