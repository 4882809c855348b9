//! The calls that take memory.
use super::failure::{Failure, where_kept};
use ring_board::Board;
use ring_conductor::{Conductor, OpenGate, StormPlan, finish, storm};
use ring_counters::CountersManager;
use ring_rings::{ManyToOneRing, OneToOneRing};
use ring_words::SoloRing;
use std::alloc::Global;
use std::sync::Wait;
use std::thread::Threads;

pub fn many_to_one(alloc: Global) -> Result<(), Failure> {
    let (_ring, _producer, _consumer) = ManyToOneRing::new(alloc, 128)?;
    Ok(())
}

pub fn one_to_one(alloc: Global) -> Result<(), Failure> {
    let (_ring, _producer, _consumer) = OneToOneRing::new(alloc, 128)?;
    Ok(())
}

pub fn solo(alloc: Global) -> Result<(), Failure> {
    let _ring = SoloRing::new(alloc, 128)?;
    Ok(())
}

pub fn new_board(alloc: Global) -> Result<(), Failure> {
    let (_board, _transmitter) = Board::new(alloc, 256)?;
    Ok(())
}

/// After a refusal the transmitter has the shares that it had.
pub fn subscribe(alloc: Global) -> Result<(), Failure> {
    let (board, mut transmitter) = Board::new(alloc, 256)?;
    let before = transmitter.shares();
    let answer = match board.subscribe(alloc, &mut transmitter) {
        Ok(receiver) => {
            board.join(&mut transmitter, receiver);
            Ok(())
        }
        Err(fault) => Err(fault),
    };
    where_kept(answer, transmitter.shares() == before)
}

pub fn counters(alloc: Global) -> Result<(), Failure> {
    let (_values, _counters) = CountersManager::new(alloc, 4, 50)?;
    Ok(())
}

/// After a refusal the counters are as they were.
pub fn live(alloc: Global) -> Result<(), Failure> {
    let (values, mut counters) = CountersManager::new(alloc, 4, 50)?;
    let id = counters
        .allocate(&values, 0, 5, &[1], b"label", 9)
        .map_err(|_| Failure::Wrong)?;
    counters.set(&values, id, 7).map_err(|_| Failure::Wrong)?;
    let answer = match counters.live(alloc) {
        Ok(infos) if infos.len() == 1 => Ok(()),
        Ok(_) => Err(Failure::Wrong),
        Err(_) => Err(Failure::Refused),
    };
    where_kept(answer, counters.value(id) == Ok(7))
}

/// After a refusal the conductor finishes, which it would not with a share elsewhere.
pub fn conductor_subscribe(alloc: Global) -> Result<(), Failure> {
    let (ring, producer, consumer) = ManyToOneRing::new(alloc, 1024)?;
    let (board, transmitter) = Board::new(alloc, 256)?;
    let (values, counters) = CountersManager::new(alloc, 4, 50)?;
    let mut conductor = Conductor::new(consumer, transmitter, counters);
    let answer = match conductor.subscribe(alloc, &board) {
        Ok(receiver) => {
            conductor.join_receiver(&board, receiver);
            Ok(())
        }
        Err(fault) => Err(fault),
    };
    let is_finished = finish(ring, board, values, conductor, producer).is_ok();
    where_kept(answer, is_finished)
}

/// A storm of two clients with three commands each.
pub fn storm_of_two<R: Threads + Wait>(rt: &R, alloc: Global) -> Result<(), Failure> {
    let plan = StormPlan {
        clients: 2,
        commands: 3,
        ring: 256,
        turns: 50_000_000,
    };
    let report = storm(rt, alloc, &plan, &OpenGate)?;
    if report.received == 6 && report.live == 2 && report.sum == 6 {
        Ok(())
    } else {
        Err(Failure::Wrong)
    }
}
