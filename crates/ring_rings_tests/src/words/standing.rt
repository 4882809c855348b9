//! Reads across the end of the buffer, and what a read without messages shows.
use crate::compare::same;
use crate::play::across::{BLOCKED, LIMITED, PADDED};
use crate::play::plays_alone;
use crate::script::end;
use ring_words::{Positions, Standing, Stop};

#[test]
fn reads_on_behind_the_end_of_the_buffer(rt: HostRuntime) {
    plays_alone(&rt, rt.alloc(), &PADDED);
}

#[test]
fn counts_the_messages_of_both_reads(rt: HostRuntime) {
    plays_alone(&rt, rt.alloc(), &LIMITED);
}

#[test]
fn a_read_tells_empty_from_blocked(rt: HostRuntime) {
    plays_alone(&rt, rt.alloc(), &BLOCKED);
}

#[test]
fn what_came_in_between_is_moving(rt: HostRuntime) {
    let quiet = end(0, 0, Stop::Unpublished);
    // Head and tail before the read, and after it.
    for (read, before, after, standing) in [
        (quiet, (8, 8), (8, 24), Standing::Moving),
        (quiet, (8, 24), (8, 24), Standing::Blocked { head: 8 }),
        (quiet, (8, 8), (8, 8), Standing::Empty),
        (quiet, (8, 24), (24, 24), Standing::Moving),
        (end(0, 0, Stop::Limit), (8, 24), (8, 24), Standing::Moving),
        (end(0, 16, Stop::Block), (8, 8), (24, 24), Standing::Moving),
    ] {
        let (before, after) = (at(before), at(after));
        same(&rt, read.standing(before, after), standing);
    }
}

fn at((head, tail): (u64, u64)) -> Positions {
    Positions { head, tail }
}
