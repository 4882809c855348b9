//! What calls of handles have in common.
ghost use Rattle.ring_c.specs.Told.{ClosesHeld};

use ring_handles::Held;

/// Works on what a handle holds, if it is of this kind, and returns the code of that. An empty handle returns 100, and
/// one of another kind 101.
macro_rules! work_on {
    ($handle:ident, $alloc:ident, $kind:ident($side:ident) => $work:expr) => {
        match $handle.take($alloc) {
            Some(mut held) => {
                let code = match &mut *held {
                    ring_handles::Held::$kind($side) => $work,
                    _ => ring_handles::code::WRONG_HANDLE,
                };
                $handle.put(held);
                code
            }
            None => ring_handles::code::NO_HANDLE,
        }
    };
}

/// Makes something of what a handle holds, if it is of this kind, for another handle, which is empty, and returns the
/// code. The room for it is taken first, so that nothing is made if memory runs out.
macro_rules! make_for {
    ($handle:ident, $alloc:ident, $kind:ident($side:ident) => $make:expr, $other:ident, $made:ident) => {
        match $handle.take($alloc) {
            Some(mut held) => {
                let code = match ring_handles::room($alloc) {
                    Ok(room) => {
                        let made = match &mut *held {
                            ring_handles::Held::$kind($side) => match $make {
                                Ok(made) => Ok(ring_handles::Held::$made(made)),
                                Err(code) => Err(code),
                            },
                            _ => Err(ring_handles::code::WRONG_HANDLE),
                        };
                        $other.settle(room, made)
                    }
                    Err(code) => code,
                };
                $handle.put(held);
                code
            }
            None => ring_handles::code::NO_HANDLE,
        }
    };
}

/// Fills an empty handle by `make_for`, and gives the code: 102 for one in use, for which nothing is made.
macro_rules! make_into {
    ($handle:ident, $alloc:ident, $kind:ident($side:ident) => $make:expr, $other:ident, $made:ident) => {
        if $other.is_empty($alloc) {
            $crate::work_on::make_for!($handle, $alloc, $kind($side) => $make, $other, $made)
        } else {
            ring_handles::code::HANDLE_IN_USE
        }
    };
}

/// Takes what another handle holds in, if both are of these kinds, empties that handle, and returns the code. What is
/// not taken in comes back into its room.
macro_rules! join_into {
    ($handle:ident, $other:ident, $alloc:ident, $kind:ident($side:ident), $second:ident($joining:ident) => $join:expr) => {
        match $handle.take($alloc) {
            Some(mut held) => match $other.take($alloc) {
                Some(mut room) => {
                    let second = std::mem::replace(&mut *room, ring_handles::Held::Vacant);
                    let code = match &mut *held {
                        ring_handles::Held::$kind($side) => match second {
                            ring_handles::Held::$second($joining) => match $join {
                                Ok(()) => {
                                    $other.fill(room, None);
                                    ring_handles::code::DONE
                                }
                                Err((code, back)) => {
                                    $other.refill(room, ring_handles::Held::$second(back));
                                    code
                                }
                            },
                            back => {
                                $other.refill(room, back);
                                ring_handles::code::WRONG_HANDLE
                            }
                        },
                        _ => {
                            $other.refill(room, second);
                            ring_handles::code::WRONG_HANDLE
                        }
                    };
                    $handle.put(held);
                    code
                }
                None => {
                    $handle.put(held);
                    ring_handles::code::NO_HANDLE
                }
            },
            None => ring_handles::code::NO_HANDLE,
        }
    };
}

/// Ends what a handle holds, if it is of this kind, writes what is reported of the end, empties the handle, and returns
/// the code. What does not end comes back into its room.
macro_rules! end_with {
    ($handle:ident, $alloc:ident, $kind:ident($side:ident) => $end:expr, $told:ident => $out:expr) => {
        match $handle.take($alloc) {
            Some(mut room) => {
                let held = std::mem::replace(&mut *room, ring_handles::Held::Vacant);
                match held {
                    ring_handles::Held::$kind($side) => match $end {
                        Ok($told) => {
                            $out;
                            $handle.fill(room, None);
                            ring_handles::code::DONE
                        }
                        Err((code, back)) => {
                            $handle.refill(room, ring_handles::Held::$kind(back));
                            code
                        }
                    },
                    back => {
                        $handle.refill(room, back);
                        ring_handles::code::WRONG_HANDLE
                    }
                }
            }
            None => ring_handles::code::NO_HANDLE,
        }
    };
}

/// Fills an empty handle with what is made, and gives the code: 102 for one in use, for which nothing is made.
macro_rules! fill {
    ($handle:ident, $alloc:ident, $make:expr) => {
        if $handle.is_empty($alloc) {
            match $make {
                Ok(made) => {
                    $handle.put(made);
                    ring_handles::code::DONE
                }
                Err(code) => code,
            }
        } else {
            ring_handles::code::HANDLE_IN_USE
        }
    };
}

/// Fills two empty handles with the two that are made, and gives the code as `fill` does.
macro_rules! fill_both {
    ($first:ident, $second:ident, $alloc:ident, $make:expr) => {
        if $first.is_empty($alloc) && $second.is_empty($alloc) {
            match $make {
                Ok((one, two)) => {
                    $first.put(one);
                    $second.put(two);
                    ring_handles::code::DONE
                }
                Err(code) => code,
            }
        } else {
            ring_handles::code::HANDLE_IN_USE
        }
    };
}

pub(crate) use end_with;
pub(crate) use fill;
pub(crate) use fill_both;
pub(crate) use join_into;
pub(crate) use make_for;
pub(crate) use make_into;
pub(crate) use work_on;

/// Returns what is dropped of what a handle owned: the same, but every open claim of a producer is aborted, so that the
/// consumer skips it. `felter_free` calls this. No clause can say it of a handle that is empty afterwards, so a test does.
pub(crate) fn settled(mut held: Box<Held>) -> Box<Held>
    ensures { ClosesHeld held.value result.value }
{
    if let Held::Producer(side) = &mut *held {
        side.abort_open();
    }
    held
}
