//! What was transmitted.

ghost use Rattle.std.specs.Prelude.{◌≡◌, ◌++◌, [], ◌∷◌, IfOk, OnOk};
ghost use Rattle.ring_judge.specs.Broadcast.{transmitted_in};

use crate::broadcast::BroadcastLine;
use std::alloc::{AllocError, Global};

/// The checksums of the messages that were transmitted, in order.
pub fn bodies_of(alloc: Global, run: &[BroadcastLine]) -> Result<Vec<u64>, AllocError>
    ensures { IfOk result (λ bodies. bodies.items ≡ transmitted_in run.now) }
{
    let mut bodies = Vec::new(alloc);
    for line in run {
        append_body(&mut bodies, line)?;
    }
    Ok(bodies)
}

/// Appends the checksum of the message that a line says was transmitted.
fn append_body(bodies: &mut Vec<u64>, line: &BroadcastLine) -> Result<(), AllocError>
    ensures { OnOk result (bodies.new.items ≡ bodies.old.items ++ transmitted_in (line.now ∷ [])) }
{
    match line {
        BroadcastLine::Transmitted(body) => {
            bodies.push(*body)?;
            Ok(())
        }
        BroadcastLine::Receiver(_, _) | BroadcastLine::Blank => Ok(()),
    }
}
