//! A session over memory, as far as to what there is to copy.

ghost use Rattle.std.specs.Prelude.{IfSome};
ghost use Rattle.sessions.specs.Writing.{Writes};
ghost use Rattle.inmemory.specs.Areas.{output_of};

use crate::kept::Kept;
use crate::script::Script;
use sessions::{Ended, session_alone};
use std::alloc::Allocator;

/// What a session wrote, and how it ended.
#[derive(Drop)]
pub(crate) struct Played<A: Allocator> {
    pub(crate) lines: Vec<u8, A>,
    pub(crate) image: Vec<u8, A>,
    pub(crate) ended: Ended,
}

/// Runs a script on the caller's thread and keeps what it writes, or nothing where memory for that is refused.
pub(crate) fn play<A: Allocator + Copy + Send>(alloc: A, script: &[u8]) -> Option<Played<A>>
    ensures { IfSome result (λ p. Writes script.now (output_of p.lines.items p.image.items p.ended)) }
{
    let mut reader = Script::new(script);
    let mut lines = Kept::new(alloc);
    let mut image = Kept::new(alloc);
    match session_alone(alloc, &mut reader, &mut image, &mut lines) {
        Ok(ended) => Some(Played {
            lines: lines.bytes,
            image: image.bytes,
            ended,
        }),
        Err(_) => None,
    }
}
