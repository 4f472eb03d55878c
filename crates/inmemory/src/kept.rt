//! Bytes that are kept in memory.

use gfxspec::{Broken, Sink};
use std::alloc::Allocator;

/// Keeps all bytes that it is given. It fails where memory is refused.
#[derive(Drop)]
pub(crate) struct Kept<A: Allocator> {
    pub(crate) bytes: Vec<u8, A>,
    failures: u64,
}

impl<A: Allocator> Kept<A> {
    ghost use Rattle.std.specs.Prelude.{◌≡◌, []};

    /// No byte.
    pub(crate) fn new(alloc: A) -> Self
        ensures bytes { result.bytes.items ≡ [] }
        ensures failures { result.failures ≡ 0 }
    {
        Kept {
            bytes: Vec::new(alloc),
            failures: 0,
        }
    }
}

impl<A: Allocator> Sink for Kept<A> {
    ghost tells = { λ _. Unit {0} };

    ghost written = { λ s. s.bytes.items };

    ghost failures = { λ s. s.failures };

    fn put(&mut self, piece: &[u8]) -> Result<usize, Broken> {
        if self.bytes.extend_from_slice(piece).is_err() {
            self.failures += 1;
            return Err(Broken);
        }
        Ok(piece.len())
    }
}
