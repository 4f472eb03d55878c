//! A script that lies in memory.

use gfxspec::{Broken, Source};

/// The bytes of a script that are left. Reading them never fails.
#[derive(Drop)]
pub(crate) struct Script<'a> {
    left: &'a [u8],
}

impl<'a> Script<'a> {
    ghost use Rattle.std.specs.Prelude.{◌≡◌};

    /// All bytes of a script.
    pub(crate) fn new(bytes: &'a [u8]) -> Self
        ensures { result.left.now ≡ bytes.now }
    {
        Script { left: bytes }
    }
}

impl<'a> Source for Script<'a> {
    ghost tells = { λ _. Unit {0} };

    ghost rest = { λ s. s.left.now };

    ghost failures = { λ _. 0 };

    fn get(&mut self, piece: &mut [u8]) -> Result<usize, Broken> {
        let count = piece.len().min(self.left.len());
        let (front, rest) = self.left.split_at(count);
        piece[..count].copy_from_slice(front);
        self.left = rest;
        Ok(count)
    }
}
