//! A sink over std's writers.

use crate::device::{Broken, Sink};
use std::io::{ErrorKind, Write};

/// A sink over one of std's writers. It keeps count of its failures, and tells its bytes where the writer does.
#[derive(Drop)]
pub struct ToWrite<W> {
    writer: W,
    failures: u64,
}

impl<W: Write> ToWrite<W> {
    ghost use Rattle.std.specs.Prelude.{◌≡◌};

    /// A sink that has not failed yet.
    pub fn new(writer: W) -> Self
        ensures writer { result.writer ≡ writer }
        ensures failures { result.failures ≡ 0 }
    {
        ToWrite {
            writer,
            failures: 0,
        }
    }

    /// How often it failed.
    pub fn failures(&self) -> u64
        ensures { result ≡ self.now.failures }
    {
        self.failures
    }
}

impl<W: Write> Sink for ToWrite<W> {
    ghost use Rattle.std.specs.Prelude.{ℕ, [], IsSome, unwrap_or};

    ghost tells = { λ s. IsSome (W.contents s.writer) };

    ghost written = { λ s. unwrap_or (W.contents s.writer) [] };

    ghost failures = { λ s. s.failures };

    /// A write that takes nothing of a piece that is not empty is a failure.
    fn put(&mut self, piece: &[u8]) -> Result<usize, Broken> {
        for _ in 0..u64::MAX {
            match self.writer.write(piece) {
                Ok(count) => {
                    if count > 0 || piece.is_empty() {
                        return Ok(count);
                    }
                    break;
                }
                Err(error) => {
                    if error.kind() != ErrorKind::Interrupted {
                        break;
                    }
                }
            }
        }
        self.failures += 1;
        Err(Broken)
    }
}
