//! A source over std's readers.

use crate::device::{Broken, Source};
use std::io::{ErrorKind, Read};

/// A source over one of std's readers. It keeps count of its failures, and tells its bytes where the reader does.
#[derive(Drop)]
pub struct FromRead<R> {
    reader: R,
    failures: u64,
}

impl<R: Read> FromRead<R> {
    ghost use Rattle.std.specs.Prelude.{◌≡◌};

    /// A source that has not failed yet.
    pub fn new(reader: R) -> Self
        ensures reader { result.reader ≡ reader }
        ensures failures { result.failures ≡ 0 }
    {
        FromRead {
            reader,
            failures: 0,
        }
    }

    /// How often it failed.
    pub fn failures(&self) -> u64
        ensures { result ≡ self.now.failures }
    {
        self.failures
    }
}

impl<R: Read> Source for FromRead<R> {
    ghost use Rattle.std.specs.Prelude.{ℕ, [], IsSome, unwrap_or};

    ghost tells = { λ s. IsSome (R.remaining s.reader) };

    ghost rest = { λ s. unwrap_or (R.remaining s.reader) [] };

    ghost failures = { λ s. s.failures };

    fn get(&mut self, piece: &mut [u8]) -> Result<usize, Broken> {
        for _ in 0..u64::MAX {
            match self.reader.read(piece) {
                Ok(count) => return Ok(count),
                Err(error) => {
                    if error.kind() != ErrorKind::Interrupted {
                        break;
                    }
                }
            }
        }
        self.failures += 1;
        Err(Broken)
    }
}
