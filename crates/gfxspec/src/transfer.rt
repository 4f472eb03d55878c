//! All bytes of a source, and all bytes into a sink.

ghost use Rattle.std.specs.Prelude.{◌≡◌, ◌+◌, ◌<◌, ◌^◌, ◌++◌, length, take, IfOk, IfErr, OnOk, OnErr, IsErrOf};

use crate::device::{Broken, Sink, Source};
use std::alloc::Allocator;
use thiserror::Error;

/// Why a source could not be read to its end.
#[derive(Clone, Copy, Debug, PartialEq, Eq, Error)]
pub enum GatherError {
    #[error("the source failed")]
    Read,
    #[error("out of memory")]
    Memory,
}

/// How many bytes are asked for at a time.
const PIECE: usize = 32_768;

/// All bytes of a source, to its end.
// Apart: who reads a script should not keep room for a piece on the stack while the script is drawn.
#[inline(never)]
pub fn gather<S: Source, A: Allocator>(alloc: A, source: &mut S) -> Result<Vec<u8, A>, GatherError>
    requires { S.failures source.old < 2 ^ 63 }
    ensures all { S.tells source.old → IfOk result (λ v. v.items ≡ S.rest source.old) }
    ensures read { IsErrOf result GatherError.Read → S.failures source.new ≡ S.failures source.old + 1 }
    ensures memory { IsErrOf result GatherError.Memory → S.failures source.new ≡ S.failures source.old }
    ensures sound { OnOk result (S.failures source.new ≡ S.failures source.old) }
{
    let mut bytes = Vec::new(alloc);
    let mut piece = [0; PIECE];
    loop {
        let Ok(count) = source.get(&mut piece) else {
            return Err(GatherError::Read);
        };
        if count == 0 {
            return Ok(bytes);
        }
        if bytes.extend_from_slice(&piece[..count]).is_err() {
            return Err(GatherError::Memory);
        }
    }
}

/// Writes all bytes, or answers how many the sink had taken when it failed.
pub fn put_all<W: Sink>(sink: &mut W, bytes: &[u8]) -> Result<(), usize>
    requires { W.failures sink.old < 2 ^ 63 }
    ensures all { W.tells sink.old → OnOk result (W.written sink.new ≡ W.written sink.old ++ bytes.now) }
    ensures taken { W.tells sink.old → IfErr result (λ n. W.written sink.new ≡ W.written sink.old ++ take n bytes.now) }
    ensures count { IfErr result (λ n. n < length bytes.now) }
    ensures told { W.tells sink.old → W.tells sink.new }
    ensures sound { OnOk result (W.failures sink.new ≡ W.failures sink.old) }
    ensures failed { OnErr result (W.failures sink.new ≡ W.failures sink.old + 1) }
{
    let mut taken = 0;
    while taken < bytes.len() {
        match sink.put(&bytes[taken..]) {
            Ok(count) => taken += count,
            Err(Broken) => return Err(taken),
        }
    }
    Ok(())
}
