//! How a call is answered.

ghost use Rattle.std.specs.Prelude.{◌≡◌};
ghost use Rattle.device_calls.specs.Answers.{answer_of};

use gfxspec::GfxError;

/// The answer where a description describes nothing.
pub(crate) const NOT_DESCRIBED: u32 = 32;

/// The number of OutOfMemory.
pub(crate) const NO_MEMORY: u32 = 1;

/// An answer as C reads it: 0, or the number of the refusal.
pub(crate) fn told(answer: Result<(), GfxError>) -> u32
    ensures { answer_of result ≡ answer }
{
    match answer {
        Ok(()) => 0,
        Err(refusal) => refusal.number(),
    }
}
