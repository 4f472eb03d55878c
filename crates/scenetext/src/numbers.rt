//! Arguments that are numbers.

ghost use Rattle.std.specs.Prelude.{◌≡◌, ◌≢◌, ◌<◌, ◌≤◌, ◌++◌, ◌∷◌, ℕ, ℤ, pos, length, map, decimal, IfOk, IfErr, IfSome, IfNone, OnOk, Err, [], true, false};
ghost use Rattle.std.specs.Fmt.{signed_decimal};
ghost use Rattle.states.specs.DepthStencil.{face_setting};
ghost use Rattle.scenetext.specs.Numbers.{NonZero, fits_kind, fit, i32s, is_context, context_word};
ghost use Rattle.scenetext.specs.Commands.{face_ranges, ranges, vertex_kinds, face_numbers, vertex_words, IsVertex};
ghost use Rattle.scenetext.specs.Faults.{word};
ghost use Rattle.scenetext.specs.Ranges.{kinds, AreIn};

use crate::argument::next_argument;
use crate::fault::{Fault, ReadError};
use crate::verbs::CommandWord;
use crate::words::{Words, context};
use gfxspec::Vertex;
use states::Face;

/// The number, which may be negative, that the next word spells.
#[inline(always)]
pub(crate) fn next_integer(words: &mut Words) -> Result<i32, ReadError>
    requires { 0 < length words.old }
    ensures ok { IfOk result (λ z. words.old ≡ signed_decimal z ∷ words.new) }
    ensures err { IfErr result (λ e. (e ≡ ReadError.Fault Fault.Argument) × (fits_kind i32s (word words.old 0) ≡ false)) }
{
    words
        .next_integer()
        .ok_or(ReadError::Fault(Fault::Argument))
}

/// The number other than 0, which may be negative, that the next word spells.
#[tactic(auto, using(crate::proofs::NumberLemmas::zero_fails, crate::proofs::NumberLemmas::integer_fails))]
pub(crate) fn next_nonzero(words: &mut Words) -> Result<i32, ReadError>
    requires { 0 < length words.old }
    ensures ok { IfOk result (λ z. (words.old ≡ signed_decimal z ∷ words.new) × (z ≢ pos 0)) }
    ensures err { IfErr result (λ e. (e ≡ ReadError.Fault Fault.Argument) × (fits_kind NonZero (word words.old 0) ≡ false)) }
{
    match next_integer(words)? {
        0 => Err(ReadError::Fault(Fault::Argument)),
        number => Ok(number),
    }
}

/// Tests how many arguments there are.
pub(crate) fn expect(words: &Words, count: usize) -> Result<(), ReadError>
    ensures ok { OnOk result (length words.now ≡ count) }
    ensures err { IfErr result (λ e. (e ≡ ReadError.Fault Fault.ArgumentCount) × (length words.now ≢ count)) }
{
    if words.count() == count {
        Ok(())
    } else {
        Err(ReadError::Fault(Fault::ArgumentCount))
    }
}

/// The context that the next word names.
pub(crate) fn next_context(words: &mut Words) -> Result<u32, ReadError>
    requires { 0 < length words.old }
    ensures ok { IfOk result (λ k. (words.old ≡ context_word k ∷ words.new) × (k < 8)) }
    ensures err { IfErr result (λ e. (e ≡ ReadError.Fault Fault.Argument) × (is_context (word words.old 0) ≡ false)) }
{
    match words.next().and_then(context) {
        Some(number) => Ok(number),
        None => Err(ReadError::Fault(Fault::Argument)),
    }
}

/// The colour that the next four words spell.
pub(crate) fn next_color(words: &mut Words) -> Result<[u8; 4], ReadError>
    requires { 4 ≤ length words.old }
    ensures ok { IfOk result (λ rgba. (words.old ≡ map decimal rgba ++ words.new) × AreIn (ranges CommandWord.Clearc) rgba) }
    ensures err { IfErr result (λ e. (e ≡ ReadError.Fault Fault.Argument) × (fit (kinds (ranges CommandWord.Clearc)) words.old ≡ false)) }
{
    let red = next_argument(words)?;
    let green = next_argument(words)?;
    let blue = next_argument(words)?;
    let alpha = next_argument(words)?;
    Ok([red, green, blue, alpha])
}

/// The vertex that the next seven words spell.
pub(crate) fn next_vertex(words: &mut Words) -> Result<Vertex, ReadError>
    requires { 7 ≤ length words.old }
    ensures ok { IfOk result (λ v. (words.old ≡ vertex_words v ++ words.new) × IsVertex v) }
    ensures err { IfErr result (λ e. (e ≡ ReadError.Fault Fault.Argument) × (fit vertex_kinds words.old ≡ false)) }
{
    Ok(Vertex {
        x: next_integer(words)?,
        y: next_integer(words)?,
        z: next_argument(words)?,
        rgba: next_color(words)?,
    })
}

/// The operations and the comparison of a face that the next four words spell.
pub(crate) fn next_face(words: &mut Words) -> Result<Face, ReadError>
    requires { 4 ≤ length words.old }
    ensures ok { IfOk result (λ face. (words.old ≡ map decimal (face_numbers (face_setting face)) ++ words.new) × AreIn face_ranges (face_numbers (face_setting face))) }
    ensures err { IfErr result (λ e. (e ≡ ReadError.Fault Fault.Argument) × (fit (kinds face_ranges) words.old ≡ false)) }
{
    Ok(Face {
        fail: next_argument(words)?,
        depth_fail: next_argument(words)?,
        pass: next_argument(words)?,
        func: next_argument(words)?,
    })
}
