//! The words of a line, and the numbers that they spell.

ghost use Rattle.std.specs.Prelude.{◌==◌, position, false, ◌≡◌, ◌≢◌, ◌∷◌, ◌<◌, ◌≤◌, ◌^◌, ℕ, ℤ, length, decimal, slice_index, IsTrue, IfSome, IfNone, FitsSigned};
ghost use Rattle.std.specs.Int.{w32};
ghost use Rattle.std.specs.Fmt.{signed_decimal};
ghost use Rattle.scenetext.specs.Numbers.{is_context, context_word};
ghost use Rattle.scenetext.specs.Faults.{word};
ghost use Rattle.scenetext.specs.Reading.{first_length, first_word, LeadsWith};

use crate::text::FormedLine;
use std::marker::Model;

/// How many digits stand at the front of a line, and their number. The count ends at ten, since no number of 32 bits has more.
#[inline(always)]
fn leading_digits(line: &[u8]) -> (usize, u64)
    ensures { LeadsWith line.now result.0 result.1 }
{
    let most = line.len().min(10);
    let mut value = 0;
    for i in 0..most {
        let byte = line[i];
        if !byte.is_ascii_digit() {
            return (i, value);
        }
        value = value * 10 + u64::from(byte - b'0');
    }
    (most, value)
}

/// Whether a word is as long as a number of 32 bits may be, with no zero before another byte.
fn may_be_decimal(word: &[u8]) -> bool
    ensures yes { IsTrue result → (0 < length word.now) × (length word.now ≤ 10) × (slice_index word.now 0 ≡ 48 → length word.now ≡ 1) }
    ensures no { result ≡ false → (n : ℕ) → n < 2 ^ 32 → word.now ≢ decimal n }
{
    match word {
        [] | [b'0', _, ..] => false,
        _ => word.len() <= 10,
    }
}

/// Whether a word that goes on to this place ends there.
fn ends_word(line: &[u8], at: usize) -> bool
    requires { at ≤ length line.now }
    ensures yes { IsTrue result → at < length line.now → slice_index line.now at ≡ 32 }
    ensures no { result ≡ false → (at < length line.now) × (slice_index line.now at ≢ 32) }
{
    at == line.len() || line[at] == b' '
}

/// The number that the first word of a line spells in plain decimal, and how long the word is.
fn natural(line: &[u8]) -> Option<(u32, usize)>
    ensures spelled { IfSome result (λ found. (first_word line.now ≡ decimal found.0) × (first_length line.now ≡ found.1)) }
    ensures none { IfNone result ((n : ℕ) → n < 2 ^ 32 → first_word line.now ≢ decimal n) }
{
    let (count, value) = leading_digits(line);
    if !ends_word(line, count) {
        return None;
    }
    if !may_be_decimal(&line[..count]) {
        return None;
    }
    let number = u32::try_from(value).ok()?;
    Some((number, count))
}

/// A number below zero, from its digits.
fn negative(number: u32) -> Option<i32>
    ensures some { IfSome result (λ z. signed_decimal z ≡ 45 ∷ decimal number) }
    ensures none { IfNone result ((z : ℤ) → FitsSigned w32 z → signed_decimal z ≢ 45 ∷ decimal number) }
{
    if number == 0 {
        return None;
    }
    i32::try_from(-i64::from(number)).ok()
}

/// What stands behind a minus at the front of a line.
fn behind_minus(line: &[u8]) -> Option<&[u8]>
    ensures some { IfSome result (λ digits. line.now ≡ 45 ∷ digits.now) }
    ensures none { IfNone result (slice_index line.now 0 ≢ 45) }
{
    match line {
        [b'-', digits @ ..] => Some(digits),
        _ => None,
    }
}

/// The number, which may be negative, that the first word of a line spells in plain decimal, and how long the word is.
fn integer(line: &[u8]) -> Option<(i32, usize)>
    ensures spelled { IfSome result (λ found. (first_word line.now ≡ signed_decimal found.0) × (first_length line.now ≡ found.1)) }
    ensures none { IfNone result ((z : ℤ) → FitsSigned w32 z → first_word line.now ≢ signed_decimal z) }
{
    match behind_minus(line) {
        Some(digits) => {
            let (number, count) = natural(digits)?;
            Some((negative(number)?, count + 1))
        }
        None => {
            let (number, count) = natural(line)?;
            Some((i32::try_from(number).ok()?, count))
        }
    }
}

fn space_at(line: &[u8]) -> Option<usize>
    ensures { result ≡ position (λ b. b == 32) line.now }
{
    line.iter().position(|b| *b == b' ')
}

fn first_length(line: &[u8]) -> usize
    ensures { result ≡ first_length line.now }
{
    match space_at(line) {
        Some(count) => count,
        None => line.len(),
    }
}

/// The words of a line that are not taken yet, in order.
#[derive(Drop)]
pub struct Words<'a> {
    rest: Option<&'a [u8]>,
    count: usize,
}

impl<'a> Model for Words<'a> {
    ghost use Rattle.std.specs.Prelude.{ℕ, List, [], ◌≡◌, length, option_copied};
    ghost use Rattle.std.specs.Option.{option_map_or};
    ghost use Rattle.scenetext.specs.Text.{words_of};

    ghost Value = { List (List ℕ) };

    ghost view = { λ w. option_map_or words_of (option_copied w.rest) [] };

    ghost invariant = { λ w. w.count ≡ length (option_map_or words_of (option_copied w.rest) []) };
}

impl<'a> Words<'a> {
    ghost use Rattle.std.specs.Prelude.{◌≡◌, ◌∷◌, [], length, IfSome, IfNone};
    ghost use Rattle.scenetext.specs.Text.{words_of};

    /// All words of a line.
    pub(crate) fn new(line: FormedLine<'a>) -> Self
        ensures { result ≡ words_of line.entry.bytes.now }
    {
        Words {
            rest: Some(line.bytes),
            count: line.spaces + 1,
        }
    }

    /// How many words are left.
    pub(crate) fn count(&self) -> usize
        ensures { result ≡ length self.now }
    {
        self.count
    }

    /// Leaves the first word of what is left, which is so long.
    fn skip(&mut self, rest: &'a [u8], count: usize)
        requires rest { self.old ≡ words_of rest.now }
        requires count { first_length rest.now ≡ count }
        ensures { self.old ≡ first_word rest.now ∷ self.new }
    {
        self.rest = if count < rest.len() {
            Some(&rest[count + 1..])
        } else {
            None
        };
        self.count -= 1;
    }

    /// The next word.
    pub(crate) fn next(&mut self) -> Option<&'a [u8]>
        ensures some { IfSome result (λ word. self.old ≡ word.now ∷ self.new) }
        ensures none { IfNone result (self.old ≡ []) }
    {
        let rest = self.rest?;
        let count = first_length(rest);
        self.skip(rest, count);
        Some(&rest[..count])
    }

    /// The number that the next word spells in plain decimal.
    pub(crate) fn next_natural(&mut self) -> Option<u32>
        ensures some { IfSome result (λ n. self.old ≡ decimal n ∷ self.new) }
        ensures none { IfNone result ((n : ℕ) → n < 2 ^ 32 → word self.old 0 ≢ decimal n) }
    {
        let rest = self.rest?;
        let (number, count) = natural(rest)?;
        self.skip(rest, count);
        Some(number)
    }

    /// The number, which may be negative, that the next word spells in plain decimal.
    pub(crate) fn next_integer(&mut self) -> Option<i32>
        ensures some { IfSome result (λ z. self.old ≡ signed_decimal z ∷ self.new) }
        ensures none { IfNone result ((z : ℤ) → FitsSigned w32 z → word self.old 0 ≢ signed_decimal z) }
    {
        let rest = self.rest?;
        let (number, count) = integer(rest)?;
        self.skip(rest, count);
        Some(number)
    }
}

/// The context that a word names, `d0` to `d7`.
pub(crate) fn context(word: &[u8]) -> Option<u32>
    ensures some { IfSome result (λ k. (word.now ≡ context_word k) × (k < 8)) }
    ensures none { IfNone result (is_context word.now ≡ false) }
{
    match word {
        [b'd', digit @ b'0'..=b'7'] => Some((*digit - b'0') as u32),
        _ => None,
    }
}
