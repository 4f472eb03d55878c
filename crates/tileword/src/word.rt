//! Words and their numbers.

ghost use Rattle.std.specs.Prelude.{◌≡◌, ◌+◌, ◌≤◌, ◌<◌, ◌↔◌, Some, IfSome, IsNone};
ghost use Rattle.tileword.specs.Bits.{field, SetsZeroBit};
ghost use Rattle.tileword.specs.Word.{encoded, decoded};

use crate::edge_mask::EdgeMask;

/// A word of a tile's program.
#[derive(Clone, Copy, Debug, PartialEq, Eq)]
pub enum Word {
    /// The state entry of this number is in force from here on.
    State(u16),
    /// The triangle of this number is drawn; only these edges are still to be tested for cover.
    Tri(u16, EdgeMask),
    /// The colour is cleared to the value of this number.
    ClearC(u16),
    /// Depth and stencil are cleared to the values of this number.
    ClearDs(u16),
}

/// The number of a word.
#[inline]
pub fn encode(word: Word) -> u32
    ensures value { result ≡ encoded word }
    ensures back { decoded result ≡ Some word }
{
    match word {
        Word::State(number) => u32::from(number),
        Word::Tri(number, edges) => (1 << 30) + (u32::from(edges.bits()) << 16) + u32::from(number),
        Word::ClearC(number) => (2 << 30) + u32::from(number),
        Word::ClearDs(number) => (3 << 30) + u32::from(number),
    }
}

/// The word of a number, if there is one: none where a bit that must be zero is set.
#[inline]
pub fn decode(number: u32) -> Option<Word>
    ensures value { result ≡ decoded number }
    ensures some { IfSome result (λ word. encoded word ≡ number) }
    ensures none { IsNone result ↔ SetsZeroBit number }
{
    let operand = (number % (1 << 16)) as u16;
    let edges = bits_of(number, 16, 3) as u8;
    if bits_of(number, 19, 11) != 0 {
        return None;
    }
    match number >> 30 {
        1 => Some(Word::Tri(operand, EdgeMask::new(edges))),
        _ if edges != 0 => None,
        0 => Some(Word::State(operand)),
        2 => Some(Word::ClearC(operand)),
        _ => Some(Word::ClearDs(operand)),
    }
}

/// The bits of a number from a place on, so many of them.
#[inline]
fn bits_of(number: u32, low: u32, count: u32) -> u32
    requires { low + count < 32 }
    ensures { result ≡ field number low count }
{
    (number >> low) % (1 << count)
}
