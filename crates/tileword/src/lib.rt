//! The words of a tile's program, as 32-bit numbers.
//!
//! From the high bit: two bits of kind (0 a state, 1 a triangle, 2 a colour clear, 3 a depth-stencil clear), eleven
//! zeroes, three bits that name edges, sixteen bits of operand. Only a triangle names edges. A number has at most one
//! word and a word one number, so programs may be compared as numbers.
#![tactic(auto)]

mod edge_mask;
mod word;

pub use edge_mask::EdgeMask;
pub use word::{Word, decode, encode};
