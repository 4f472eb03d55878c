//! The colour that is written: a logic operation on the bits of a source and of what is stored, under a channel mask.
//!
//! A colour is four bytes, red, green, blue, alpha; packed it is a `u32` with red in the low byte. With the source
//! known, each of the sixteen operations under any mask is `(stored & keep) ^ flip`: the choice of the operation is
//! made once for a source, and each stored colour then costs two instructions.
#![tactic(auto)]

mod color_write;

ghost use Rattle.std.specs.Prelude.{◌≡◌, true};
ghost use Rattle.gfxspec.specs.Color.{written_color};
ghost use Rattle.states.specs.ColorMask.{mask_bits};

pub use color_write::ColorWrite;
use gfxspec::LogicOp;
use states::{BlendState, ColorMask};

/// The operation on a source and a stored colour, in the channels of the mask
/// (Direct3D 11.3 Functional Specification, "Output Merger Stage", logic operations).
#[inline]
pub fn apply(op: LogicOp, mask: ColorMask, s: [u8; 4], d: [u8; 4]) -> [u8; 4]
    ensures { result ≡ written_color (record { logic = true; op = op; mask = mask_bits mask }) s d }
{
    ColorWrite::of(op, mask, u32::from_le_bytes(s))
        .onto(u32::from_le_bytes(d))
        .to_le_bytes()
}

/// What a blend state writes of a source colour over a stored one.
#[inline]
pub fn write(state: &BlendState, s: [u8; 4], d: [u8; 4]) -> [u8; 4]
    ensures { result ≡ written_color state.now s d }
{
    ColorWrite::of_state(state, u32::from_le_bytes(s))
        .onto(u32::from_le_bytes(d))
        .to_le_bytes()
}
