//! Writes of one source colour, made once and then applied to any stored colour.

ghost use Rattle.std.specs.Prelude.{◌≡◌, true, bit_and, bit_xor};
ghost use Rattle.states.specs.ColorMask.{mask_bits};
ghost use Rattle.logicop.specs.Outcome.{outcome, channel_word};

use gfxspec::LogicOp;
use states::{BlendState, ColorMask};

/// What a write of one packed colour makes of any stored packed colour: `(stored & keep) ^ flip`.
#[derive(Clone, Copy, Debug, PartialEq, Eq)]
pub struct ColorWrite {
    pub keep: u32,
    pub flip: u32,
}

/// What an operation gives in each bit where 0 is stored, and where 1 is stored.
#[inline]
fn outcomes(op: LogicOp, source: u32) -> (u32, u32)
    ensures clear { result.0 ≡ outcome op 0 source }
    ensures set { result.1 ≡ outcome op 1 source }
{
    let all = u32::MAX;
    let other = u32::MAX - source;
    match op {
        LogicOp::Clear => (0, 0),
        LogicOp::Set => (all, all),
        LogicOp::Copy => (source, source),
        LogicOp::CopyInverted => (other, other),
        LogicOp::Noop => (0, all),
        LogicOp::Invert => (all, 0),
        LogicOp::And => (0, source),
        LogicOp::Nand => (all, other),
        LogicOp::Or => (source, all),
        LogicOp::Nor => (other, 0),
        LogicOp::Xor => (source, other),
        LogicOp::Equiv => (other, source),
        LogicOp::AndReverse => (source, 0),
        LogicOp::AndInverted => (0, other),
        LogicOp::OrReverse => (all, source),
        LogicOp::OrInverted => (other, all),
    }
}

/// All bits of the channels of a mask.
#[inline]
fn channel_bits(mask: ColorMask) -> u32
    ensures { result ≡ channel_word mask }
{
    u32::from_le_bytes([
        255 * u8::from(mask.red),
        255 * u8::from(mask.green),
        255 * u8::from(mask.blue),
        255 * u8::from(mask.alpha),
    ])
}

impl ColorWrite {
    ghost use Rattle.logicop.specs.Packed.{Writes};

    /// The operation with a packed source, in the channels of a mask.
    #[inline]
    pub fn of(op: LogicOp, mask: ColorMask, source: u32) -> Self
        ensures { Writes result (record { logic = true; op = op; mask = mask_bits mask }) source }
    {
        let (clear, set) = outcomes(op, source);
        let channels = channel_bits(mask);
        ColorWrite {
            keep: (clear ^ set) | (u32::MAX - channels),
            flip: clear & channels,
        }
    }

    /// What a blend state does with a packed source.
    #[inline]
    pub fn of_state(state: &BlendState, source: u32) -> Self
        ensures { Writes result state.now source }
    {
        let op = if state.logic() {
            state.op()
        } else {
            LogicOp::Copy
        };
        ColorWrite::of(op, state.mask(), source)
    }

    /// The packed colour that it leaves of a stored one.
    #[inline]
    pub fn onto(self, stored: u32) -> u32
        ensures { result ≡ bit_xor (bit_and stored self.keep) self.flip }
    {
        (stored & self.keep) ^ self.flip
    }
}
