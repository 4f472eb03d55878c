//! The blend state.

ghost use Rattle.std.specs.Prelude.{◌≡◌};
ghost use Rattle.states.specs.Blend.{blend_setting};
ghost use Rattle.states.specs.ColorMask.{mask_bits};

use crate::color_mask::ColorMask;
use gfxspec::LogicOp;
use std::marker::Model;

/// What a blend state is made of.
#[derive(Clone, Copy, Debug, PartialEq, Eq)]
pub struct BlendDesc {
    /// Whether the logic operation acts.
    pub logic: bool,
    /// The operation on the bits of the source and of what is stored.
    pub op: LogicOp,
    /// The channels that are written.
    pub mask: ColorMask,
}

/// A blend state (Direct3D 11.3 Functional Specification, "Output Merger Stage", logic operations and write mask).
#[derive(Clone, Copy, Debug, PartialEq, Eq)]
pub struct BlendState {
    desc: BlendDesc,
}

impl Model for BlendState {
    ghost use Rattle.gfxspec.specs.Color.{BlendSetting};
    ghost use Rattle.states.specs.Blend.{blend_setting, blend_desc, blend_desc-blend_setting};

    ghost Value = { BlendSetting };

    ghost view = { λ state. blend_setting state.desc };

    ghost inverse = { λ setting. record { desc = blend_desc setting } };

    ghost inverse_ok = { λ state _ i. record { desc = blend_desc-blend_setting state.desc i } };
}

impl BlendState {
    /// The state of a description.
    #[inline]
    pub fn new(desc: BlendDesc) -> Self
        ensures { result ≡ blend_setting desc }
    {
        BlendState { desc }
    }

    /// Whether the logic operation acts.
    #[inline]
    pub fn logic(&self) -> bool
        ensures { result ≡ self.now.logic }
    {
        self.desc.logic
    }

    /// The operation on the bits of the source and of what is stored.
    #[inline]
    pub fn op(&self) -> LogicOp
        ensures { result ≡ self.now.op }
    {
        self.desc.op
    }

    /// The channels that are written.
    #[inline]
    pub fn mask(&self) -> ColorMask
        ensures { mask_bits result ≡ self.now.mask }
    {
        self.desc.mask
    }
}

/// The source's colour is written to all channels.
impl Default for BlendState {
    ghost use Rattle.std.specs.Prelude.{◌≡◌};
    ghost use Rattle.gfxspec.specs.State.{default_blend};

    ghost is_default = { λ state. state ≡ default_blend };

    #[inline]
    fn default() -> Self {
        BlendState::new(BlendDesc {
            logic: false,
            op: LogicOp::Noop,
            mask: ColorMask::all(),
        })
    }
}
