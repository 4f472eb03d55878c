//! The depth-stencil state.

ghost use Rattle.std.specs.Prelude.{◌≡◌};
ghost use Rattle.states.specs.DepthStencil.{face_setting, depth_stencil_setting};

use gfxspec::{Compare, StencilOp};
use std::marker::Model;

/// What the stencil test of one face does.
#[derive(Clone, Copy, Debug, PartialEq, Eq)]
pub struct Face {
    /// Where the stencil test fails.
    pub fail: StencilOp,
    /// Where it passes and the depth test fails.
    pub depth_fail: StencilOp,
    /// Where both pass.
    pub pass: StencilOp,
    /// Compares the reference, on the left, with what is stored.
    pub func: Compare,
}

/// What a depth-stencil state is made of.
#[derive(Clone, Copy, Debug, PartialEq, Eq)]
pub struct DepthStencilDesc {
    /// Whether depth is tested.
    pub depth: bool,
    /// Whether depth is written where both tests pass.
    pub write: bool,
    /// Compares the new depth, on the left, with what is stored.
    pub func: Compare,
    /// Whether the stencil is tested and changed.
    pub stencil: bool,
    /// The bits that the stencil test compares.
    pub read_mask: u8,
    /// The bits of the stencil that change.
    pub write_mask: u8,
    /// Of front-facing triangles.
    pub front: Face,
    /// Of back-facing triangles.
    pub back: Face,
}

/// A depth-stencil state (Direct3D 11.3 Functional Specification, "Output Merger Stage", depth and stencil state).
#[derive(Clone, Copy, Debug, PartialEq, Eq)]
pub struct DepthStencilState {
    desc: DepthStencilDesc,
}

impl Model for DepthStencilState {
    ghost use Rattle.gfxspec.specs.DepthStencil.{DepthStencilSetting};
    ghost use Rattle.states.specs.DepthStencil.{depth_stencil_setting, depth_stencil_desc};

    ghost Value = { DepthStencilSetting };

    ghost view = { λ state. depth_stencil_setting state.desc };

    ghost inverse = { λ setting. record { desc = depth_stencil_desc setting } };
}

impl DepthStencilState {
    /// The state of a description.
    #[inline]
    pub fn new(desc: DepthStencilDesc) -> Self
        ensures { result ≡ depth_stencil_setting desc }
    {
        DepthStencilState { desc }
    }

    /// Whether depth is tested.
    #[inline]
    pub fn depth(&self) -> bool
        ensures { result ≡ self.now.depth }
    {
        self.desc.depth
    }

    /// Whether depth is written where both tests pass.
    #[inline]
    pub fn write(&self) -> bool
        ensures { result ≡ self.now.write }
    {
        self.desc.write
    }

    /// Compares the new depth, on the left, with what is stored.
    #[inline]
    pub fn func(&self) -> Compare
        ensures { result ≡ self.now.func }
    {
        self.desc.func
    }

    /// Whether the stencil is tested and changed.
    #[inline]
    pub fn stencil(&self) -> bool
        ensures { result ≡ self.now.stencil }
    {
        self.desc.stencil
    }

    /// The bits that the stencil test compares.
    #[inline]
    pub fn read_mask(&self) -> u8
        ensures { result ≡ self.now.read_mask }
    {
        self.desc.read_mask
    }

    /// The bits of the stencil that change.
    #[inline]
    pub fn write_mask(&self) -> u8
        ensures { result ≡ self.now.write_mask }
    {
        self.desc.write_mask
    }

    /// What a front-facing triangle does.
    #[inline]
    pub fn front(&self) -> Face
        ensures { face_setting result ≡ self.now.front }
    {
        self.desc.front
    }

    /// What a back-facing triangle does.
    #[inline]
    pub fn back(&self) -> Face
        ensures { face_setting result ≡ self.now.back }
    {
        self.desc.back
    }
}

/// Depth is tested by LESS and written; there is no stencil test.
impl Default for DepthStencilState {
    ghost use Rattle.std.specs.Prelude.{◌≡◌};
    ghost use Rattle.gfxspec.specs.State.{default_depth_stencil};

    ghost is_default = { λ state. state ≡ default_depth_stencil };

    #[inline]
    fn default() -> Self {
        let face = Face {
            fail: StencilOp::Keep,
            depth_fail: StencilOp::Keep,
            pass: StencilOp::Keep,
            func: Compare::Always,
        };
        DepthStencilState::new(DepthStencilDesc {
            depth: true,
            write: true,
            func: Compare::Less,
            stencil: false,
            read_mask: 255,
            write_mask: 255,
            front: face,
            back: face,
        })
    }
}
