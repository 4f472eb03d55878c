//! The rasterizer state.

ghost use Rattle.std.specs.Prelude.{◌≡◌};
ghost use Rattle.states.specs.Raster.{raster_setting};

use gfxspec::Cull;
use std::marker::Model;

/// What a rasterizer state is made of. Fill is always solid.
#[derive(Clone, Copy, Debug, PartialEq, Eq)]
pub struct RasterDesc {
    /// Which triangles are dropped by their facing.
    pub cull: Cull,
    /// Whether a counter-clockwise triangle is front-facing.
    pub front_ccw: bool,
    /// Whether the scissor rectangle acts.
    pub scissor: bool,
    /// What is added to each depth, in units of depth (1/16,777,215 of the range).
    pub depth_bias: i32,
}

/// A rasterizer state (Direct3D 11.3 Functional Specification, "Rasterizer Stage").
#[derive(Clone, Copy, Debug, PartialEq, Eq)]
pub struct RasterState {
    desc: RasterDesc,
}

impl Model for RasterState {
    ghost use Rattle.gfxspec.specs.State.{RasterSetting};
    ghost use Rattle.states.specs.Raster.{raster_setting, raster_desc};

    ghost Value = { RasterSetting };

    ghost view = { λ state. raster_setting state.desc };

    ghost inverse = { λ setting. record { desc = raster_desc setting } };
}

impl RasterState {
    /// The state of a description.
    #[inline]
    pub fn new(desc: RasterDesc) -> Self
        ensures { result ≡ raster_setting desc }
    {
        RasterState { desc }
    }

    /// Which triangles are dropped by their facing.
    #[inline]
    pub fn cull(&self) -> Cull
        ensures { result ≡ self.now.cull }
    {
        self.desc.cull
    }

    /// Whether a counter-clockwise triangle is front-facing.
    #[inline]
    pub fn front_ccw(&self) -> bool
        ensures { result ≡ self.now.front_ccw }
    {
        self.desc.front_ccw
    }

    /// Whether the scissor rectangle acts.
    #[inline]
    pub fn scissor(&self) -> bool
        ensures { result ≡ self.now.scissor }
    {
        self.desc.scissor
    }

    /// What is added to each depth, in units of depth; the sum is clamped to the range of depths.
    #[inline]
    pub fn depth_bias(&self) -> i32
        ensures { result ≡ self.now.depth_bias }
    {
        self.desc.depth_bias
    }
}

/// Back faces are dropped, clockwise is front, and there is no scissor rectangle and no bias.
impl Default for RasterState {
    ghost use Rattle.std.specs.Prelude.{◌≡◌};
    ghost use Rattle.gfxspec.specs.State.{default_raster};

    ghost is_default = { λ state. state ≡ default_raster };

    #[inline]
    fn default() -> Self {
        RasterState::new(RasterDesc {
            cull: Cull::Back,
            front_ccw: false,
            scissor: false,
            depth_bias: 0,
        })
    }
}
