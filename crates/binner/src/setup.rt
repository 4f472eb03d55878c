//! Triangles, ready to be drawn in any tile.

ghost use Rattle.std.specs.Prelude.{◌≡◌, ◌≤◌, false, min, max};
ghost use Rattle.gfxspec.specs.Limits.{side_bound};
ghost use Rattle.gfxspec.specs.Depth.{biased};
ghost use Rattle.gfxspec.specs.Raster.{is_empty};
ghost use Rattle.depthplane.specs.Height.{AreDepths};

use crate::short_rect::ShortRect;
use depthplane::Plane;
use edges::EdgeSet;
use std::mem::size_of;

// What a list keeps for each of up to 65,536 triangles.
const _: () = prove!(size_of::<TriSetup>() <= 168);

/// A triangle that is not dropped. No pixel outside of `bounds` is reached.
#[derive(Drop)]
pub struct TriSetup {
    pub plane: Plane,
    pub bounds: ShortRect,
    /// The leading vertex's colour.
    pub rgba: [u8; 4],
    /// The least and the greatest depth of its vertices, moved by the bias.
    pub least_depth: u32,
    pub greatest_depth: u32,
    /// Whether it uses the front operations.
    pub front: bool,
    pub edges: EdgeSet,
    pub ghost same: { edges ≡ plane.triangle },
    pub ghost solid: { is_empty plane.triangle ≡ false },
    pub ghost deep: { AreDepths plane },
    pub ghost least: { least_depth ≡ biased plane.bias (min (min plane.z0 plane.z1) plane.z2) },
    pub ghost greatest: { greatest_depth ≡ biased plane.bias (max (max plane.z0 plane.z1) plane.z2) },
    pub ghost right: { bounds.right ≤ side_bound },
    pub ghost bottom: { bounds.bottom ≤ side_bound },
}
