//! Snaps vertex positions to the rasterizer's grid, and computes a triangle's area and sides once for facing, edges and depth.
//!
//! A vertex coordinate is in 1/65,536 pixel, at most 268,435,456 either way; a snapped one is in 1/256 pixel, at most
//! 1,048,576 either way. A `SnapTri` carries that range in its type, so nothing above asks for it again, and each
//! 64-bit product of `corner` is shown to fit once.
#![tactic(auto)]

mod corner;
mod sides;

ghost use Rattle.std.specs.Prelude.{◌≡◌, map, slice_index_or, pos, ◌≤◌, All};
ghost use Rattle.gfxspec.specs.Items.{snapped_triangle};
ghost use Rattle.gfxspec.specs.Snapping.{IsCoordinate, IsGridPlace, SnapsTo, snapped};
ghost use Rattle.gfxspec.specs.Vertices.{IsPlaced};

use crate::corner::{corner_at, double_area};
use gfxspec::Vertex;
pub use sides::{Side, Sides};

/// A triangle's corners in 1/256 pixel, the leading one first.
#[derive(Clone, Copy, Debug)]
pub struct SnapTri {
    pub x: [i32; 3],
    pub y: [i32; 3],
    pub ghost x_in_range: { All IsGridPlace x },
    pub ghost y_in_range: { All IsGridPlace y },
}

/// The grid place nearest to a coordinate, of two that are equally near the even one
/// (Direct3D 11.3 Functional Specification, "Rasterization Rules", coordinate snapping).
pub fn snap(v: i32) -> i32
    requires { IsCoordinate v }
    ensures grid { SnapsTo v result }
    ensures value { result ≡ snapped v }
    ensures range { IsGridPlace result }
{
    let whole = v.div_euclid(256);
    let part = v.rem_euclid(256);
    if part < 128 || (part == 128 && whole % 2 == 0) {
        whole
    } else {
        whole + 1
    }
}

/// Snaps each corner of three, the leading one first.
pub fn snap_tri(v: &[Vertex; 3]) -> SnapTri
    requires { All IsPlaced v.now }
    ensures x { result.x ≡ map (λ corner. snapped corner.x) v.now }
    ensures y { result.y ≡ map (λ corner. snapped corner.y) v.now }
{
    SnapTri {
        x: [snap(v[0].x), snap(v[1].x), snap(v[2].x)],
        y: [snap(v[0].y), snap(v[1].y), snap(v[2].y)],
    }
}

impl SnapTri {
    ghost use Rattle.std.specs.Prelude.{unsigned_abs};
    ghost use Rattle.gfxspec.specs.Raster.{area};
    ghost use Rattle.snap.specs.Bounds.{area_bound};
    ghost use Rattle.snap.specs.Corners.{triangle_of};

    /// Snaps three corners that are known one by one, the leading one first.
    #[tactic(auto, using(gfxspec::proofs::Threes::All_three))]
    #[inline(always)]
    pub fn of(first: &Vertex, second: &Vertex, third: &Vertex) -> SnapTri
        requires first { IsPlaced first.now }
        requires second { IsPlaced second.now }
        requires third { IsPlaced third.now }
        ensures { triangle_of result ≡ snapped_triangle (record { first = first.now; second = second.now; third = third.now }) }
    {
        snap_tri(&[*first, *second, *third])
    }

    /// Twice the area, in 1/65,536 of a pixel: above 0 where the corners go round clockwise on the target.
    pub fn double_area(&self) -> i64
        ensures value { result ≡ area (triangle_of self.now) }
        ensures bound { unsigned_abs result ≤ area_bound }
    {
        double_area(corner_at(self, 0), corner_at(self, 1), corner_at(self, 2))
    }
}
