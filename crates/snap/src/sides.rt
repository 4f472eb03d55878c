//! Twice the area of a triangle and the sides of its three edges, computed once for facing, edges and depths.

ghost use Rattle.std.specs.Prelude.{◌≡◌, ◌≤◌, unsigned_abs};
ghost use Rattle.gfxspec.specs.Raster.{area as area_of};
ghost use Rattle.snap.specs.Bounds.{area_bound};
ghost use Rattle.snap.specs.Corners.{corner as corner_of, triangle_of};
ghost use Rattle.snap.specs.Sides.{IsSideOf};
ghost use Rattle.snap.specs.Wide.{point_of, IsNear};

use crate::SnapTri;
use crate::corner::{Corner, between, corner_at, cross, negated_if, whole_pixel};

/// The side of each pixel's centre at an edge, above 0 inside of the triangle, in 1/65,536 of a pixel: at pixel (0, 0), and
/// what a pixel to the right or down adds to it.
#[derive(Clone, Copy, Debug)]
pub struct Side {
    pub origin: i64,
    pub step_x: i64,
    pub step_y: i64,
}

/// Twice the area of a triangle, in 1/65,536 of a pixel and above 0 where the corners go round clockwise on the target, and
/// the sides at its edges, each named for the corner opposite to it. Without an area no side is turned.
#[derive(Clone, Copy, Debug)]
pub struct Sides {
    pub triangle: SnapTri,
    pub area: i64,
    pub first: Side,
    pub second: Side,
    pub third: Side,
    pub ghost area_is: { area ≡ area_of (triangle_of triangle) },
    pub ghost area_small: { unsigned_abs area ≤ area_bound },
    pub ghost first_is: { IsSideOf first area (corner_of triangle 1) (corner_of triangle 2) },
    pub ghost second_is: { IsSideOf second area (corner_of triangle 2) (corner_of triangle 0) },
    pub ghost third_is: { IsSideOf third area (corner_of triangle 0) (corner_of triangle 1) },
}

/// The side at the edge from `start` to `end`, turned where the area is below 0.
fn side_between(start: Corner, end: Corner, area: i64) -> Side
    requires first { IsNear start }
    requires second { IsNear end }
    ensures { IsSideOf result area (point_of start) (point_of end) }
{
    let turn = area < 0;
    let dx = negated_if(turn, between(start.x, end.x));
    let dy = negated_if(turn, between(start.y, end.y));
    Side {
        origin: cross(dx, dy, between(start.x, 128), between(start.y, 128)),
        step_x: whole_pixel(negated_if(true, dy)),
        step_y: whole_pixel(dx),
    }
}

impl Sides {
    /// The area and the sides of a triangle.
    #[inline(always)]
    pub fn of(triangle: &SnapTri) -> Sides
        ensures { result.triangle ≡ triangle.now }
    {
        let area = triangle.double_area();
        let a = corner_at(triangle, 0);
        let b = corner_at(triangle, 1);
        let c = corner_at(triangle, 2);
        Sides {
            triangle: *triangle,
            area,
            first: side_between(b, c, area),
            second: side_between(c, a, area),
            third: side_between(a, b, area),
        }
    }
}
