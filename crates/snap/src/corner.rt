//! Corners in numbers that are wide enough for their products: places in 1/256 pixel, areas in 1/65,536 of a pixel.

ghost use Rattle.std.specs.Prelude.{◌≡◌, ◌≤◌, ◌<◌, pos, ◌-ℤ◌, ◌*ℤ◌, neg_ℤ, if◌then◌else◌, unsigned_abs};
ghost use Rattle.gfxspec.specs.Raster.{side};
ghost use Rattle.gfxspec.specs.Snapping.{IsGridPlace};
ghost use Rattle.snap.specs.Bounds.{area_bound, difference_bound, step_bound};
ghost use Rattle.snap.specs.Corners.{corner as corner_of};
ghost use Rattle.snap.specs.Wide.{point_of, IsNear};

use crate::SnapTri;

/// A corner, in numbers that are wide enough for their products.
#[derive(Clone, Copy, Debug)]
pub(crate) struct Corner {
    pub(crate) x: i64,
    pub(crate) y: i64,
}

/// Corner i.
pub(crate) fn corner_at(triangle: &SnapTri, i: usize) -> Corner
    requires { i < 3 }
    ensures place { point_of result ≡ corner_of triangle.now i }
    ensures near { IsNear result }
{
    Corner {
        x: triangle.x[i] as i64,
        y: triangle.y[i] as i64,
    }
}

/// How far it is from one place to another.
pub(crate) fn between(from: i64, to: i64) -> i64
    requires start { IsGridPlace from }
    requires end { IsGridPlace to }
    ensures value { result ≡ to -ℤ from }
    ensures bound { unsigned_abs result ≤ difference_bound }
{
    to - from
}

/// The cross product of (dx, dy) and (ex, ey).
pub(crate) fn cross(dx: i64, dy: i64, ex: i64, ey: i64) -> i64
    requires dx { unsigned_abs dx ≤ difference_bound }
    requires dy { unsigned_abs dy ≤ difference_bound }
    requires ex { unsigned_abs ex ≤ difference_bound }
    requires ey { unsigned_abs ey ≤ difference_bound }
    ensures value { result ≡ dx *ℤ ey -ℤ dy *ℤ ex }
    ensures bound { unsigned_abs result ≤ area_bound }
{
    dx * ey - dy * ex
}

/// Twice the area of a, b and p, with its sign.
pub(crate) fn double_area(a: Corner, b: Corner, p: Corner) -> i64
    requires first { IsNear a }
    requires second { IsNear b }
    requires third { IsNear p }
    ensures value { result ≡ side (point_of a) (point_of b) (point_of p) }
    ensures bound { unsigned_abs result ≤ area_bound }
{
    cross(
        between(a.x, b.x),
        between(a.y, b.y),
        between(a.x, p.x),
        between(a.y, p.y),
    )
}

/// The number, or its opposite.
pub(crate) fn negated_if(flip: bool, number: i64) -> i64
    requires { unsigned_abs number ≤ difference_bound }
    ensures value { result ≡ (if flip then neg_ℤ number else number) }
    ensures bound { unsigned_abs result ≤ difference_bound }
{
    if flip { -number } else { number }
}

/// What 256 places of 1/256 pixel come to.
pub(crate) fn whole_pixel(each: i64) -> i64
    requires { unsigned_abs each ≤ difference_bound }
    ensures value { result ≡ pos 256 *ℤ each }
    ensures bound { unsigned_abs result ≤ step_bound }
{
    256 * each
}
