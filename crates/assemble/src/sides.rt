//! Which way a triangle faces, and whether it is dropped for that.

ghost use Rattle.std.specs.Prelude.{◌≡◌};
ghost use Rattle.gfxspec.specs.Facing.{facing_of, is_culled};
ghost use Rattle.gfxspec.specs.Raster.{Triangle, area as area_of};
ghost use Rattle.snap.specs.Corners.{triangle_of};

use gfxspec::{Cull, Facing};
use snap::SnapTri;

/// Which way a snapped triangle faces
/// (Direct3D 11.3 Functional Specification, "Rasterizer Stage": front and back facing).
pub fn facing(triangle: &SnapTri, front_ccw: bool) -> Facing
    ensures { result ≡ facing_of front_ccw (triangle_of triangle.now) }
{
    facing_by_area(triangle.double_area(), front_ccw)
}

/// Which way a triangle faces, by twice its area with the sign of the order of its corners.
pub fn facing_by_area(area: i64, front_ccw: bool) -> Facing
    ensures { (t : Triangle) → area ≡ area_of t → result ≡ facing_of front_ccw t }
{
    if area == 0 {
        return Facing::Empty;
    }
    match (front_ccw, area > 0) {
        (false, true) | (true, false) => Facing::Front,
        (false, false) | (true, true) => Facing::Back,
    }
}

/// Whether a cull mode drops what faces so. A triangle without an area is dropped in each.
pub fn culled(mode: Cull, facing: Facing) -> bool
    ensures { result ≡ is_culled mode facing }
{
    match (mode, facing) {
        (_, Facing::Empty) => true,
        (Cull::None, _) => false,
        (Cull::Front, Facing::Front) | (Cull::Back, Facing::Back) => true,
        (Cull::Front, Facing::Back) | (Cull::Back, Facing::Front) => false,
    }
}
