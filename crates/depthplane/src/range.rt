//! What the depths of a triangle lie between in a rectangle that it covers.

ghost use Rattle.std.specs.Prelude.{◌≡◌, ℕ, ◌<◌, ◌≤◌, IsTrue};
ghost use Rattle.gfxspec.specs.Limits.{side_bound};
ghost use Rattle.gfxspec.specs.Raster.{centre, covers};
ghost use Rattle.gfxspec.specs.Tiles.{IsIn};
ghost use Rattle.depthplane.specs.Height.{without_bias};
ghost use Rattle.depthplane.specs.Place.{depth_of};
ghost use Rattle.depthplane.specs.Range.{far_end, greatest_corner, least_corner, near_end};

use crate::bias::both_with_bias;
use crate::plane::Plane;
use crate::scaled::UNIT;
use crate::walks_scaled::{NEAR, mended};
use gfxspec::PixelRect;

/// Of the first and the last place of a line, the one where a number is least, and the one where it is greatest: the number rises along
/// the line, or it falls.
#[inline(always)]
pub(crate) fn ends(rises: bool, first: u32, last: u32) -> (u32, u32)
    ensures near { result.0 ≡ near_end rises first last }
    ensures far { result.1 ≡ far_end rises first last }
{
    if rises { (first, last) } else { (last, first) }
}

impl Plane {
    /// The depth at pixel (x, y) before any bias, where the triangle covers its centre: the exact one, rounded down, by a look at the
    /// height itself unless the value there is sure.
    #[cold]
    #[inline(never)]
    fn exact_depth(&self, x: u32, y: u32) -> u32
        requires x { x < side_bound }
        requires y { y < side_bound }
        ensures { IsTrue (covers self.now.triangle (centre x y)) → result ≡ depth_of (without_bias self.now) x y }
    {
        let whole = (self.scaled.at(x, y) / UNIT) as u32;
        if self.scaled.sure {
            return whole;
        }
        let height = self.height().at(x, y);
        mended(whole, height, self.size())
    }

    /// The depth at pixel (x, y) before any bias, where the triangle covers its centre: the exact one, rounded down. A value too near
    /// above a whole number is looked at again.
    #[inline(always)]
    fn depth(&self, x: u32, y: u32) -> u32
        requires x { x < side_bound }
        requires y { y < side_bound }
        ensures { IsTrue (covers self.now.triangle (centre x y)) → result ≡ depth_of (without_bias self.now) x y }
    {
        let value = self.scaled.at(x, y);
        if value % UNIT >= NEAR {
            return (value / UNIT) as u32;
        }
        self.exact_depth(x, y)
    }

    /// The least and the greatest depth at the pixels of a rectangle that the triangle covers: depth is linear, so these
    /// are depths at two opposite corner pixels, and whether it rises to the right and downwards tells which.
    #[inline(always)]
    pub fn range(&self, rect: PixelRect) -> (u32, u32)
        requires wide { rect.left < rect.right }
        requires high { rect.top < rect.bottom }
        requires right { rect.right ≤ side_bound }
        requires bottom { rect.bottom ≤ side_bound }
        requires covered { (x y : ℕ) → IsIn rect x y → IsTrue (covers self.now.triangle (centre x y)) }
        ensures least { result.0 ≡ least_corner self.now rect }
        ensures greatest { result.1 ≡ greatest_corner self.now rect }
        ensures between { (x y : ℕ) → IsIn rect x y → (result.0 ≤ depth_of self.now x y) × (depth_of self.now x y ≤ result.1) }
    {
        let (near_x, far_x) = ends(self.scaled.rises_right, rect.left, rect.right - 1);
        let (near_y, far_y) = ends(self.scaled.rises_down, rect.top, rect.bottom - 1);
        let least = self.depth(near_x, near_y);
        let greatest = self.depth(far_x, far_y);
        both_with_bias(least, greatest, self.bias())
    }
}
