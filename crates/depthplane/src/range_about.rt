//! What the depths of a triangle lie between in a rectangle of which it may cover a part.

ghost use Rattle.std.specs.Prelude.{◌≡◌, ℕ, ◌<◌, ◌≤◌, ◌+◌, ◌-◌, ◌/◌, ◌%◌, min, IfSome, IsTrue};
ghost use Rattle.gfxspec.specs.Limits.{side_bound};
ghost use Rattle.gfxspec.specs.Raster.{centre, covers};
ghost use Rattle.gfxspec.specs.Tiles.{IsIn};
ghost use Rattle.depthplane.specs.Place.{depth_of};
ghost use Rattle.depthplane.specs.Range.{depth_below, depth_above};

use crate::bias::both_with_bias;
use crate::plane::Plane;
use crate::range::ends;
use crate::scaled::UNIT;
use crate::walks_scaled::NEAR;
use gfxspec::{DEPTH_MAX, PixelRect};

/// So many units are added to a value that may lie below 0.
const RAISE: u32 = 2_147_483_648;

/// A value raised above 0, so that those within 2^31 units of 0 are in their order, and by as much again as it may be too small.
#[inline(always)]
fn raised(value: u64) -> u64
    ensures { result ≡ (value + 9223372036854792192) % 18446744073709551616 }
{
    value.wrapping_add(9_223_372_036_854_775_808 + NEAR)
}

/// The depth of a raised value, or the end of the range of depths that it passes.
#[inline(always)]
fn lowered(raised: u64) -> u32
    ensures { result ≡ min (raised / 4294967296 - 2147483648) 16777215 }
{
    ((raised / UNIT) as u32)
        .saturating_sub(RAISE)
        .min(DEPTH_MAX)
}

/// A depth that is no greater than the one that a value stands for.
#[inline(always)]
fn depth_below(value: u64) -> u32
    ensures { result ≡ depth_below value }
{
    lowered(raised(value).saturating_sub(2 * NEAR))
}

/// A depth that is no less than the one that a value stands for.
#[inline(always)]
fn depth_above(value: u64) -> u32
    ensures { result ≡ depth_above value }
{
    lowered(raised(value))
}

impl Plane {
    /// What the depths lie between at the pixels of a rectangle of at most 32 by 32 that the triangle covers. Depth is linear on the
    /// whole target, so the ends are those of two opposite corner pixels, covered or not; where it changes too fast from one pixel to the
    /// next nothing is told.
    #[inline(always)]
    pub fn range_about(&self, rect: PixelRect) -> Option<(u32, u32)>
        requires wide { rect.left < rect.right }
        requires high { rect.top < rect.bottom }
        requires columns { rect.right ≤ rect.left + 32 }
        requires rows { rect.bottom ≤ rect.top + 32 }
        requires right { rect.right ≤ side_bound }
        requires bottom { rect.bottom ≤ side_bound }
        ensures { IfSome result (λ between. (x y : ℕ) → IsIn rect x y → IsTrue (covers self.now.triangle (centre x y))
            → (between.0 ≤ depth_of self.now x y) × (depth_of self.now x y ≤ between.1)) }
    {
        if !self.scaled.gentle {
            return None;
        }
        let (near_x, far_x) = ends(self.scaled.rises_right, rect.left, rect.right - 1);
        let (near_y, far_y) = ends(self.scaled.rises_down, rect.top, rect.bottom - 1);
        let least = depth_below(self.scaled.at(near_x, near_y));
        let greatest = depth_above(self.scaled.at(far_x, far_y));
        let between = both_with_bias(least, greatest, self.bias());
        Some(between)
    }
}
