//! A bias is added to depths, within their range.

ghost use Rattle.std.specs.Prelude.{◌≡◌, ℕ, ◌<◌, slice_index};
ghost use Rattle.gfxspec.specs.Depth.{biased};
ghost use Rattle.gfxspec.specs.Vertices.{IsDepth};

use gfxspec::DEPTH_MAX;

/// A depth moved by a bias, in units of depth: the sum, or the end of the range of depths that it passes
/// (Direct3D 11.3 Functional Specification, "Rasterizer Stage", depth bias).
#[inline]
pub fn with_bias(depth: u32, bias: i32) -> u32
    ensures { result ≡ biased bias depth }
{
    (i64::from(depth) + i64::from(bias)).clamp(0, i64::from(DEPTH_MAX)) as u32
}

/// Two depths moved by a bias, which is 0 for most triangles.
#[inline(always)]
pub(crate) fn both_with_bias(first: u32, second: u32, bias: i32) -> (u32, u32)
    requires first { IsDepth first }
    requires second { IsDepth second }
    ensures first { result.0 ≡ biased bias first }
    ensures second { result.1 ≡ biased bias second }
{
    if bias == 0 {
        return (first, second);
    }
    (with_bias(first, bias), with_bias(second, bias))
}

/// Eight depths moved by a bias.
#[inline]
pub(crate) fn with_bias8(depths: [u32; 8], bias: i32) -> [u32; 8]
    ensures { (j : ℕ) → j < 8 → slice_index result j ≡ biased bias (slice_index depths j) }
{
    let mut all = [0; 8];
    for j in 0..8usize {
        all[j] = with_bias(depths[j], bias);
    }
    all
}
