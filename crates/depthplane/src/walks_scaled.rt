//! Eight walks by additions: each keeps its height, divided by the area, in 2^32nds.

ghost use Rattle.std.specs.Prelude.{◌≡◌, ◌≢◌, ℕ, ◌<◌, ◌≤◌, ◌+◌, ◌*◌, ◌/◌, ◌%◌, ℤ, pos, ◌*ℤ◌, int_lt, IsTrue, length, slice_index, unsigned_abs, min, if◌then◌else◌};
ghost use Rattle.gfxspec.specs.Limits.{side_bound};
ghost use Rattle.depthplane.specs.Division.{IsDivisor};
ghost use Rattle.gfxspec.specs.Raster.{centre};
ghost use Rattle.depthplane.specs.Height.{without_bias, height, size_of};
ghost use Rattle.depthplane.specs.Mended.{mended_by};

use crate::plane::Plane;
use crate::scaled::UNIT;
use crate::walks::Walks;
use std::marker::Model;
use std::simd::prelude::*;

/// So near above a whole number, in 2^32nds, a value may belong to the depth below it: no more steps than these lead to any
/// pixel.
pub(crate) const NEAR: u64 = 16_384;

/// Eight values, and what eight pixels to the right and one row down add to each of them: a vector can't stand in a struct that borrows.
#[derive(Clone, Copy)]
struct ValueLanes {
    lanes: u64x8,
    across: u64,
    down: u64,
}

/// Eight walks by multiples of 2^-32, over the depths before any bias. The steps stand in the walks themselves, so that a loop over rows needn't read them from
/// the plane again. A value that lies too near above a whole number to be sure of its depth is looked at exactly.
#[derive(Drop)]
pub struct ScaledWalks<'a> {
    plane: &'a Plane,
    left: u32,
    top: u32,
    x: u32,
    y: u32,
    /// Whether every depth is sure, since no value can be too near above a whole number.
    sure: bool,
    values: ValueLanes,
}

impl<'a> Model for ScaledWalks<'a> {
    ghost use Rattle.depthplane.specs.Places.{Places};

    ghost Value = { Places };

    ghost use Rattle.depthplane.specs.ScaledInside.{place_of, AreWalks};

    ghost view = { place_of };

    ghost invariant = { AreWalks };
}

/// The whole parts of eight values.
#[inline]
fn whole_parts(lanes: &[u64; 8]) -> [u32; 8]
    ensures { (j : ℕ) → j < 8 → slice_index result j ≡ slice_index lanes.now j / 4294967296 % 4294967296 }
{
    let whole = u64x8::from_array(*lanes) >> u64x8::splat(32);
    (whole & u64x8::splat(4_294_967_295))
        .cast::<u32>()
        .to_array()
}

/// The lesser of what two values have above whole numbers.
#[inline]
fn lesser_rest(a: u64, b: u64) -> u32
    ensures { result ≡ min (a % 4294967296) (b % 4294967296) }
{
    ((a % UNIT) as u32).min((b % UNIT) as u32)
}

/// Whether none of eight values is near above a whole number. The two halves are looked at together, in 32 bits a value.
#[inline]
fn all_far(lanes: &[u64; 8]) -> bool
    ensures { IsTrue result → (j : ℕ) → j < 8 → 16384 ≤ slice_index lanes.now j % 4294967296 }
{
    let mut far = true;
    for j in 0..4usize {
        let rest = lesser_rest(lanes[j], lanes[j + 4]);
        far &= u64::from(rest) >= NEAR;
    }
    far
}

impl ValueLanes {
    /// The same eight values, each with a step more.
    #[inline(always)]
    fn stepped(self, step: u64) -> ValueLanes
        requires { length self.lanes ≡ 8 }
        ensures eight { length result.lanes ≡ 8 }
        ensures more { (j : ℕ) → j < 8 → slice_index result.lanes j ≡ (slice_index self.lanes j + step) % 18446744073709551616 }
        ensures across { result.across ≡ self.across }
        ensures down { result.down ≡ self.down }
    {
        ValueLanes {
            lanes: self.lanes + u64x8::splat(step),
            across: self.across,
            down: self.down,
        }
    }
}

/// A depth, or the one below it if its height would be more than the height.
pub(crate) fn mended(depth: u32, height: i128, area: i64) -> u32
    requires { IsDivisor area }
    ensures { result ≡ mended_by height area depth }
{
    if height < i128::from(depth) * i128::from(area) {
        depth.wrapping_sub(1)
    } else {
        depth
    }
}

/// The depths at pixels whose values are near above whole numbers: those, or the ones below. The walks themselves aren't lent
/// here, so that a loop over rows keeps their values in registers.
#[cold]
#[inline(never)]
fn mend(plane: &Plane, x: u32, y: u32, depths: [u32; 8]) -> [u32; 8]
    requires x { x ≤ 4103 }
    requires y { y ≤ side_bound }
    ensures { (j : ℕ) → j < 8 → slice_index result j ≡ mended_by (height plane.now (centre (x + j) y)) (size_of plane.now) (slice_index depths j) }
{
    let height = plane.height();
    let area = plane.size();
    let mut exact = depths;
    for j in 0..8u32 {
        let there = height.at(x + j, y);
        exact[j as usize] = mended(depths[j as usize], there, area);
    }
    exact
}

impl Plane {
    /// Eight walks that begin at pixel (x, y) and the seven to its right, over the depths before any bias.
    pub fn walk_eight(&self, x: u32, y: u32) -> ScaledWalks<'_>
        requires x { x < side_bound }
        requires y { y < side_bound }
        ensures { result ≡ record { plane = without_bias self.now; left = x; top = y; x = x; y = y } }
    {
        let scaled = self.scaled;
        ScaledWalks {
            plane: self,
            left: x,
            top: y,
            x,
            y,
            sure: scaled.sure,
            values: ValueLanes {
                lanes: u64x8::from_array(scaled.eight_at(x, y)),
                across: scaled.right.wrapping_mul(8),
                down: scaled.down,
            },
        }
    }
}

impl<'a> Walks for ScaledWalks<'a> {
    ghost place = { λ w. w };

    #[inline(always)]
    fn is_sure(&self) -> bool {
        self.sure
    }

    /// What is mended is computed once more, so that `depths` need not be put into memory where nothing is.
    #[inline]
    fn depths(&self) -> [u32; 8] {
        let depths = whole_parts(&self.values.lanes.to_array());
        if self.sure {
            return depths;
        }
        if all_far(&self.values.lanes.to_array()) {
            return depths;
        }
        let near = whole_parts(&self.values.lanes.to_array());
        mend(self.plane, self.x, self.y, near)
    }

    #[inline]
    fn next(&mut self) {
        self.values = self.values.stepped(self.values.down);
        self.y += 1;
    }

    #[inline]
    fn eight_right(&mut self) {
        self.values = self.values.stepped(self.values.across);
        self.x += 8;
    }

    #[inline]
    fn copied(&self) -> Self {
        ScaledWalks {
            plane: self.plane,
            left: self.left,
            top: self.top,
            x: self.x,
            y: self.y,
            sure: self.sure,
            values: self.values,
        }
    }
}
