//! One edge at eight pixels side by side, in 32 bits a pixel. Only the sign counts: it lives without a value's last eight bits, and near
//! the first pixel it lives through a cut.

ghost use Rattle.std.specs.Prelude.{ℕ, ℤ, ◌<◌, ◌≤◌, ◌+◌, ◌^◌, ◌↔◌, pos, ◌+ℤ◌, ◌≤ℤ◌, unsigned_abs};
ghost use Rattle.gfxspec.specs.Limits.{side_bound};
ghost use Rattle.gfxspec.specs.Raster.{Edge};
ghost use Rattle.edges.specs.Function.{IsFunctionOf, IsSmall, linear, unpacked};
ghost use Rattle.edges.specs.Signs.{IsShort, AreSigns, AreQuadSigns};

use crate::{EdgeFunction, PackedFunction};
use std::simd::prelude::*;

/// Numbers that have the signs of an edge's values at eight pixels side by side, in units of 1/256 of a pixel, and what eight pixels
/// to the right and one row down add to each of them.
#[derive(Clone, Copy)]
pub(crate) struct SignLanes {
    pub(crate) lanes: i32x8,
    pub(crate) across: i32,
    pub(crate) below: i32,
}

/// A value without its last eight bits.
fn short_value(value: i64) -> i64
    requires { unsigned_abs value ≤ 2 ^ 44 }
    ensures short { IsShort result value }
    ensures small { unsigned_abs result ≤ 2 ^ 37 }
{
    value >> 8
}

/// A value, cut off where no 31 steps each way change its sign.
fn cut_off(value: i64) -> i32
    ensures small { unsigned_abs result ≤ 2 ^ 27 }
    ensures sign { (by : ℤ) → unsigned_abs by < 2 ^ 27 → (pos 0 ≤ℤ (result +ℤ by)) ↔ (pos 0 ≤ℤ (value +ℤ by)) }
{
    value.clamp(-134_217_728, 134_217_728) as i32
}

impl PackedFunction {
    /// The value at the centre of pixel (x, y) without its last eight bits, which are the same at each pixel.
    #[inline(always)]
    fn short_at(self, x: u32, y: u32) -> i64
        requires small { IsSmall (unpacked self) }
        requires x { x < side_bound }
        requires y { y < side_bound }
        ensures { IsShort result (linear (unpacked self) x y) }
    {
        let short = EdgeFunction {
            origin: short_value(self.origin),
            step_x: i64::from(self.step_x),
            step_y: i64::from(self.step_y),
        };
        short.at(x, y)
    }
}

impl SignLanes {
    /// The lanes of an edge at the eight pixels from (x, y) on.
    pub(crate) fn of(function: PackedFunction, x: u32, y: u32) -> SignLanes
        requires small { IsSmall (unpacked function) }
        requires x { x < side_bound }
        requires y { y < side_bound }
        ensures { (e : Edge) → IsFunctionOf (unpacked function) e → AreSigns result e x y x y }
    {
        let first = cut_off(function.short_at(x, y));
        let right = function.step_x;
        let places = i32x8::from_array([0, 1, 2, 3, 4, 5, 6, 7]);
        SignLanes {
            lanes: i32x8::splat(first) + i32x8::splat(right) * places,
            across: 8 * right,
            below: function.step_y,
        }
    }

    /// One row down.
    #[inline(always)]
    pub(crate) fn down(self) -> SignLanes
        ensures { (e : Edge) (left top x y : ℕ) → AreSigns self e left top x y → AreSigns result e left top x (y + 1) }
    {
        SignLanes {
            lanes: self.lanes + i32x8::splat(self.below),
            across: self.across,
            below: self.below,
        }
    }

    /// Eight pixels to the right.
    #[inline(always)]
    pub(crate) fn eight_right(self) -> SignLanes
        ensures { (e : Edge) (left top x y : ℕ) → AreSigns self e left top x y → AreSigns result e left top (x + 8) y }
    {
        SignLanes {
            lanes: self.lanes + i32x8::splat(self.across),
            across: self.across,
            below: self.below,
        }
    }
}

/// The same at four pixels side by side, and what four pixels to the right add.
#[derive(Clone, Copy)]
pub(crate) struct QuadSigns {
    pub(crate) lanes: i32x4,
    pub(crate) across: i32,
    pub(crate) below: i32,
}

impl QuadSigns {
    /// The lanes of an edge at the four pixels from (x, y) on.
    #[inline(always)]
    pub(crate) fn of(function: PackedFunction, x: u32, y: u32) -> QuadSigns
        requires small { IsSmall (unpacked function) }
        requires x { x < side_bound }
        requires y { y < side_bound }
        ensures { (e : Edge) → IsFunctionOf (unpacked function) e → AreQuadSigns result e x y x y }
    {
        let first = cut_off(function.short_at(x, y));
        let right = function.step_x;
        let places = i32x4::from_array([0, 1, 2, 3]);
        QuadSigns {
            lanes: i32x4::splat(first) + i32x4::splat(right) * places,
            across: 4 * right,
            below: function.step_y,
        }
    }

    /// One row down.
    #[inline(always)]
    pub(crate) fn down(self) -> QuadSigns
        ensures { (e : Edge) (left top x y : ℕ) → AreQuadSigns self e left top x y → AreQuadSigns result e left top x (y + 1) }
    {
        QuadSigns {
            lanes: self.lanes + i32x4::splat(self.below),
            across: self.across,
            below: self.below,
        }
    }

    /// Four pixels to the right.
    #[inline(always)]
    pub(crate) fn four_right(self) -> QuadSigns
        ensures { (e : Edge) (left top x y : ℕ) → AreQuadSigns self e left top x y → AreQuadSigns result e left top (x + 4) y }
    {
        QuadSigns {
            lanes: self.lanes + i32x4::splat(self.across),
            across: self.across,
            below: self.below,
        }
    }
}
