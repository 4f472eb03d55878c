//! Four pixels side by side, without bits: a lane that is picked has a 1, and each other a 0.

ghost use Rattle.std.specs.Prelude.{◌≡◌, ℕ, ◌<◌, ◌≤◌, ◌+◌, ◌^◌, ◌&&◌, ◌==◌, nat_le, nat_lt, bit_and, bit_xor, slice_index, if◌then◌else◌};
ghost use Rattle.gfxspec.specs.DepthStencil.{compares};

use gfxspec::Compare;
use logicop::ColorWrite;
use std::simd::prelude::*;

/// The lanes of four pixels from x on that lie in the columns from `left` on and before `right`.
#[inline(always)]
pub fn within4(x: u32, left: u32, right: u32) -> [u32; 4]
    requires x { x < 2 ^ 31 }
    requires right { right < 2 ^ 31 }
    requires some { left ≤ right }
    ensures { (j : ℕ) → j < 4 → slice_index result j ≡ (if nat_le left (x + j) && nat_lt (x + j) right then 1 else 0) }
{
    let places = u32x4::splat(x.wrapping_sub(left)) + u32x4::from_array([0, 1, 2, 3]);
    places
        .simd_lt(u32x4::splat(right - left))
        .select(u32x4::splat(1), u32x4::splat(0))
        .to_array()
}

/// The lanes at which the comparison holds of the new depth, on the left, and the old one
/// (Direct3D 11.3 Functional Specification, "Output Merger Stage", comparison functions).
#[inline(always)]
pub fn compared4(func: Compare, new: &[u32; 4], old: &[u32; 4]) -> [u32; 4]
    ensures { (j : ℕ) → j < 4 → slice_index result j ≡ (if compares func (slice_index new.now j) (slice_index old.now j) then 1 else 0) }
{
    let new = u32x4::from_array(*new);
    let old = u32x4::from_array(*old);
    let one = u32x4::splat(1);
    let none = u32x4::splat(0);
    match func {
        Compare::Never => none.to_array(),
        Compare::Less => new.simd_lt(old).select(one, none).to_array(),
        Compare::Equal => new.simd_eq(old).select(one, none).to_array(),
        Compare::LessEqual => new.simd_le(old).select(one, none).to_array(),
        Compare::Greater => new.simd_gt(old).select(one, none).to_array(),
        Compare::NotEqual => new.simd_ne(old).select(one, none).to_array(),
        Compare::GreaterEqual => new.simd_ge(old).select(one, none).to_array(),
        Compare::Always => one.to_array(),
    }
}

/// The value of `a` where a lane is picked, and else of `b`.
#[inline(always)]
pub fn select4(picked: &[u32; 4], a: &[u32; 4], b: &[u32; 4]) -> [u32; 4]
    ensures { (j : ℕ) → j < 4 → slice_index result j ≡ (if slice_index picked.now j == 1 then slice_index a.now j else slice_index b.now j) }
{
    u32x4::from_array(*picked)
        .simd_eq(u32x4::splat(1))
        .select(u32x4::from_array(*a), u32x4::from_array(*b))
        .to_array()
}

/// A write to each stored packed colour.
#[inline(always)]
pub fn write4(write: ColorWrite, d: &[u32; 4]) -> [u32; 4]
    ensures { (j : ℕ) → j < 4 → slice_index result j ≡ bit_xor (bit_and (slice_index d.now j) write.keep) write.flip }
{
    let kept = u32x4::from_array(*d) & u32x4::splat(write.keep);
    (kept ^ u32x4::splat(write.flip)).to_array()
}

/// The sums of the lanes.
#[inline(always)]
pub fn add4(a: &[u32; 4], b: &[u32; 4]) -> [u32; 4]
    requires fits { (j : ℕ) → j < 4 → slice_index a.now j + slice_index b.now j < 2 ^ 32 }
    ensures { (j : ℕ) → j < 4 → slice_index result j ≡ slice_index a.now j + slice_index b.now j }
{
    (u32x4::from_array(*a) + u32x4::from_array(*b)).to_array()
}
