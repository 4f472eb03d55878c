//! Four walks by additions, over depths that are sure and have no bias.

ghost use Rattle.std.specs.Prelude.{◌≡◌, ℕ, ◌<◌, ◌+◌, ◌/◌, ◌%◌, IfSome, IsTrue, length, slice_index};
ghost use Rattle.gfxspec.specs.Limits.{side_bound};
ghost use Rattle.gfxspec.specs.Raster.{centre, covers};
ghost use Rattle.depthplane.specs.Place.{depth_of};
ghost use Rattle.depthplane.specs.Places.{IsNearStart};

use crate::plane::Plane;
use std::marker::Model;
use std::simd::prelude::*;

/// Four values, and what four pixels to the right and one row down add to each of them.
#[derive(Clone, Copy)]
struct ValueQuad {
    lanes: u64x4,
    across: u64,
    down: u64,
}

/// Four walks side by side over the depths of a triangle that has no bias and whose depths are all sure.
#[derive(Drop)]
pub struct DepthQuads<'a> {
    plane: &'a Plane,
    left: u32,
    top: u32,
    x: u32,
    y: u32,
    values: ValueQuad,
}

impl<'a> Model for DepthQuads<'a> {
    ghost use Rattle.depthplane.specs.Places.{Places};

    ghost Value = { Places };

    ghost use Rattle.depthplane.specs.QuadInside.{place_of, AreQuads};

    ghost view = { place_of };

    ghost invariant = { AreQuads };
}

impl ValueQuad {
    /// The same four values, each with a step more.
    #[inline(always)]
    fn stepped(self, step: u64) -> ValueQuad
        requires { length self.lanes ≡ 4 }
        ensures four { length result.lanes ≡ 4 }
        ensures more { (j : ℕ) → j < 4 → slice_index result.lanes j ≡ (slice_index self.lanes j + step) % 18446744073709551616 }
        ensures across { result.across ≡ self.across }
        ensures down { result.down ≡ self.down }
    {
        ValueQuad {
            lanes: self.lanes + u64x4::splat(step),
            across: self.across,
            down: self.down,
        }
    }
}

/// The whole parts of four values.
#[inline(always)]
fn whole_parts4(lanes: &[u64; 4]) -> [u32; 4]
    ensures { (j : ℕ) → j < 4 → slice_index result j ≡ slice_index lanes.now j / 4294967296 % 4294967296 }
{
    let whole = u64x4::from_array(*lanes) >> u64x4::splat(32);
    (whole & u64x4::splat(4_294_967_295))
        .cast::<u32>()
        .to_array()
}

impl Plane {
    /// Four walks that begin at pixel (x, y) and the three to its right, where the plane has no bias, and each of its depths is sure.
    #[inline(always)]
    pub fn quads(&self, x: u32, y: u32) -> Option<DepthQuads<'_>>
        requires x { x < side_bound }
        requires y { y < side_bound }
        ensures { IfSome result (λ q. q ≡ record { plane = self.now; left = x; top = y; x = x; y = y }) }
    {
        let scaled = self.scaled;
        if !scaled.sure || self.is_biased() {
            return None;
        }
        let first = scaled.at(x, y);
        let second = first.wrapping_add(scaled.right);
        let third = second.wrapping_add(scaled.right);
        let fourth = third.wrapping_add(scaled.right);
        Some(DepthQuads {
            plane: self,
            left: x,
            top: y,
            x,
            y,
            values: ValueQuad {
                lanes: u64x4::from_array([first, second, third, fourth]),
                across: scaled.right.wrapping_mul(4),
                down: scaled.down,
            },
        })
    }
}

impl<'a> DepthQuads<'a> {
    /// The depths at the four pixels, exact and rounded down, wherever the triangle covers the centre.
    #[inline(always)]
    pub fn depths(&self) -> [u32; 4]
        ensures { (j : ℕ) → j < 4 → IsNearStart self.now j → IsTrue (covers self.now.plane.triangle (centre (self.now.x + j) self.now.y))
            → slice_index result j ≡ depth_of self.now.plane (self.now.x + j) self.now.y }
    {
        whole_parts4(&self.values.lanes.to_array())
    }

    /// Goes one row down.
    #[inline(always)]
    pub fn down(&mut self)
        requires { self.old.y < side_bound }
        ensures { self.new ≡ record self.old { y = self.old.y + 1 } }
    {
        self.values = self.values.stepped(self.values.down);
        self.y += 1;
    }

    /// Goes four pixels to the right.
    #[inline(always)]
    pub fn four_right(&mut self)
        requires { self.old.x < side_bound }
        ensures { self.new ≡ record self.old { x = self.old.x + 4 } }
    {
        self.values = self.values.stepped(self.values.across);
        self.x += 4;
    }

    /// The same walks once more, for the rows of one column.
    #[inline(always)]
    pub fn copied(&self) -> DepthQuads<'a>
        ensures { result ≡ self.now }
    {
        DepthQuads {
            plane: self.plane,
            left: self.left,
            top: self.top,
            x: self.x,
            y: self.y,
            values: self.values,
        }
    }
}
