//! Where a triangle's edges hold, walked over the spans of a tile.

ghost use Rattle.std.specs.Prelude.{◌≡◌, ℕ, ◌<◌, ◌+◌, ◌==◌};
ghost use Rattle.std.specs.Int.{bit_at};
ghost use Rattle.gfxspec.specs.Limits.{side_bound};
ghost use Rattle.gfxspec.specs.Raster.{centre, covers};
ghost use Rattle.edges.specs.Walk.{IsNearBegin};

use crate::EdgeSet;
use crate::signs::SignLanes;
use snap::SnapTri;
use std::marker::Model;
use std::simd::prelude::*;

/// Three edges at eight pixels of a row. Contracts see the triangle, the pixel where the walk began and the first of the eight.
/// What is told of the edges is promised within 32 rows and columns of the beginning.
#[derive(Drop)]
pub struct EdgeWalk<'a> {
    pub(crate) triangle: &'a SnapTri,
    pub(crate) left: u32,
    pub(crate) top: u32,
    pub(crate) x: u32,
    pub(crate) y: u32,
    pub(crate) first: SignLanes,
    pub(crate) second: SignLanes,
    pub(crate) third: SignLanes,
}

impl<'a> Model for EdgeWalk<'a> {
    ghost use Rattle.edges.specs.Walk.{EdgePlace};
    ghost use Rattle.edges.specs.WalkInside.{place_of, IsAt};

    ghost Value = { EdgePlace };

    ghost view = { place_of };

    ghost invariant = { IsAt };
}

impl EdgeSet {
    /// A walk that begins at the eight pixels from (x, y) on.
    pub fn walk(&self, x: u32, y: u32) -> EdgeWalk<'_>
        requires x { x < side_bound }
        requires y { y < side_bound }
        ensures { result ≡ record { triangle = self.now; left = x; top = y; x = x; y = y } }
    {
        EdgeWalk {
            triangle: &self.triangle,
            left: x,
            top: y,
            x,
            y,
            first: SignLanes::of(self.functions[0], x, y),
            second: SignLanes::of(self.functions[1], x, y),
            third: SignLanes::of(self.functions[2], x, y),
        }
    }
}

impl<'a> EdgeWalk<'a> {
    /// Bit j is set where the triangle covers the centre of the pixel j to the right of the walk's: where all three edges hold.
    #[inline(always)]
    pub fn covered(&self) -> u8
        ensures { (j : ℕ) → j < 8 → IsNearBegin self.now j → (bit_at result j == 1) ≡ covers self.now.triangle (centre (self.now.x + j) self.now.y) }
    {
        let any = self.first.lanes | self.second.lanes | self.third.lanes;
        any.simd_ge(i32x8::splat(0)).to_bitmask() as u8
    }

    /// Goes one row down.
    #[inline(always)]
    pub fn down(&mut self)
        requires { self.old.y < side_bound }
        ensures { self.new ≡ record self.old { y = self.old.y + 1 } }
    {
        self.first = self.first.down();
        self.second = self.second.down();
        self.third = self.third.down();
        self.y += 1;
    }

    /// Goes eight pixels to the right, to the next span of the row.
    #[inline(always)]
    pub fn eight_right(&mut self)
        requires { self.old.x < side_bound }
        ensures { self.new ≡ record self.old { x = self.old.x + 8 } }
    {
        self.first = self.first.eight_right();
        self.second = self.second.eight_right();
        self.third = self.third.eight_right();
        self.x += 8;
    }

    /// The same walk once more, for the rows of one column of spans.
    #[inline(always)]
    pub fn copied(&self) -> EdgeWalk<'a>
        ensures { result ≡ self.now }
    {
        EdgeWalk {
            triangle: self.triangle,
            left: self.left,
            top: self.top,
            x: self.x,
            y: self.y,
            first: self.first,
            second: self.second,
            third: self.third,
        }
    }
}
