//! Where a triangle's edges hold, walked over columns of four pixels.

ghost use Rattle.std.specs.Prelude.{◌≡◌, ℕ, ◌<◌, ◌+◌, slice_index, if◌then◌else◌};
ghost use Rattle.gfxspec.specs.Limits.{side_bound};
ghost use Rattle.gfxspec.specs.Raster.{centre, covers};
ghost use Rattle.edges.specs.Walk.{IsNearBegin};

use crate::EdgeSet;
use crate::signs::QuadSigns;
use snap::SnapTri;
use std::marker::Model;
use std::simd::prelude::*;

/// Three edges at four pixels of a row. Contracts see the triangle, the pixel where the walk began and the first of the four.
/// What is told of the edges is promised within 32 rows and columns of the beginning.
#[derive(Drop)]
pub struct EdgeQuads<'a> {
    pub(crate) triangle: &'a SnapTri,
    pub(crate) left: u32,
    pub(crate) top: u32,
    pub(crate) x: u32,
    pub(crate) y: u32,
    pub(crate) first: QuadSigns,
    pub(crate) second: QuadSigns,
    pub(crate) third: QuadSigns,
}

impl<'a> Model for EdgeQuads<'a> {
    ghost use Rattle.edges.specs.Walk.{EdgePlace};
    ghost use Rattle.edges.specs.QuadInside.{place_of, IsAt};

    ghost Value = { EdgePlace };

    ghost view = { place_of };

    ghost invariant = { IsAt };
}

impl EdgeSet {
    /// A walk that begins at the four pixels from (x, y) on.
    #[inline(always)]
    pub fn quads(&self, x: u32, y: u32) -> EdgeQuads<'_>
        requires x { x < side_bound }
        requires y { y < side_bound }
        ensures { result ≡ record { triangle = self.now; left = x; top = y; x = x; y = y } }
    {
        EdgeQuads {
            triangle: &self.triangle,
            left: x,
            top: y,
            x,
            y,
            first: QuadSigns::of(self.functions[0], x, y),
            second: QuadSigns::of(self.functions[1], x, y),
            third: QuadSigns::of(self.functions[2], x, y),
        }
    }
}

impl<'a> EdgeQuads<'a> {
    /// Number j is 1 where the triangle covers the centre of the pixel j to the right of the walk's, and else 0.
    #[inline(always)]
    pub fn covered(&self) -> [u32; 4]
        ensures { (j : ℕ) → j < 4 → IsNearBegin self.now j → slice_index result j ≡ (if covers self.now.triangle (centre (self.now.x + j) self.now.y) then 1 else 0) }
    {
        let any = self.first.lanes | self.second.lanes | self.third.lanes;
        any.simd_ge(i32x4::splat(0))
            .select(u32x4::splat(1), u32x4::splat(0))
            .to_array()
    }

    /// Goes one row down.
    #[inline(always)]
    pub fn down(&mut self)
        requires { self.old.y < side_bound }
        ensures { self.new ≡ record self.old { y = self.old.y + 1 } }
    {
        self.first = self.first.down();
        self.second = self.second.down();
        self.third = self.third.down();
        self.y += 1;
    }

    /// Goes four pixels to the right.
    #[inline(always)]
    pub fn four_right(&mut self)
        requires { self.old.x < side_bound }
        ensures { self.new ≡ record self.old { x = self.old.x + 4 } }
    {
        self.first = self.first.four_right();
        self.second = self.second.four_right();
        self.third = self.third.four_right();
        self.x += 4;
    }

    /// The same walk once more, for the rows of one column.
    #[inline(always)]
    pub fn copied(&self) -> EdgeQuads<'a>
        ensures { result ≡ self.now }
    {
        EdgeQuads {
            triangle: self.triangle,
            left: self.left,
            top: self.top,
            x: self.x,
            y: self.y,
            first: self.first,
            second: self.second,
            third: self.third,
        }
    }
}
