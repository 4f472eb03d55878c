//! The three edges of a snapped triangle, as numbers that tell at which pixels each one holds.
//!
//! Corners are in 1/256 pixel, values in 1/65,536 of a pixel. The trick: each edge's side is turned so that the inside
//! lies above 0, and 1 is taken off where the edge is neither top nor left, so that one comparison with 0 decides the
//! cover rule, ties included, and a step from pixel to pixel is one addition.
#![tactic(auto)]

mod quads;
mod reach;
mod signs;
mod walk;

ghost use Rattle.std.specs.Prelude.{◌≡◌, ◌≢◌, ◌↔◌, ℕ, ◌≤◌, ◌<◌, ◌^◌, ◌+◌, ℤ, pos, neg_ℤ, ◌≤ℤ◌, ◌+ℤ◌, ◌*ℤ◌, unsigned_abs, IsNone, IfSome, IsTrue};
ghost use Rattle.gfxspec.specs.Limits.{side_bound, walk_bound};
ghost use Rattle.gfxspec.specs.Raster.{Edge, area, centre, covers, edge, edge_holds, side_of};
ghost use Rattle.gfxspec.specs.Tiles.{IsIn};
ghost use Rattle.snap.specs.Bounds.{step_bound};
ghost use Rattle.snap.specs.Corners.{triangle_of};
ghost use Rattle.snap.specs.Sides.{IsSideOf, IsSmallSide};
ghost use Rattle.edges.specs.Extremes.{IsWithinExtremes};
ghost use Rattle.edges.specs.Function.{IsFunctionOf, IsSmall, linear, unpacked};
ghost use Rattle.edges.specs.Partition.{SharedEdgeCoversOnce, SharedEdgeCoversAll};
ghost use Rattle.edges.specs.Value.{edge_value, bias, goes_up_or_right};

use crate::reach::centres_between;
use gfxspec::PixelRect;
pub use quads::EdgeQuads;
use snap::{Side, Sides, SnapTri};
use std::marker::Model;
pub use walk::EdgeWalk;

/// An edge's value at the centre of pixel (0, 0), and what a pixel to the right or down adds to it.
#[derive(Clone, Copy, Debug)]
struct EdgeFunction {
    origin: i64,
    step_x: i64,
    step_y: i64,
}

/// The same as a set keeps it: the origin in 1/65,536 of a pixel, and the steps, which are multiples of 256, in 1/256
/// of one.
#[derive(Clone, Copy, Debug)]
struct PackedFunction {
    origin: i64,
    step_x: i32,
    step_y: i32,
}

/// The edges of a triangle whose area is not zero. Edge i lies opposite vertex i. Contracts see it as its triangle.
#[derive(Debug, Drop)]
pub struct EdgeSet {
    functions: [PackedFunction; 3],
    triangle: SnapTri,
}

impl Model for EdgeSet {
    ghost use Rattle.gfxspec.specs.Raster.{Triangle};

    ghost Value = { Triangle };

    ghost use Rattle.snap.specs.Corners.{triangle_of};
    ghost use Rattle.edges.specs.Function.{IsSetOf};

    ghost view = { λ s. triangle_of s.triangle };

    ghost invariant = { IsSetOf };
}

/// What is taken off so that an edge that is neither top nor left doesn't hold on its own line, by what a pixel to the right
/// or down adds to the side.
fn bias_of(step_x: i64, step_y: i64) -> i64
    ensures value { result ≡ bias (goes_up_or_right step_y (neg_ℤ step_x)) }
    ensures bound { unsigned_abs result ≤ 1 }
{
    let is_top_or_left = step_x > 0 || (step_x == 0 && step_y > 0);
    if is_top_or_left { 0 } else { 1 }
}

/// A step in 1/256 of a pixel: an edge's steps are multiples of 256.
fn short_step(step: i64) -> i32
    requires { unsigned_abs step ≤ step_bound }
    ensures small { unsigned_abs result ≤ 2 ^ 21 }
    ensures whole { (n : ℤ) → step ≡ pos 256 *ℤ n → result ≡ n }
{
    (step >> 8) as i32
}

impl EdgeFunction {
    /// The function of an edge, from the side at it.
    fn of(side: Side) -> EdgeFunction
        requires { IsSmallSide side }
        ensures small { IsSmall result }
        ensures function { (e : Edge) (area : ℤ) → area ≢ pos 0 → area ≡ side_of e e.opposite → IsSideOf side area e.start e.end → IsFunctionOf result e }
    {
        EdgeFunction {
            origin: side.origin - bias_of(side.step_x, side.step_y),
            step_x: side.step_x,
            step_y: side.step_y,
        }
    }

    /// The value at the centre of pixel (x, y).
    fn at(self, x: u32, y: u32) -> i64
        requires small { IsSmall self }
        requires x { x < side_bound }
        requires y { y < side_bound }
        ensures { result ≡ linear self x y }
    {
        self.origin + x as i64 * self.step_x + y as i64 * self.step_y
    }
}

impl PackedFunction {
    /// A function, packed.
    #[inline(always)]
    fn of(function: EdgeFunction) -> PackedFunction
        requires { IsSmall function }
        ensures { (e : Edge) → IsFunctionOf function e → unpacked result ≡ function }
    {
        PackedFunction {
            origin: function.origin,
            step_x: short_step(function.step_x),
            step_y: short_step(function.step_y),
        }
    }

    /// The function.
    #[inline(always)]
    fn function(self) -> EdgeFunction
        ensures { result ≡ unpacked self }
    {
        EdgeFunction {
            origin: self.origin,
            step_x: 256 * i64::from(self.step_x),
            step_y: 256 * i64::from(self.step_y),
        }
    }
}

impl EdgeSet {
    /// The edges of a triangle, if it has an area
    /// (Direct3D 11.3 Functional Specification, "Rasterization Rules": top-left rule).
    #[inline(always)]
    pub fn of(triangle: &SnapTri) -> Option<EdgeSet>
        ensures none { IsNone result ↔ (area (triangle_of triangle.now) ≡ pos 0) }
        ensures set { IfSome result (λ edges. edges ≡ triangle_of triangle.now) }
    {
        EdgeSet::of_sides(&Sides::of(triangle))
    }

    /// The edges of a triangle whose sides are known, if it has an area.
    #[inline(always)]
    pub fn of_sides(sides: &Sides) -> Option<EdgeSet>
        ensures none { IsNone result ↔ (area (triangle_of sides.now.triangle) ≡ pos 0) }
        ensures set { IfSome result (λ edges. edges ≡ triangle_of sides.now.triangle) }
    {
        if sides.area == 0 {
            return None;
        }
        Some(EdgeSet {
            functions: [
                PackedFunction::of(EdgeFunction::of(sides.first)),
                PackedFunction::of(EdgeFunction::of(sides.second)),
                PackedFunction::of(EdgeFunction::of(sides.third)),
            ],
            triangle: sides.triangle,
        })
    }

    /// The value of edge i at the centre of pixel (x, y): at least 0 exactly where the edge holds there.
    pub fn at(&self, i: usize, x: u32, y: u32) -> i64
        requires edge { i < 3 }
        requires x { x < side_bound }
        requires y { y < side_bound }
        ensures holds { (pos 0 ≤ℤ result) ↔ IsTrue (edge_holds (edge self.now i) (centre x y)) }
        ensures value { result ≡ edge_value (edge self.now i) x y }
        ensures bound { unsigned_abs result ≤ 2 ^ 45 }

        // the same of the value at any other pixel, which stays small as far as twice the greatest target
        ensures anywhere { (u v : ℕ) → (pos 0 ≤ℤ edge_value (edge self.now i) u v) ↔ IsTrue (edge_holds (edge self.now i) (centre u v)) }
        ensures small { (u v : ℕ) → u < walk_bound → v < walk_bound → unsigned_abs (edge_value (edge self.now i) u v) ≤ 2 ^ 45 }
    {
        self.functions[i].function().at(x, y)
    }

    /// What one pixel to the right adds to the value of edge i.
    pub fn step_x(&self, i: usize) -> i64
        requires { i < 3 }
        ensures adds { (x y : ℕ) → edge_value (edge self.now i) (x + 1) y ≡ edge_value (edge self.now i) x y +ℤ result }
        ensures small { unsigned_abs result ≤ step_bound }
    {
        self.functions[i].function().step_x
    }

    /// What one pixel down adds to the value of edge i.
    pub fn step_y(&self, i: usize) -> i64
        requires { i < 3 }
        ensures adds { (x y : ℕ) → edge_value (edge self.now i) x (y + 1) ≡ edge_value (edge self.now i) x y +ℤ result }
        ensures small { unsigned_abs result ≤ step_bound }
    {
        self.functions[i].function().step_y
    }

    /// The pixels among the first 4,096 each way whose centres lie between the corners' least and greatest places in
    /// both directions. No other of them has a covered centre.
    #[inline(always)]
    pub fn bounds(&self) -> PixelRect
        ensures exact { (x y : ℕ) → x < side_bound → y < side_bound → IsIn result x y ↔ IsWithinExtremes self.now (centre x y) }
        ensures covered { (x y : ℕ) → x < side_bound → y < side_bound → IsTrue (covers self.now (centre x y)) → IsIn result x y }
        ensures right { result.right ≤ side_bound }
        ensures bottom { result.bottom ≤ side_bound }
    {
        let across = centres_between(&self.triangle.x);
        let down = centres_between(&self.triangle.y);
        PixelRect {
            left: across.first,
            top: down.first,
            right: across.past,
            bottom: down.past,
        }
    }

    /// Reads a part, so that the memory is on its way. The number is no result: a caller keeps it only so that the read is done.
    #[inline]
    pub fn prefetch(&self) -> u64 {
        u64::from(self.functions[2].step_y.unsigned_abs())
    }
}

/// Two triangles on the two sides of a shared edge leave no gap along it and cover none of its points twice.
pub fn partition_law()
    ensures once { SharedEdgeCoversOnce }
    ensures all { SharedEdgeCoversAll }
{}
