//! Tells which edges of a triangle matter in a rectangle of pixels.
//!
//! Rectangles are in pixels, and the centres of their pixels count. The trick: an edge's value is linear, so over a
//! rectangle it is greatest and least at a corner that the signs of its two steps pick, and two values an edge decide
//! exactly.
#![tactic(auto)]

ghost use Rattle.std.specs.Prelude.{◌≡◌, ℕ, ◌≤◌, ◌<◌, ◌+◌, pos, ◌≤ℤ◌, ◌<ℤ◌};
ghost use Rattle.std.specs.Bool.{MatchBool};
ghost use Rattle.gfxspec.specs.Raster.{edge};
ghost use Rattle.classify.specs.Region.{IsReal, IsGreatest, IsLeast, IsClassOf, HoldsEverywhere, HoldsNowhere, HoldsSomewhere, FailsSomewhere};

use edges::EdgeSet;
use gfxspec::PixelRect;

/// What a rectangle of pixels is to a triangle.
#[derive(Clone, Copy, Debug, PartialEq, Eq)]
pub enum Class {
    /// Some edge holds at none of the centres.
    Outside,
    /// Bit i is set where edge i fails at some centre.
    Cut(u8),
}

/// Where a value that changes by the same step from place to place is greatest.
fn greatest_place(step: i64, low: u32, high: u32) -> u32
    requires { low < high }
    ensures within { low ≤ result }
    ensures below { result < high }
    ensures falling { step <ℤ pos 0 → result ≡ low }
    ensures rising { pos 0 ≤ℤ step → result + 1 ≡ high }
{
    if step < 0 { low } else { high - 1 }
}

/// Where such a value is least.
fn least_place(step: i64, low: u32, high: u32) -> u32
    requires { low < high }
    ensures within { low ≤ result }
    ensures below { result < high }
    ensures falling { step <ℤ pos 0 → result + 1 ≡ high }
    ensures rising { pos 0 ≤ℤ step → result ≡ low }
{
    if step < 0 { high - 1 } else { low }
}

/// The greatest value of edge i at a centre of the rectangle.
fn greatest(edges: &EdgeSet, i: usize, rect: PixelRect) -> i64
    requires edge { i < 3 }
    requires real { IsReal rect }
    ensures { IsGreatest (edge edges.now i) rect result }
{
    let x = greatest_place(edges.step_x(i), rect.left, rect.right);
    let y = greatest_place(edges.step_y(i), rect.top, rect.bottom);
    edges.at(i, x, y)
}

/// The least value of edge i at a centre of the rectangle.
fn least(edges: &EdgeSet, i: usize, rect: PixelRect) -> i64
    requires edge { i < 3 }
    requires real { IsReal rect }
    ensures { IsLeast (edge edges.now i) rect result }
{
    let x = least_place(edges.step_x(i), rect.left, rect.right);
    let y = least_place(edges.step_y(i), rect.top, rect.bottom);
    edges.at(i, x, y)
}

/// Whether edge i holds at no centre of the rectangle; else it holds at some.
fn holds_nowhere(edges: &EdgeSet, i: usize, rect: PixelRect) -> bool
    requires edge { i < 3 }
    requires real { IsReal rect }
    ensures { MatchBool result (HoldsNowhere (edge edges.now i) rect) (HoldsSomewhere (edge edges.now i) rect) }
{
    greatest(edges, i, rect) < 0
}

/// Whether edge i fails at some centre of the rectangle; else it holds at all.
fn fails_somewhere(edges: &EdgeSet, i: usize, rect: PixelRect) -> bool
    requires edge { i < 3 }
    requires real { IsReal rect }
    ensures { MatchBool result (FailsSomewhere (edge edges.now i) rect) (HoldsEverywhere (edge edges.now i) rect) }
{
    least(edges, i, rect) < 0
}

/// What a rectangle of pixels is to the triangle of the edges: outside exactly where some edge holds at none of the
/// centres (Direct3D 11.3 Functional Specification, "Rasterization Rules").
#[inline(always)]
pub fn classify(edges: &EdgeSet, rect: PixelRect) -> Class
    requires { IsReal rect }
    ensures { IsClassOf result edges.now rect }
{
    if holds_nowhere(edges, 0, rect) {
        return Class::Outside;
    }
    if holds_nowhere(edges, 1, rect) {
        return Class::Outside;
    }
    if holds_nowhere(edges, 2, rect) {
        return Class::Outside;
    }
    let first = fails_somewhere(edges, 0, rect);
    let second = fails_somewhere(edges, 1, rect);
    let third = fails_somewhere(edges, 2, rect);
    Class::Cut(u8::from(first) + 2 * u8::from(second) + 4 * u8::from(third))
}
