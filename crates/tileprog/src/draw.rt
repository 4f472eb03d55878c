//! A triangle over a tile.

ghost use Rattle.std.specs.Prelude.{◌≡◌, ◌≤◌, ◌+◌, IfSome, IsNone};
ghost use Rattle.gfxspec.specs.Limits.{side_bound};
ghost use Rattle.gfxspec.specs.Tiles.{IsInTile};
ghost use Rattle.meaning.specs.Over.{sum_over};
ghost use Rattle.tileprog.specs.Counting.{stroke_count};
ghost use Rattle.tileprog.specs.declared.kind.MadeTests.TheVariants.{DepthAlone};
ghost use Rattle.tileprog.specs.Made.{AreOf};
ghost use Rattle.tileprog.specs.Spreads.{IsOver, SpreadDrew, edges_begin, stroke_of, walk_begins};
ghost use Rattle.tileprog.specs.Strokes.{IsWithin, IsNamed, Stroked};

use crate::brush::Brush;
use crate::brushes::{DepthBrush, StencilBrush};
use crate::column::column_of;
use crate::columns::draw_column;
use crate::kind::{MadeTests, Tests};
use crate::small::draw_small;
use binner::TriSetup;
use depthplane::{Plane, Walks};
use edges::EdgeWalk;
use gfxspec::{Compare, PixelRect};
use lanes::StencilTest;
use tileblock::{DepthBounds, TilePixels};

/// A triangle over the pixels of a clip rectangle in a tile, with what is the same for all its columns of spans.
#[derive(Drop)]
pub(crate) struct TileTriangle<'a> {
    pub(crate) plane: &'a Plane,
    /// The edges that are still to be tested, edge i as bit i.
    pub(crate) mask: u8,
    /// What the depths of the triangle lie between wherever it covers.
    pub(crate) corners: DepthBounds,
    pub(crate) brush: &'a Brush,
    pub(crate) clip: PixelRect,
    /// The first of its spans in a row of the tile, and the one past the last.
    pub(crate) first: u32,
    pub(crate) past: u32,
}

/// A triangle in columns of spans, from where its walks begin; the answer is how many pixels pass. It stands where its tests are known, so
/// that they are decided before the loops.
#[inline(always)]
fn draw_spans<W: Walks>(
    block: &mut TilePixels,
    triangle: &TileTriangle<'_>,
    mut edges: EdgeWalk<'_>,
    mut walk: W,
    tests: &MadeTests<'_>,
) -> u32
    requires over { IsOver triangle.now block.old.rect }
    requires tests { AreOf tests.now triangle.now.brush.now triangle.now.plane.now.triangle }
    requires edges { edges ≡ edges_begin triangle.now block.old.rect }
    requires walk { W.place walk ≡ walk_begins triangle.now block.old.rect }
    ensures { SpreadDrew (stroke_of triangle.now) block.old block.new result }
{
    let rect = block.rect();
    let brush = triangle.brush;
    let mut passed = 0u32;
    for span in triangle.first..triangle.past {
        let column = column_of(
            rect.left + 8 * span,
            span,
            triangle.clip,
            triangle.plane,
            triangle.mask,
            triangle.corners,
        );
        let more = draw_column(block, &column, &edges, &walk, tests, brush);
        passed += more;
        if span + 1 == triangle.past {
            return passed;
        }
        edges.eight_right();
        walk.eight_right();
    }
    passed
}

/// The same under a brush that tests depth alone, with the comparison known to each of the loops.
#[inline(never)]
fn draw_compared<W: Walks>(
    block: &mut TilePixels,
    triangle: &TileTriangle<'_>,
    edges: EdgeWalk<'_>,
    walk: W,
    func: Compare,
    write: bool,
) -> u32
    requires over { IsOver triangle.now block.old.rect }
    requires tests { AreOf (DepthAlone func write) triangle.now.brush.now triangle.now.plane.now.triangle }
    requires edges { edges ≡ edges_begin triangle.now block.old.rect }
    requires walk { W.place walk ≡ walk_begins triangle.now block.old.rect }
    ensures { SpreadDrew (stroke_of triangle.now) block.old block.new result }
{
    match func {
        Compare::Never => {
            let tests = MadeTests::DepthAlone(Compare::Never, write);
            draw_spans(block, triangle, edges, walk, &tests)
        }
        Compare::Less => {
            let tests = MadeTests::DepthAlone(Compare::Less, write);
            draw_spans(block, triangle, edges, walk, &tests)
        }
        Compare::Equal => {
            let tests = MadeTests::DepthAlone(Compare::Equal, write);
            draw_spans(block, triangle, edges, walk, &tests)
        }
        Compare::LessEqual => {
            let tests = MadeTests::DepthAlone(Compare::LessEqual, write);
            draw_spans(block, triangle, edges, walk, &tests)
        }
        Compare::Greater => {
            let tests = MadeTests::DepthAlone(Compare::Greater, write);
            draw_spans(block, triangle, edges, walk, &tests)
        }
        Compare::NotEqual => {
            let tests = MadeTests::DepthAlone(Compare::NotEqual, write);
            draw_spans(block, triangle, edges, walk, &tests)
        }
        Compare::GreaterEqual => {
            let tests = MadeTests::DepthAlone(Compare::GreaterEqual, write);
            draw_spans(block, triangle, edges, walk, &tests)
        }
        Compare::Always => {
            let tests = MadeTests::DepthAlone(Compare::Always, write);
            draw_spans(block, triangle, edges, walk, &tests)
        }
    }
}

/// The same under other tests, which are asked for in each column.
#[inline(never)]
fn draw_others<W: Walks>(
    block: &mut TilePixels,
    triangle: &TileTriangle<'_>,
    edges: EdgeWalk<'_>,
    walk: W,
    tests: &MadeTests<'_>,
) -> u32
    requires over { IsOver triangle.now block.old.rect }
    requires tests { AreOf tests.now triangle.now.brush.now triangle.now.plane.now.triangle }
    requires edges { edges ≡ edges_begin triangle.now block.old.rect }
    requires walk { W.place walk ≡ walk_begins triangle.now block.old.rect }
    ensures { SpreadDrew (stroke_of triangle.now) block.old block.new result }
{
    draw_spans(block, triangle, edges, walk, tests)
}

/// A triangle under tests that are made, from where its walks begin; the answer is how many pixels pass.
#[inline(always)]
fn draw_walked<W: Walks>(
    block: &mut TilePixels,
    triangle: &TileTriangle<'_>,
    edges: EdgeWalk<'_>,
    walk: W,
    tests: &MadeTests<'_>,
) -> u32
    requires over { IsOver triangle.now block.old.rect }
    requires tests { AreOf tests.now triangle.now.brush.now triangle.now.plane.now.triangle }
    requires edges { edges ≡ edges_begin triangle.now block.old.rect }
    requires walk { W.place walk ≡ walk_begins triangle.now block.old.rect }
    ensures { SpreadDrew (stroke_of triangle.now) block.old block.new result }
{
    match tests {
        MadeTests::DepthAlone(func, write) => {
            draw_compared(block, triangle, edges, walk, *func, *write)
        }
        MadeTests::Nothing | MadeTests::Both(_, _) => {
            draw_others(block, triangle, edges, walk, tests)
        }
    }
}

/// A triangle over the pixels of a clip rectangle in a tile, under tests that are made; the answer is how many pass.
#[inline(never)]
fn draw_tested(
    block: &mut TilePixels,
    triangle: &TriSetup,
    mask: u8,
    tests: &MadeTests<'_>,
    brush: &Brush,
    clip: PixelRect,
) -> u32
    requires within { IsWithin clip block.old.rect }
    requires tile { IsInTile block.old.rect }
    requires wide { block.old.rect.left + 32 ≤ side_bound }
    requires high { block.old.rect.top + 32 ≤ side_bound }
    requires named { IsNamed triangle.now.plane mask block.old.rect }
    requires tests { AreOf tests.now brush.now triangle.now.plane.triangle }
    ensures drew { Stroked (record { brush = brush.now; plane = triangle.now.plane; mask = mask; clip = clip }) block.old block.new }
    ensures count { result ≡ sum_over block.old.rect (stroke_count (record { brush = brush.now; plane = triangle.now.plane; mask = mask; clip = clip }) block.old) }
    ensures few { result ≤ 1024 }
{
    let rect = block.rect();
    let first = (clip.left - rect.left) / 8;
    let left = rect.left + 8 * first;
    let plane = &triangle.plane;
    let edges = triangle.edges.walk(left, clip.top);
    let over = TileTriangle {
        plane,
        mask,
        corners: DepthBounds {
            least: triangle.least_depth,
            greatest: triangle.greatest_depth,
        },
        brush,
        clip,
        first,
        past: (clip.right - rect.left + 7) / 8,
    };
    if plane.is_biased() {
        let biased = plane.walk_eight_biased(left, clip.top);
        return draw_walked(block, &over, edges, biased, tests);
    }
    let walk = plane.walk_eight(left, clip.top);
    draw_walked(block, &over, edges, walk, tests)
}

/// A small triangle under a brush that tests depth alone, in columns of four pixels, if its depths are sure and have no bias; the answer is
/// how many pixels pass.
#[inline(always)]
pub(crate) fn draw_quads(
    block: &mut TilePixels,
    triangle: &TriSetup,
    mask: u8,
    brush: &DepthBrush,
    clip: PixelRect,
) -> Option<u32>
    requires within { IsWithin clip block.old.rect }
    requires tile { IsInTile block.old.rect }
    requires wide { block.old.rect.left + 32 ≤ side_bound }
    requires high { block.old.rect.top + 32 ≤ side_bound }
    requires named { IsNamed triangle.now.plane mask block.old.rect }
    ensures drew { IfSome result (SpreadDrew (record { brush = brush.now.brush; plane = triangle.now.plane; mask = mask; clip = clip }) block.old block.new) }
    ensures none { IsNone result → block.new ≡ block.old }
{
    let rect = block.rect();
    let first = (clip.left - rect.left) / 4;
    let left = rect.left + 4 * first;
    let plane = &triangle.plane;
    let walk = plane.quads(left, clip.top)?;
    let edges = triangle.edges.quads(left, clip.top);
    let (least, greatest) = (triangle.least_depth, triangle.greatest_depth);
    let over = TileTriangle {
        plane,
        mask,
        corners: DepthBounds { least, greatest },
        brush: &brush.brush,
        clip,
        first,
        past: (clip.right - rect.left + 3) / 4,
    };
    Some(draw_small(block, &over, edges, walk, *brush))
}

/// A triangle over the pixels of a clip rectangle in a tile; the answer is how many pass.
pub(crate) fn draw(
    block: &mut TilePixels,
    triangle: &TriSetup,
    mask: u8,
    brush: &Brush,
    clip: PixelRect,
) -> u32
    requires within { IsWithin clip block.old.rect }
    requires tile { IsInTile block.old.rect }
    requires wide { block.old.rect.left + 32 ≤ side_bound }
    requires high { block.old.rect.top + 32 ≤ side_bound }
    requires named { IsNamed triangle.now.plane mask block.old.rect }
    ensures drew { Stroked (record { brush = brush.now; plane = triangle.now.plane; mask = mask; clip = clip }) block.old block.new }
    ensures count { result ≡ sum_over block.old.rect (stroke_count (record { brush = brush.now; plane = triangle.now.plane; mask = mask; clip = clip }) block.old) }
    ensures few { result ≤ 1024 }
{
    match brush.tests {
        Tests::Open => draw_tested(block, triangle, mask, &MadeTests::Nothing, brush, clip),
        Tests::Depth(func, write) => {
            draw_tested(
                block,
                triangle,
                mask,
                &MadeTests::DepthAlone(func, write),
                brush,
                clip,
            )
        }
        Tests::Stencil => {
            let tested = StencilBrush {
                test: StencilTest::of(&brush.state, brush.front, brush.reference),
                brush: *brush,
            };
            let tests = MadeTests::Both(&tested, &triangle.edges);
            draw_tested(block, triangle, mask, &tests, brush, clip)
        }
    }
}
