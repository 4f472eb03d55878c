//! A small triangle over a tile, under a brush that tests depth alone: in columns of four pixels, without a branch in a row.

ghost use Rattle.std.specs.Prelude.{◌≡◌, ◌<◌, ◌≤◌, ◌+◌, ◌*◌, ◌&&◌, ℕ, slice_index};
ghost use Rattle.tileblock.specs.QuadStored.{QuadStored, quad_pixel};
ghost use Rattle.tileprog.specs.Brushes.{tested_by};
ghost use Rattle.tileprog.specs.Counting.{one_if, stroke_count};
ghost use Rattle.tileprog.specs.Quads.{IsQuads, QuadDrew, edges_at, walk_at, drawn_quad, deepened_quad, painted_quad, picked, sum4};
ghost use Rattle.tileprog.specs.Spreads.{SpreadDrew, stroke_of};

use crate::brushes::DepthBrush;
use crate::draw::TileTriangle;
use depthplane::DepthQuads;
use edges::EdgeQuads;
use gfxspec::Compare;
use lanes::{add4, compared4, select4, within4, write4};
use tileblock::TilePixels;

/// Some of four pixels of a row: the number of the quad in a row of a tile, the row, and a 1 for each pixel that is picked.
#[derive(Clone, Copy)]
struct QuadPixels {
    quad: u32,
    row: u32,
    picked: [u32; 4],
    ghost in_row: { quad < 8 },
    ghost in_tile: { row < 32 },
}

/// Stores depths at these pixels, if depths are to be stored; the old depths are those that are stored.
#[inline(always)]
fn keep_quad(
    block: &mut TilePixels,
    pixels: QuadPixels,
    new: &[u32; 4],
    old: &[u32; 4],
    write: bool,
)
    requires { (j : ℕ) → j < 4 → slice_index old.now j ≡ (quad_pixel block.old pixels.quad pixels.row j).ds.depth }
    ensures { QuadStored block.old block.new pixels.quad pixels.row (deepened_quad write pixels.picked new.now) }
{
    if write {
        let kept = select4(&pixels.picked, new, old);
        block.set_depth_quad(pixels.quad, pixels.row, kept);
    }
}

/// Writes the colours of these pixels.
#[inline(always)]
fn paint_quad(block: &mut TilePixels, pixels: QuadPixels, brush: &DepthBrush)
    ensures { QuadStored block.old block.new pixels.quad pixels.row (painted_quad brush.now.brush pixels.picked) }
{
    let old = block.color_quad(pixels.quad, pixels.row);
    let new = write4(brush.colors(), &old);
    let painted = select4(&pixels.picked, &new, &old);
    block.set_color_quad(pixels.quad, pixels.row, painted);
}

/// Draws these pixels; the answer has a 1 for each that passes.
#[inline(always)]
fn draw_quad(
    block: &mut TilePixels,
    pixels: QuadPixels,
    new: &[u32; 4],
    brush: &DepthBrush,
) -> [u32; 4]
    ensures block { QuadStored block.old block.new pixels.quad pixels.row (drawn_quad brush.now.brush pixels.picked new.now) }
    ensures passed { (j : ℕ) → j < 4 → slice_index result j ≡ one_if (picked pixels.picked j && (tested_by brush.now.brush (slice_index new.now j) (quad_pixel block.old pixels.quad pixels.row j).ds).passed) }
{
    let QuadPixels { quad, row, picked } = pixels;
    let old = block.depth_quad(quad, row);
    let deep = compared4(brush.func, new, &old);
    let ones = select4(&picked, &deep, &[0; 4]);
    let passed = QuadPixels {
        quad,
        row,
        picked: ones,
    };
    keep_quad(block, passed, new, &old, brush.write);
    paint_quad(block, passed, brush);
    ones
}

/// The sum of four counts of pixels in a column.
#[inline(always)]
fn sum_of(counts: [u32; 4]) -> u32
    requires { (j : ℕ) → j < 4 → slice_index counts j ≤ 32 }
    ensures { result ≡ sum4 counts }
{
    counts[0] + counts[1] + counts[2] + counts[3]
}

/// One column of four pixels, in the rows of the clip rectangle; the answer is how many pixels pass.
#[inline(always)]
fn draw_column(
    block: &mut TilePixels,
    triangle: &TileTriangle<'_>,
    quad: u32,
    edges: &EdgeQuads<'_>,
    walk: &DepthQuads<'_>,
    brush: &DepthBrush,
) -> u32
    requires over { IsQuads triangle.now block.old.rect }
    requires first { triangle.now.first ≤ quad }
    requires past { quad < triangle.now.past }
    requires brush { brush.now.brush ≡ triangle.now.brush.now }
    requires edges { edges.now ≡ edges_at triangle.now block.old.rect quad triangle.now.clip.top }
    requires walk { walk.now ≡ walk_at triangle.now block.old.rect quad triangle.now.clip.top }
    ensures { QuadDrew (stroke_of triangle.now) block.old block.new (block.old.rect.left + 4 * quad) result }
{
    let clip = triangle.clip;
    let rect = block.rect();
    let within = within4(rect.left + 4 * quad, clip.left, clip.right);
    let mut edges = edges.copied();
    let mut walk = walk.copied();
    let mut counts = [0u32; 4];
    for row in clip.top - rect.top..clip.bottom - rect.top {
        let covered = edges.covered();
        let cover = select4(&within, &covered, &[0; 4]);
        let pixels = QuadPixels {
            quad,
            row,
            picked: cover,
        };
        let depths = walk.depths();
        let ones = draw_quad(block, pixels, &depths, brush);
        let more = add4(&counts, &ones);
        counts = more;
        edges.down();
        walk.down();
    }
    sum_of(counts)
}

/// A triangle in columns of four, from where its walks begin; the answer is how many pixels pass.
#[inline(always)]
fn draw_columns(
    block: &mut TilePixels,
    triangle: &TileTriangle<'_>,
    mut edges: EdgeQuads<'_>,
    mut walk: DepthQuads<'_>,
    brush: DepthBrush,
) -> u32
    requires over { IsQuads triangle.now block.old.rect }
    requires brush { brush.brush ≡ triangle.now.brush.now }
    requires edges { edges ≡ edges_at triangle.now block.old.rect triangle.now.first triangle.now.clip.top }
    requires walk { walk ≡ walk_at triangle.now block.old.rect triangle.now.first triangle.now.clip.top }
    ensures { SpreadDrew (stroke_of triangle.now) block.old block.new result }
{
    let mut passed = 0u32;
    for quad in triangle.first..triangle.past {
        let more = draw_column(block, triangle, quad, &edges, &walk, &brush);
        passed += more;
        edges.four_right();
        walk.four_right();
    }
    passed
}

/// The same, with the comparison known to each of the loops.
#[inline(always)]
fn draw_compared(
    block: &mut TilePixels,
    triangle: &TileTriangle<'_>,
    edges: EdgeQuads<'_>,
    walk: DepthQuads<'_>,
    brush: DepthBrush,
) -> u32
    requires over { IsQuads triangle.now block.old.rect }
    requires brush { brush.brush ≡ triangle.now.brush.now }
    requires edges { edges ≡ edges_at triangle.now block.old.rect triangle.now.first triangle.now.clip.top }
    requires walk { walk ≡ walk_at triangle.now block.old.rect triangle.now.first triangle.now.clip.top }
    ensures { SpreadDrew (stroke_of triangle.now) block.old block.new result }
{
    match brush.func {
        Compare::Never => draw_columns(block, triangle, edges, walk, brush.by(Compare::Never)),
        Compare::Less => draw_columns(block, triangle, edges, walk, brush.by(Compare::Less)),
        Compare::Equal => draw_columns(block, triangle, edges, walk, brush.by(Compare::Equal)),
        Compare::LessEqual => {
            draw_columns(block, triangle, edges, walk, brush.by(Compare::LessEqual))
        }
        Compare::Greater => draw_columns(block, triangle, edges, walk, brush.by(Compare::Greater)),
        Compare::NotEqual => {
            draw_columns(block, triangle, edges, walk, brush.by(Compare::NotEqual))
        }
        Compare::GreaterEqual => {
            draw_columns(
                block,
                triangle,
                edges,
                walk,
                brush.by(Compare::GreaterEqual),
            )
        }
        Compare::Always => draw_columns(block, triangle, edges, walk, brush.by(Compare::Always)),
    }
}

/// The same; where no bit of a stored colour is kept, that too is known to each of the loops, which then read no colour.
#[inline(always)]
fn draw_painted(
    block: &mut TilePixels,
    triangle: &TileTriangle<'_>,
    edges: EdgeQuads<'_>,
    walk: DepthQuads<'_>,
    brush: DepthBrush,
) -> u32
    requires over { IsQuads triangle.now block.old.rect }
    requires brush { brush.brush ≡ triangle.now.brush.now }
    requires edges { edges ≡ edges_at triangle.now block.old.rect triangle.now.first triangle.now.clip.top }
    requires walk { walk ≡ walk_at triangle.now block.old.rect triangle.now.first triangle.now.clip.top }
    ensures { SpreadDrew (stroke_of triangle.now) block.old block.new result }
{
    if brush.keep == 0 {
        draw_compared(block, triangle, edges, walk, brush.keeping(0))
    } else {
        draw_compared(block, triangle, edges, walk, brush)
    }
}

/// A small triangle under a brush that tests depth alone; the answer is how many pixels pass. Whether depths are stored is known to each of
/// the loops too.
#[inline(always)]
pub(crate) fn draw_small(
    block: &mut TilePixels,
    triangle: &TileTriangle<'_>,
    edges: EdgeQuads<'_>,
    walk: DepthQuads<'_>,
    brush: DepthBrush,
) -> u32
    requires over { IsQuads triangle.now block.old.rect }
    requires brush { brush.brush ≡ triangle.now.brush.now }
    requires edges { edges ≡ edges_at triangle.now block.old.rect triangle.now.first triangle.now.clip.top }
    requires walk { walk ≡ walk_at triangle.now block.old.rect triangle.now.first triangle.now.clip.top }
    ensures { SpreadDrew (stroke_of triangle.now) block.old block.new result }
{
    if brush.write {
        draw_painted(block, triangle, edges, walk, brush.storing(true))
    } else {
        draw_painted(block, triangle, edges, walk, brush.storing(false))
    }
}
