//! A triangle over a tile, in columns of spans.

ghost use Rattle.std.specs.Prelude.{◌≡◌, ◌<◌, ◌≤◌, ◌+◌, ◌*◌};
ghost use Rattle.tileprog.specs.Kinds.{tests_of};
ghost use Rattle.tileprog.specs.declared.kind.Tests.TheVariants.{Open};
ghost use Rattle.tileprog.specs.Columns.{EdgesAt, IsColumn, ColumnDrew, WalksAt, stroke_in};
ghost use Rattle.tileprog.specs.Made.{AreOf};

use crate::brush::Brush;
use crate::brushes::DepthBrush;
use crate::column::Column;
use crate::kind::MadeTests;
use crate::rows::{depth_row, open_row, pixels_left};
use crate::stencils::stencil_column;
use depthplane::Walks;
use edges::EdgeWalk;
use tileblock::TilePixels;

/// The rows of a column under a brush without tests, with the mask of its edges known to the loop, which walks a copy of its own: that stays
/// in registers.
#[inline(always)]
fn open_rows(
    block: &mut TilePixels,
    column: &Column<'_>,
    mask: u8,
    edges: &EdgeWalk<'_>,
    brush: Brush,
) -> u32
    requires same { mask ≡ column.now.mask }
    requires column { IsColumn column.now block.old.rect }
    requires edges { EdgesAt edges.now column.now block.old.rect column.now.clip.top }
    requires kind { tests_of brush.state ≡ Open }
    ensures { ColumnDrew (stroke_in brush column.now) block.old block.new column.now.x result }
{
    let column = *column;
    let mut edges = edges.copied();
    let rect = block.rect();
    let mut passed = 0u32;
    for row in column.clip.top - rect.top..column.clip.bottom - rect.top {
        let pixels = pixels_left(block, &column, mask, row, &edges);
        let more = open_row(block, &column, pixels, &brush);
        passed += more;
        edges.down();
    }
    passed
}

/// A column under a brush without tests; the answer is how many pixels pass. Where no edge is named, its loop has none.
#[inline(never)]
fn open_column(
    block: &mut TilePixels,
    column: &Column<'_>,
    edges: &EdgeWalk<'_>,
    brush: Brush,
) -> u32
    requires column { IsColumn column.now block.old.rect }
    requires edges { EdgesAt edges.now column.now block.old.rect column.now.clip.top }
    requires kind { tests_of brush.state ≡ Open }
    ensures { ColumnDrew (stroke_in brush column.now) block.old block.new column.now.x result }
{
    if column.mask == 0 {
        open_rows(block, column, 0, edges, brush)
    } else {
        open_rows(block, column, column.mask, edges, brush)
    }
}

/// The same under a brush that tests depth alone.
#[inline(always)]
fn depth_spans<W: Walks>(
    block: &mut TilePixels,
    column: &Column<'_>,
    mask: u8,
    edges: &EdgeWalk<'_>,
    walk: &W,
    brush: DepthBrush,
) -> u32
    requires same { mask ≡ column.now.mask }
    requires column { IsColumn column.now block.old.rect }
    requires edges { EdgesAt edges.now column.now block.old.rect column.now.clip.top }
    requires walk { WalksAt (W.place walk.now) column.now block.old.rect column.now.clip.top }
    ensures { ColumnDrew (stroke_in brush.brush column.now) block.old block.new column.now.x result }
{
    let column = *column;
    let mut edges = edges.copied();
    let mut walk = walk.copied();
    let rect = block.rect();
    let mut passed = 0u32;
    for row in column.clip.top - rect.top..column.clip.bottom - rect.top {
        let pixels = pixels_left(block, &column, mask, row, &edges);
        let more = depth_row(block, &column, pixels, &walk, &brush);
        passed += more;
        edges.down();
        walk.next();
    }
    passed
}

/// The same, with the mask of its edges known to the loop: where none is named, it has none.
#[inline(always)]
fn depth_rows<W: Walks>(
    block: &mut TilePixels,
    column: &Column<'_>,
    edges: &EdgeWalk<'_>,
    walk: &W,
    brush: DepthBrush,
) -> u32
    requires column { IsColumn column.now block.old.rect }
    requires edges { EdgesAt edges.now column.now block.old.rect column.now.clip.top }
    requires walk { WalksAt (W.place walk.now) column.now block.old.rect column.now.clip.top }
    ensures { ColumnDrew (stroke_in brush.brush column.now) block.old block.new column.now.x result }
{
    if column.mask == 0 {
        depth_spans(block, column, 0, edges, walk, brush)
    } else {
        depth_spans(block, column, column.mask, edges, walk, brush)
    }
}

/// The same where no depth has to be mended. It is a function of its own, and no second call of the same one, so that its loops are kept
/// apart, and have no call in them.
#[inline(always)]
fn sure_depth_rows<W: Walks>(
    block: &mut TilePixels,
    column: &Column<'_>,
    edges: &EdgeWalk<'_>,
    walk: &W,
    brush: DepthBrush,
) -> u32
    requires column { IsColumn column.now block.old.rect }
    requires edges { EdgesAt edges.now column.now block.old.rect column.now.clip.top }
    requires walk { WalksAt (W.place walk.now) column.now block.old.rect column.now.clip.top }
    ensures { ColumnDrew (stroke_in brush.brush column.now) block.old block.new column.now.x result }
{
    depth_rows(block, column, edges, walk, brush)
}

/// A column under a brush that tests depth alone; the answer is how many pixels pass. Whether all depths are sure is known to each of
/// the loops, so that they have no call to mend one where they are.
#[inline(always)]
fn depth_column<W: Walks>(
    block: &mut TilePixels,
    column: &Column<'_>,
    edges: &EdgeWalk<'_>,
    walk: &W,
    brush: DepthBrush,
) -> u32
    requires column { IsColumn column.now block.old.rect }
    requires edges { EdgesAt edges.now column.now block.old.rect column.now.clip.top }
    requires walk { WalksAt (W.place walk.now) column.now block.old.rect column.now.clip.top }
    ensures { ColumnDrew (stroke_in brush.brush column.now) block.old block.new column.now.x result }
{
    if walk.is_sure() {
        sure_depth_rows(block, column, edges, walk, brush)
    } else {
        depth_rows(block, column, edges, walk, brush)
    }
}

/// One column of spans, in the rows of the clip rectangle.
#[inline(always)]
pub(crate) fn draw_column<W: Walks>(
    block: &mut TilePixels,
    column: &Column<'_>,
    edges: &EdgeWalk<'_>,
    walk: &W,
    tests: &MadeTests<'_>,
    brush: &Brush,
) -> u32
    requires column { IsColumn column.now block.old.rect }
    requires edges { EdgesAt edges.now column.now block.old.rect column.now.clip.top }
    requires walk { WalksAt (W.place walk.now) column.now block.old.rect column.now.clip.top }
    requires tests { AreOf tests.now brush.now column.now.plane.now.triangle }
    ensures { ColumnDrew (stroke_in brush.now column.now) block.old block.new column.now.x result }
{
    match tests {
        MadeTests::Nothing => open_column(block, column, edges, *brush),
        MadeTests::DepthAlone(func, write) => {
            let tested = DepthBrush {
                func: *func,
                write: *write,
                keep: brush.write.keep,
                brush: *brush,
            };
            depth_column(block, column, edges, walk, tested)
        }
        MadeTests::Both(tested, set) => { stencil_column(block, column, set, edges, walk, tested) }
    }
}
