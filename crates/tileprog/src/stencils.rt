//! Columns under a stencil test, cell by cell: what eight rows have in common is asked once.

ghost use Rattle.std.specs.Prelude.{◌≡◌, ◌<◌, ◌≤◌, ◌+◌, ◌*◌, ℕ, true, false, IsTrue, IfSome, None};
ghost use Rattle.gfxspec.specs.Limits.{side_bound};
ghost use Rattle.lanes.specs.Stencil.{reference_passes};
ghost use Rattle.tileprog.specs.Cells.{AllCovered, HaveOutcome, IsLong, IsStill, Tells};
ghost use Rattle.tileprog.specs.Columns.{EdgesAt, IsCell, IsColumn, ColumnDrew, Continues, WalksAt, stroke_in};

use crate::brush::Brush;
use crate::brushes::StencilBrush;
use crate::cells::{Cell, cover_outcome, depth_outcome, is_long, look_at};
use crate::column::Column;
use crate::rows::{alike_row, cut_row, deep_row, operated_rows, pixels_left, stencil_row};
use crate::spans::{KnownTests, is_still, keeps_colors};
use depthplane::Walks;
use edges::{EdgeSet, EdgeWalk};
use std::ops::Range;
use tileblock::TilePixels;

/// What is known of the depth test of a brush at every pixel.
#[inline(always)]
fn untested(brush: &Brush) -> Option<bool>
    ensures { IfSome result (λ deep. (deep ≡ true) × (brush.now.state.depth ≡ false)) }
{
    if brush.state.depth() {
        None
    } else {
        Some(true)
    }
}

/// These rows of a column, one by one, from where the walks stand; the answer is how many pixels pass. Where depth isn't tested no depth is
/// looked at.
#[inline(never)]
fn each_row<W: Walks>(
    block: &mut TilePixels,
    column: &Column<'_>,
    rows: Range<u32>,
    edges: EdgeWalk<'_>,
    mut walk: W,
    brush: &StencilBrush,
) -> u32
    requires column { IsColumn column.now block.old.rect }
    requires first { column.now.clip.top ≤ block.old.rect.top + rows.start }
    requires order { rows.start ≤ rows.end }
    requires last { block.old.rect.top + rows.end ≤ column.now.clip.bottom }
    requires edges { EdgesAt edges column.now block.old.rect (block.old.rect.top + rows.start) }
    requires walk { WalksAt (W.place walk) column.now block.old.rect (block.old.rect.top + rows.start) }
    ensures { Continues (stroke_in brush.now.brush column.now) block.old block.new column.now.x (block.old.rect.top + rows.start) (block.old.rect.top + rows.end) result }
{
    let known = untested(&brush.brush);
    let mut edges = edges.copied();
    let mut passed = 0u32;
    for at in rows.start..rows.end {
        let pixels = pixels_left(block, column, column.mask, at, &edges);
        let more = stencil_row(block, column, pixels, &walk, known, brush);
        passed += more;
        edges.down();
        walk.next();
    }
    passed
}

/// Eight rows of a column from `row` on, of which all pixels are covered and the depth test passes at all or at none; the answer is how
/// many pass.
#[inline(always)]
fn alike_rows(
    block: &mut TilePixels,
    column: &Column<'_>,
    row: u32,
    known: KnownTests,
    still: bool,
    brush: &StencilBrush,
) -> u32
    requires cell { IsCell column.now block.old.rect row }
    requires covered { AllCovered column.now block.old.rect row (row + 8) }
    requires deep { HaveOutcome known.deep brush.now.brush column.now block.old row (row + 8) }
    requires always { IsTrue known.always → (v : ℕ) → reference_passes brush.now.test v ≡ true }
    requires still { IsTrue still → IsStill brush.now.brush brush.now.test known.deep }
    ensures { Continues (stroke_in brush.now.brush column.now) block.old block.new column.now.x (block.old.rect.top + row) (block.old.rect.top + (row + 8)) result }
{
    let mut passed = 0u32;
    for at in row..row + 8 {
        let more = alike_row(block, column, at, known, still, brush);
        passed += more;
    }
    passed
}

/// The same where the stencil test passes always and no colour changes, two rows at a time.
#[inline(never)]
fn paired_rows(
    block: &mut TilePixels,
    column: &Column<'_>,
    row: u32,
    deep: bool,
    brush: &StencilBrush,
) -> u32
    requires cell { IsCell column.now block.old.rect row }
    requires covered { AllCovered column.now block.old.rect row (row + 8) }
    requires deep { HaveOutcome deep brush.now.brush column.now block.old row (row + 8) }
    requires always { (v : ℕ) → reference_passes brush.now.test v ≡ true }
    requires colors { deep ≡ true → (brush.now.brush.write.keep ≡ 4294967295) × (brush.now.brush.write.flip ≡ 0) }
    ensures { Continues (stroke_in brush.now.brush column.now) block.old block.new column.now.x (block.old.rect.top + row) (block.old.rect.top + (row + 8)) result }
{
    let mut passed = 0u32;
    for pair in 0..4u32 {
        let more = operated_rows(block, column, row + 2 * pair, deep, brush);
        passed += 2 * more;
    }
    passed
}

/// The same where the stencil test passes always: where nothing changes, pixels are only counted.
#[inline(always)]
fn sure_rows(
    block: &mut TilePixels,
    column: &Column<'_>,
    row: u32,
    deep: bool,
    brush: &StencilBrush,
) -> u32
    requires cell { IsCell column.now block.old.rect row }
    requires covered { AllCovered column.now block.old.rect row (row + 8) }
    requires deep { HaveOutcome deep brush.now.brush column.now block.old row (row + 8) }
    requires always { (v : ℕ) → reference_passes brush.now.test v ≡ true }
    ensures { Continues (stroke_in brush.now.brush column.now) block.old block.new column.now.x (block.old.rect.top + row) (block.old.rect.top + (row + 8)) result }
{
    let known = KnownTests { deep, always: true };
    let still = is_still(deep, brush);
    if still {
        return alike_rows(block, column, row, known, true, brush);
    }
    let kept = keeps_colors(deep, &brush.brush);
    if kept {
        return paired_rows(block, column, row, deep, brush);
    }
    alike_rows(block, column, row, known, false, brush)
}

/// The same where the stencil test's outcome may be known: each loop over rows has what is known as a constant.
#[inline(always)]
fn known_rows(
    block: &mut TilePixels,
    column: &Column<'_>,
    row: u32,
    deep: bool,
    brush: &StencilBrush,
) -> u32
    requires cell { IsCell column.now block.old.rect row }
    requires covered { AllCovered column.now block.old.rect row (row + 8) }
    requires deep { HaveOutcome deep brush.now.brush column.now block.old row (row + 8) }
    ensures { Continues (stroke_in brush.now.brush column.now) block.old block.new column.now.x (block.old.rect.top + row) (block.old.rect.top + (row + 8)) result }
{
    let always = brush.test.always_passes();
    if !always {
        let known = KnownTests {
            deep,
            always: false,
        };
        return alike_rows(block, column, row, known, false, brush);
    }
    if deep {
        sure_rows(block, column, row, true, brush)
    } else {
        sure_rows(block, column, row, false, brush)
    }
}

/// So many rows further down along the edges.
#[inline(always)]
fn edges_below(edges: &mut EdgeWalk<'_>, rows: u32)
    requires { edges.old.y + rows ≤ side_bound }
    ensures { edges.new ≡ record edges.old { y = edges.old.y + rows } }
{
    for _ in 0..rows {
        edges.down();
    }
}

/// So many rows further down along the depths.
#[inline(always)]
fn depths_below<W: Walks>(walk: &mut W, rows: u32)
    requires { (W.place walk.old).y + rows ≤ side_bound }
    ensures { W.place walk.new ≡ record (W.place walk.old) { y = (W.place walk.old).y + rows } }
{
    for _ in 0..rows {
        walk.next();
    }
}

/// A cell from `row` on that an edge may cut and of which the depth test's outcome isn't known; the answer is how many pixels pass. The
/// walks begin at the head of the column.
#[inline(always)]
fn walked_rows<W: Walks>(
    block: &mut TilePixels,
    column: &Column<'_>,
    row: u32,
    edges: &EdgeWalk<'_>,
    walk: &W,
    brush: &StencilBrush,
) -> u32
    requires cell { IsCell column.now block.old.rect row }
    requires edges { EdgesAt edges.now column.now block.old.rect column.now.clip.top }
    requires walk { WalksAt (W.place walk.now) column.now block.old.rect column.now.clip.top }
    ensures { Continues (stroke_in brush.now.brush column.now) block.old block.new column.now.x (block.old.rect.top + row) (block.old.rect.top + (row + 8)) result }
{
    let mut here = edges.copied();
    let mut depths = walk.copied();
    edges_below(&mut here, row);
    depths_below(&mut depths, row);
    each_row(block, column, row..row + 8, here, depths, brush)
}

/// A cell of which all pixels are covered and the depth test's outcome isn't known; the answer is how many pixels pass. The walk begins at
/// the head of the column, and no edge is walked along.
#[inline(never)]
fn deep_rows<W: Walks>(
    block: &mut TilePixels,
    column: &Column<'_>,
    row: u32,
    walk: &W,
    brush: &StencilBrush,
) -> u32
    requires cell { IsCell column.now block.old.rect row }
    requires walk { WalksAt (W.place walk.now) column.now block.old.rect column.now.clip.top }
    requires covered { AllCovered column.now block.old.rect row (row + 8) }
    ensures { Continues (stroke_in brush.now.brush column.now) block.old block.new column.now.x (block.old.rect.top + row) (block.old.rect.top + (row + 8)) result }
{
    let mut depths = walk.copied();
    depths_below(&mut depths, row);
    let past = row + 8;
    let mut passed = 0u32;
    for at in row..past {
        let more = deep_row(block, column, at, &depths, brush);
        passed += more;
        depths.next();
    }
    passed
}

/// A cell that an edge may cut, in which the depth test passes at each covered pixel or at none, and the stencil test maybe at each; the
/// answer is how many pixels pass.
#[inline(always)]
fn masked_rows(
    block: &mut TilePixels,
    column: &Column<'_>,
    row: u32,
    edges: &EdgeWalk<'_>,
    known: KnownTests,
    brush: &StencilBrush,
) -> u32
    requires cell { IsCell column.now block.old.rect row }
    requires edges { EdgesAt edges.now column.now block.old.rect column.now.clip.top }
    requires deep { HaveOutcome known.deep brush.now.brush column.now block.old row (row + 8) }
    requires always { IsTrue known.always → (v : ℕ) → reference_passes brush.now.test v ≡ true }
    ensures { Continues (stroke_in brush.now.brush column.now) block.old block.new column.now.x (block.old.rect.top + row) (block.old.rect.top + (row + 8)) result }
{
    let mut here = edges.copied();
    edges_below(&mut here, row);
    let past = row + 8;
    let mut passed = 0u32;
    for at in row..past {
        let pixels = pixels_left(block, column, column.mask, at, &here);
        let more = cut_row(block, column, pixels, known, brush);
        passed += more;
        here.down();
    }
    passed
}

/// The same: each loop over rows has what is known of the stencil test and of the depth test as constants.
#[inline(never)]
fn cut_rows(
    block: &mut TilePixels,
    column: &Column<'_>,
    row: u32,
    edges: &EdgeWalk<'_>,
    deep: bool,
    brush: &StencilBrush,
) -> u32
    requires cell { IsCell column.now block.old.rect row }
    requires edges { EdgesAt edges.now column.now block.old.rect column.now.clip.top }
    requires deep { HaveOutcome deep brush.now.brush column.now block.old row (row + 8) }
    ensures { Continues (stroke_in brush.now.brush column.now) block.old block.new column.now.x (block.old.rect.top + row) (block.old.rect.top + (row + 8)) result }
{
    let always = brush.test.always_passes();
    if !always {
        let known = KnownTests {
            deep,
            always: false,
        };
        return masked_rows(block, column, row, edges, known, brush);
    }
    if deep {
        let known = KnownTests {
            deep: true,
            always: true,
        };
        masked_rows(block, column, row, edges, known, brush)
    } else {
        let known = KnownTests {
            deep: false,
            always: true,
        };
        masked_rows(block, column, row, edges, known, brush)
    }
}

/// A cell that an edge may cut; the answer is how many pixels pass.
#[inline(always)]
fn cut_cell<W: Walks>(
    block: &mut TilePixels,
    column: &Column<'_>,
    cell: &Cell,
    edges: &EdgeWalk<'_>,
    walk: &W,
    brush: &StencilBrush,
) -> u32
    requires cell { IsCell column.now block.old.rect cell.now.row }
    requires edges { EdgesAt edges.now column.now block.old.rect column.now.clip.top }
    requires walk { WalksAt (W.place walk.now) column.now block.old.rect column.now.clip.top }
    requires deep { IfSome cell.now.deep (λ deep. HaveOutcome deep brush.now.brush column.now block.old cell.now.row (cell.now.row + 8)) }
    ensures { Continues (stroke_in brush.now.brush column.now) block.old block.new column.now.x (block.old.rect.top + cell.now.row) (block.old.rect.top + (cell.now.row + 8)) result }
{
    let Some(deep) = cell.deep else {
        return walked_rows(block, column, cell.row, edges, walk, brush);
    };
    cut_rows(block, column, cell.row, edges, deep, brush)
}

/// A cell of a column; the answer is how many pixels pass.
#[inline(always)]
fn cell_rows<W: Walks>(
    block: &mut TilePixels,
    column: &Column<'_>,
    cell: &Cell,
    edges: &EdgeWalk<'_>,
    walk: &W,
    brush: &StencilBrush,
) -> u32
    requires cell { IsCell column.now block.old.rect cell.now.row }
    requires edges { EdgesAt edges.now column.now block.old.rect column.now.clip.top }
    requires walk { WalksAt (W.place walk.now) column.now block.old.rect column.now.clip.top }
    requires told { Tells cell.now brush.now.brush column.now block.old }
    ensures { Continues (stroke_in brush.now.brush column.now) block.old block.new column.now.x (block.old.rect.top + cell.now.row) (block.old.rect.top + (cell.now.row + 8)) result }
{
    let Some(covered) = cell.covered else {
        return cut_cell(block, column, cell, edges, walk, brush);
    };
    if !covered {
        return 0;
    }
    let Some(deep) = cell.deep else {
        return deep_rows(block, column, cell.row, walk, brush);
    };
    known_rows(block, column, cell.row, deep, brush)
}

/// A column in all rows of a tile, cell by cell. The set of its edges is there where one is named, which is known to the loop.
#[inline(always)]
fn each_cell<W: Walks>(
    block: &mut TilePixels,
    column: &Column<'_>,
    set: Option<&EdgeSet>,
    edges: &EdgeWalk<'_>,
    walk: &W,
    brush: &StencilBrush,
) -> u32
    requires column { IsColumn column.now block.old.rect }
    requires long { IsLong column.now block.old.rect }
    requires some { IfSome set (λ s. s.now ≡ column.now.plane.now.triangle) }
    requires none { set ≡ None → column.now.mask ≡ 0 }
    requires edges { EdgesAt edges.now column.now block.old.rect column.now.clip.top }
    requires walk { WalksAt (W.place walk.now) column.now block.old.rect column.now.clip.top }
    ensures { ColumnDrew (stroke_in brush.now.brush column.now) block.old block.new column.now.x result }
{
    let mut passed = 0u32;
    for k in 0..4u32 {
        let covered = cover_outcome(set, block.rect(), column, 8 * k);
        look_at(block, column.span, k, covered, &brush.brush);
        let deep = depth_outcome(block, column, k, covered, &brush.brush);
        let cell = Cell {
            row: 8 * k,
            covered,
            deep,
        };
        let more = cell_rows(block, column, &cell, edges, walk, brush);
        passed += more;
    }
    passed
}

/// A column in the rows of the clip rectangle, row by row.
#[inline(always)]
fn clipped_rows<W: Walks>(
    block: &mut TilePixels,
    column: &Column<'_>,
    edges: &EdgeWalk<'_>,
    walk: &W,
    brush: &StencilBrush,
) -> u32
    requires column { IsColumn column.now block.old.rect }
    requires edges { EdgesAt edges.now column.now block.old.rect column.now.clip.top }
    requires walk { WalksAt (W.place walk.now) column.now block.old.rect column.now.clip.top }
    ensures { ColumnDrew (stroke_in brush.now.brush column.now) block.old block.new column.now.x result }
{
    let rect = block.rect();
    let rows = column.clip.top - rect.top..column.clip.bottom - rect.top;
    each_row(block, column, rows, edges.copied(), walk.copied(), brush)
}

/// A column under a brush with a stencil test; the answer is how many pixels pass.
#[inline(never)]
pub(crate) fn stencil_column<W: Walks>(
    block: &mut TilePixels,
    column: &Column<'_>,
    set: &EdgeSet,
    edges: &EdgeWalk<'_>,
    walk: &W,
    brush: &StencilBrush,
) -> u32
    requires column { IsColumn column.now block.old.rect }
    requires set { set.now ≡ column.now.plane.now.triangle }
    requires edges { EdgesAt edges.now column.now block.old.rect column.now.clip.top }
    requires walk { WalksAt (W.place walk.now) column.now block.old.rect column.now.clip.top }
    ensures { ColumnDrew (stroke_in brush.now.brush column.now) block.old block.new column.now.x result }
{
    let long = is_long(block.rect(), column);
    if !long {
        return clipped_rows(block, column, edges, walk, brush);
    }
    if column.mask == 0 {
        each_cell(block, column, None, edges, walk, brush)
    } else {
        each_cell(block, column, Some(set), edges, walk, brush)
    }
}
