//! Cells of a column: eight rows of a span, whose depths are asked about together.

ghost use Rattle.std.specs.Prelude.{◌≡◌, ◌<◌, ◌≤◌, ◌+◌, ◌*◌, ℕ, true, false, IsTrue, IfSome, Some, None};
ghost use Rattle.classify.specs.Region.{IsReal};
ghost use Rattle.gfxspec.specs.Raster.{centre, covers};
ghost use Rattle.depthplane.specs.Place.{depth_of};
ghost use Rattle.tileprog.specs.Alike.{HasOutcome};
ghost use Rattle.tileprog.specs.Cells.{InRows, AreCovered, EdgesAre, HaveOutcome, IsUnwritten, IsLong};
ghost use Rattle.tileprog.specs.Columns.{IsColumn};

use crate::alike::opposite;
use crate::brush::Brush;
use crate::column::Column;
use crate::hidden::none_passes;
use classify::{Class, classify};
use edges::EdgeSet;
use gfxspec::PixelRect;
use tileblock::{DepthBounds, TilePixels};

/// The pixels of a column in eight rows of the tile, from `row` on, and what is known of them: whether all named edges hold at each of
/// them, or at none, and whether the depth test passes at all or at none.
#[derive(Clone, Copy)]
pub(crate) struct Cell {
    pub(crate) row: u32,
    pub(crate) covered: Option<bool>,
    pub(crate) deep: Option<bool>,
}

/// The eight rows of a column from `row` on.
#[inline(always)]
fn cell_rect(rect: PixelRect, column: &Column<'_>, row: u32) -> PixelRect
    requires column { column.now.x ≤ 4096 }
    requires top { rect.top ≤ 4096 }
    requires row { row < 32 }
    ensures left { result.left ≡ column.now.x }
    ensures top { result.top ≡ rect.top + row }
    ensures right { result.right ≡ column.now.x + 8 }
    ensures bottom { result.bottom ≡ rect.top + row + 8 }
{
    PixelRect {
        left: column.x,
        top: rect.top + row,
        right: column.x + 8,
        bottom: rect.top + row + 8,
    }
}

/// Whether all edges of a triangle hold at each centre of a rectangle, or not all of them at any.
#[inline(always)]
fn edges_outcome(set: &EdgeSet, rect: PixelRect) -> Option<bool>
    requires { IsReal rect }
    ensures { IfSome result (λ all. EdgesAre all set.now rect) }
{
    match classify(set, rect) {
        Class::Cut(cut) => { if cut == 0 { Some(true) } else { None } }
        Class::Outside => Some(false),
    }
}

/// Whether a clip rectangle leaves all of a column in all rows of a tile. A triangle that is less high is drawn faster than asked about.
#[inline(always)]
pub(crate) fn is_long(rect: PixelRect, column: &Column<'_>) -> bool
    requires column { column.now.x ≤ 4096 }
    requires top { rect.top ≤ 4096 }
    ensures { IsTrue result → IsLong column.now rect }
{
    column.within == 255
        && column.clip.top == rect.top
        && column.clip.bottom == rect.top + 32
        && column.x + 8 <= rect.right
}

/// Whether the named edges hold at all pixels of the eight rows of a column from `row` on, or not all of them at any. Where none is named
/// there is no set to ask.
#[inline(always)]
pub(crate) fn cover_outcome(
    set: Option<&EdgeSet>,
    rect: PixelRect,
    column: &Column<'_>,
    row: u32,
) -> Option<bool>
    requires some { IfSome set (λ s. s.now ≡ column.now.plane.now.triangle) }
    requires none { set ≡ None → column.now.mask ≡ 0 }
    requires column { IsColumn column.now rect }
    requires long { IsLong column.now rect }
    requires row { row + 8 ≤ 32 }
    ensures { IfSome result (λ all. AreCovered all column.now.mask column.now.plane.now.triangle rect column.now.x row (row + 8)) }
{
    let Some(set) = set else {
        return Some(true);
    };
    edges_outcome(set, cell_rect(rect, column, row))
}

/// What the depths of a triangle lie between where it covers pixels in the eight rows of a column from `row` on, if its plane tells.
#[inline(always)]
fn cell_range(rect: PixelRect, column: &Column<'_>, row: u32) -> Option<DepthBounds>
    requires column { IsColumn column.now rect }
    requires row { row + 8 ≤ 32 }
    ensures { IfSome result (λ between. (u v : ℕ) → InRows rect column.now.x row (row + 8) u v → IsTrue (covers column.now.plane.now.triangle (centre u v))
        → (between.least ≤ depth_of column.now.plane.now u v) × (depth_of column.now.plane.now u v ≤ between.greatest)) }
{
    let cell = cell_rect(rect, column, row);
    let Some((least, greatest)) = column.plane.range_about(cell) else {
        return None;
    };
    Some(DepthBounds { least, greatest })
}

/// Whether the depth test of a brush passes at all depths between two, or at none, against all that may be stored between two.
/// Where depths would be stored, that all pass is not told.
#[inline(always)]
fn outcome_between(range: DepthBounds, known: DepthBounds, brush: &Brush) -> Option<bool>
    requires { brush.now.state.depth ≡ true }
    ensures deep { IfSome result (HasOutcome brush.now.state range.least range.greatest (Some known)) }
    ensures unwritten { IfSome result (IsUnwritten brush.now.state) }
{
    let func = brush.state.func();
    let fails = none_passes(func, range.least, range.greatest, known);
    if fails {
        return Some(false);
    }
    if brush.state.write() {
        return None;
    }
    let passes = none_passes(opposite(func), range.least, range.greatest, known);
    if passes { Some(true) } else { None }
}

/// Whether the depth test of a brush passes at all pixels of a cell of a column, or at none, as far as what is known of the stored
/// depths tells: by the triangle's corners, which decide most cells, and else by its plane. Where depths would be stored, that all pass is not
/// told.
#[inline(always)]
fn deep_from(block: &TilePixels, column: &Column<'_>, cell: u32, brush: &Brush) -> Option<bool>
    requires column { IsColumn column.now block.now.rect }
    requires cell { cell < 4 }
    requires depth { brush.now.state.depth ≡ true }
    ensures { IfSome result (λ deep. HaveOutcome deep brush.now column.now block.now (8 * cell) (8 * cell + 8)) }
{
    let Some(known) = block.cell_bounds(column.span, cell) else {
        return None;
    };
    let near = outcome_between(column.corners, known, brush);
    if near.is_some() {
        return near;
    }
    let Some(range) = cell_range(block.rect(), column, 8 * cell) else {
        return None;
    };
    outcome_between(range, known, brush)
}

/// Whether the depth test of a brush passes at all covered pixels of a cell of a column, or at none, if that is asked: where depth is tested,
/// only where the edges may hold.
#[inline(always)]
pub(crate) fn depth_outcome(
    block: &TilePixels,
    column: &Column<'_>,
    cell: u32,
    covered: Option<bool>,
    brush: &Brush,
) -> Option<bool>
    requires column { IsColumn column.now block.now.rect }
    requires cell { cell < 4 }
    ensures { IfSome result (λ deep. HaveOutcome deep brush.now column.now block.now (8 * cell) (8 * cell + 8)) }
{
    if !brush.state.depth() {
        return Some(true);
    }
    if covered == Some(false) {
        return None;
    }
    deep_from(block, column, cell, brush)
}

/// Looks at the stored depths of a cell that is asked about, where nothing is known of them. A brush that stores depths doesn't look: the
/// block would forget at once.
#[inline(always)]
pub(crate) fn look_at(
    block: &mut TilePixels,
    span: u32,
    cell: u32,
    covered: Option<bool>,
    brush: &Brush,
)
    requires span { span < 4 }
    requires cell { cell < 4 }
    ensures { block.new ≡ block.old }
{
    if covered == Some(false) || !brush.state.depth() || brush.state.write() {
        return;
    }
    let known = block.cell_bounds(span, cell);
    if known.is_none() {
        block.measure_cell(span, cell);
    }
}
