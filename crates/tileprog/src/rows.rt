//! The spans of a column, one by one.

ghost use Rattle.std.specs.Prelude.{◌≡◌, ◌<◌, ◌≤◌, ◌+◌, ◌&&◌, nat_le, nat_lt, ℕ, true, IsTrue, IfSome};
ghost use Rattle.gfxspec.specs.Raster.{centre};
ghost use Rattle.lanes.specs.Stencil.{has, reference_passes};
ghost use Rattle.tileprog.specs.declared.kind.Tests.TheVariants.{Open};
ghost use Rattle.tileprog.specs.Cells.{AllCovered, HaveOutcome, IsStill};
ghost use Rattle.tileprog.specs.Columns.{AreLeft, EdgesAt, IsColumn, IsRow, RowDrew, RowsDrew, WalksAt, stroke_in};
ghost use Rattle.tileprog.specs.Edges.{passes_edges, Decides};
ghost use Rattle.tileprog.specs.Kinds.{tests_of};

use crate::brush::Brush;
use crate::brushes::{DepthBrush, StencilBrush};
use crate::column::Column;
use crate::pixels::SpanPixels;
use crate::spans::{
    KnownTests, all_lanes, draw_alike, draw_depths, draw_open, draw_stencils, keep_alike, lanes_in,
    operate_rows,
};
use depthplane::Walks;
use edges::EdgeWalk;
use tileblock::TilePixels;

/// The pixels of a span that the clip's columns and the named edges leave. Where none is named, no edge is looked at;
/// else all three are, which costs no more than those that are named.
#[inline(always)]
fn lanes_left(column: &Column<'_>, mask: u8, edges: &EdgeWalk<'_>) -> u8
    requires same { mask ≡ column.now.mask }
    requires place { column.now.x ≡ edges.now.x }
    requires decides { Decides column.now.mask edges.now column.now.clip.left column.now.clip.right }
    ensures { (j : ℕ) → j < 8 → has result j ≡ ((nat_le column.now.clip.left (column.now.x + j) && nat_lt (column.now.x + j) column.now.clip.right)
        && passes_edges column.now.mask edges.now.triangle (centre (column.now.x + j) edges.now.y)) }
{
    if mask == 0 {
        return column.within;
    }
    column.within & edges.covered()
}

/// The pixels of a column in a row of a block that the clip's columns and the named edges leave. The mask of the edges is handed over
/// beside the column: where it is known to a loop, the loop has no edges.
#[inline(always)]
pub(crate) fn pixels_left(
    block: &TilePixels,
    column: &Column<'_>,
    mask: u8,
    row: u32,
    edges: &EdgeWalk<'_>,
) -> SpanPixels
    requires same { mask ≡ column.now.mask }
    requires column { IsColumn column.now block.now.rect }
    requires row { IsRow column.now block.now.rect row }
    requires edges { EdgesAt edges.now column.now block.now.rect (block.now.rect.top + row) }
    ensures row { result.row ≡ row }
    ensures left { AreLeft column.now block.now.rect result }
{
    let bits = lanes_left(column, mask, edges);
    SpanPixels {
        span: column.span,
        row,
        bits,
    }
}

/// Pixels of a row under a brush without tests; the answer is how many pass.
#[inline(always)]
pub(crate) fn open_row(
    block: &mut TilePixels,
    column: &Column<'_>,
    pixels: SpanPixels,
    brush: &Brush,
) -> u32
    requires column { IsColumn column.now block.old.rect }
    requires left { AreLeft column.now block.old.rect pixels }
    requires kind { tests_of brush.now.state ≡ Open }
    ensures { RowDrew (stroke_in brush.now column.now) block.old block.new column.now.x (block.old.rect.top + pixels.row) result }
{
    let cover = pixels.bits;
    if cover == 0 {
        return 0;
    }
    draw_open(block, pixels, brush);
    lanes_in(cover)
}

/// Pixels of a row under a brush that tests depth alone; the answer is how many pass. It stands in the loop over rows itself, so that
/// the comparison is decided before the loop.
#[inline(always)]
pub(crate) fn depth_row<W: Walks>(
    block: &mut TilePixels,
    column: &Column<'_>,
    pixels: SpanPixels,
    walk: &W,
    brush: &DepthBrush,
) -> u32
    requires column { IsColumn column.now block.old.rect }
    requires left { AreLeft column.now block.old.rect pixels }
    requires walk { WalksAt (W.place walk.now) column.now block.old.rect (block.old.rect.top + pixels.row) }
    ensures { RowDrew (stroke_in brush.now.brush column.now) block.old block.new column.now.x (block.old.rect.top + pixels.row) result }
{
    let cover = pixels.bits;
    if cover == 0 {
        return 0;
    }
    let depths = walk.depths();
    let bits = draw_depths(block, pixels, &depths, brush);
    lanes_in(bits)
}

/// Pixels of a row under a brush with a stencil test; the answer is how many pass. Where the depth test's outcome is known, no depth is
/// looked at.
#[inline(always)]
pub(crate) fn stencil_row<W: Walks>(
    block: &mut TilePixels,
    column: &Column<'_>,
    pixels: SpanPixels,
    walk: &W,
    known: Option<bool>,
    brush: &StencilBrush,
) -> u32
    requires column { IsColumn column.now block.old.rect }
    requires left { AreLeft column.now block.old.rect pixels }
    requires walk { WalksAt (W.place walk.now) column.now block.old.rect (block.old.rect.top + pixels.row) }
    requires known { IfSome known (λ deep. HaveOutcome deep brush.now.brush column.now block.old pixels.row (pixels.row + 1)) }
    ensures { RowDrew (stroke_in brush.now.brush column.now) block.old block.new column.now.x (block.old.rect.top + pixels.row) result }
{
    let cover = pixels.bits;
    if cover == 0 {
        return 0;
    }
    if let Some(deep) = known {
        let tests = KnownTests {
            deep,
            always: false,
        };
        let alike = draw_alike(block, pixels, tests, brush);
        return lanes_in(alike);
    }
    let depths = walk.depths();
    let bits = draw_stencils(block, pixels, &depths, brush);
    lanes_in(bits)
}

/// Pixels of a row under a brush with a stencil test, where the depth test passes at each of them or at none; the answer is how many
/// pass. The stencil test is asked unless it is known to pass always.
#[inline(always)]
pub(crate) fn cut_row(
    block: &mut TilePixels,
    column: &Column<'_>,
    pixels: SpanPixels,
    known: KnownTests,
    brush: &StencilBrush,
) -> u32
    requires column { IsColumn column.now block.old.rect }
    requires left { AreLeft column.now block.old.rect pixels }
    requires deep { HaveOutcome known.deep brush.now.brush column.now block.old pixels.row (pixels.row + 1) }
    requires always { IsTrue known.always → (v : ℕ) → reference_passes brush.now.test v ≡ true }
    ensures { RowDrew (stroke_in brush.now.brush column.now) block.old block.new column.now.x (block.old.rect.top + pixels.row) result }
{
    let cover = pixels.bits;
    if cover == 0 {
        return 0;
    }
    let passed = draw_alike(block, pixels, known, brush);
    lanes_in(passed)
}

/// A span of which all pixels are covered under a brush with a stencil test; the answer is how many pixels pass.
#[inline(always)]
pub(crate) fn deep_row<W: Walks>(
    block: &mut TilePixels,
    column: &Column<'_>,
    row: u32,
    walk: &W,
    brush: &StencilBrush,
) -> u32
    requires column { IsColumn column.now block.old.rect }
    requires within { column.now.within ≡ 255 }
    requires row { IsRow column.now block.old.rect row }
    requires walk { WalksAt (W.place walk.now) column.now block.old.rect (block.old.rect.top + row) }
    requires covered { AllCovered column.now block.old.rect row (row + 1) }
    ensures { RowDrew (stroke_in brush.now.brush column.now) block.old block.new column.now.x (block.old.rect.top + row) result }
{
    let pixels = SpanPixels {
        span: column.span,
        row,
        bits: 255,
    };
    let depths = walk.depths();
    let passed = draw_stencils(block, pixels, &depths, brush);
    lanes_in(passed)
}

/// A span of which all pixels are covered under a brush with a stencil test, where the depth test passes at all or at none; the answer is
/// how many pixels pass. The stencil test is asked unless it is known to pass always, and nothing is stored where nothing changes:
/// loops over rows have these two as constants.
#[inline(always)]
pub(crate) fn alike_row(
    block: &mut TilePixels,
    column: &Column<'_>,
    row: u32,
    known: KnownTests,
    still: bool,
    brush: &StencilBrush,
) -> u32
    requires column { IsColumn column.now block.old.rect }
    requires within { column.now.within ≡ 255 }
    requires row { IsRow column.now block.old.rect row }
    requires covered { AllCovered column.now block.old.rect row (row + 1) }
    requires deep { HaveOutcome known.deep brush.now.brush column.now block.old row (row + 1) }
    requires always { IsTrue known.always → (v : ℕ) → reference_passes brush.now.test v ≡ true }
    requires still { IsTrue still → IsStill brush.now.brush brush.now.test known.deep }
    ensures { RowDrew (stroke_in brush.now.brush column.now) block.old block.new column.now.x (block.old.rect.top + row) result }
{
    let pixels = SpanPixels {
        span: column.span,
        row,
        bits: 255,
    };
    if still {
        let kept = keep_alike(block, pixels, known.deep, brush);
        return lanes_in(kept);
    }
    let bits = draw_alike(block, pixels, known, brush);
    lanes_in(bits)
}

/// Two rows of a span of which all pixels are covered, under a brush whose stencil test passes always, and whose depth test passes at all
/// of them or at none and changes neither colours nor depths; the answer is how many pixels of each row pass. The colours that are
/// read aren't used, so nothing is left of it when it is compiled. Two rows become one load where the loop over pairs isn't unrolled round
/// them.
#[inline(never)]
pub(crate) fn operated_rows(
    block: &mut TilePixels,
    column: &Column<'_>,
    row: u32,
    deep: bool,
    brush: &StencilBrush,
) -> u32
    requires column { IsColumn column.now block.old.rect }
    requires within { column.now.within ≡ 255 }
    requires row { IsRow column.now block.old.rect row }
    requires next { IsRow column.now block.old.rect (row + 1) }
    requires covered { AllCovered column.now block.old.rect row (row + 2) }
    requires deep { HaveOutcome deep brush.now.brush column.now block.old row (row + 2) }
    requires always { (v : ℕ) → reference_passes brush.now.test v ≡ true }
    requires colors { deep ≡ true → (brush.now.brush.write.keep ≡ 4294967295) × (brush.now.brush.write.flip ≡ 0) }
    ensures { RowsDrew (stroke_in brush.now.brush column.now) block.old block.new column.now.x (block.old.rect.top + row) result }
{
    let _upper = block.color_span(column.span, row);
    let _lower = block.color_span(column.span, row + 1);
    operate_rows(block, column.span, row, deep, &brush.test);
    lanes_in(all_lanes(deep))
}
