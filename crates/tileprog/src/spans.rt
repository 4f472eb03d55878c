//! One span of eight pixels.

ghost use Rattle.std.specs.Prelude.{◌≡◌, ◌<◌, ◌≤◌, ◌+◌, ◌==◌, ◌&&◌, ◌||◌, not, true, IsTrue, ℕ, List, slice_index};
ghost use Rattle.gfxspec.specs.DepthStencil.{compares, depth_passes};
ghost use Rattle.lanes.specs.Stencil.{has, reference_passes};
ghost use Rattle.tileblock.specs.SpanStored.{SpanStored, lane_pixel};
ghost use Rattle.tileprog.specs.Cells.{IsStill, IsUnwritten};
ghost use Rattle.tileprog.specs.Kinds.{tests_of};
ghost use Rattle.tileprog.specs.declared.kind.Tests.TheVariants.{Open};
ghost use Rattle.tileprog.specs.Counting.{eight, one_if};
ghost use Rattle.tileprog.specs.Alike.{operated};
ghost use Rattle.tileprog.specs.SpanDrawn.{painted_lane, tested_lane, drawn_lane, deepened_lane, kept_lane, stenciled_lane, operated_lane, ArePassed, RowsStored};

use crate::brush::Brush;
use crate::brushes::{DepthBrush, StencilBrush};
use crate::pixels::SpanPixels;
use lanes::{StencilTest, depth_mask, write8};
use tileblock::TilePixels;

/// What is known of the tests at the covered pixels of some rows: whether depth passes at each of them or at none, and whether the stencil
/// test is known to pass always.
#[derive(Clone, Copy)]
pub(crate) struct KnownTests {
    pub(crate) deep: bool,
    pub(crate) always: bool,
}

/// Writes the colours of these pixels.
#[inline(always)]
fn paint_span(block: &mut TilePixels, pixels: SpanPixels, brush: &Brush)
    ensures { SpanStored block.old block.new pixels.span pixels.row (painted_lane brush.now pixels.bits) }
{
    let SpanPixels { span, row, bits } = pixels;
    let write = brush.write;
    let old = block.color_span(span, row);
    if bits == 0 {
        return;
    }
    if bits == 255 && write.keep == 0 {
        block.set_color_span(span, row, [write.flip; 8]);
        return;
    }
    if write.keep == u32::MAX && write.flip == 0 {
        return;
    }
    let new = write8(write, &old);
    if bits == 255 {
        block.set_color_span(span, row, new);
    } else {
        block.set_color_lanes(span, row, bits, new);
    }
}

/// Stores depths at these pixels.
#[inline(always)]
fn put_depths(block: &mut TilePixels, pixels: SpanPixels, new: &[u32; 8])
    ensures { SpanStored block.old block.new pixels.span pixels.row (deepened_lane pixels.bits new.now) }
{
    let SpanPixels { span, row, bits } = pixels;
    if bits == 255 {
        block.set_depth_span(span, row, *new);
    } else if bits != 0 {
        block.set_depth_lanes(span, row, bits, *new);
    }
}

/// Stores stencil values at these pixels.
#[inline(always)]
fn put_stencils(block: &mut TilePixels, pixels: SpanPixels, new: &[u8; 8])
    ensures { SpanStored block.old block.new pixels.span pixels.row (stenciled_lane pixels.bits new.now) }
{
    let SpanPixels { span, row, bits } = pixels;
    if bits == 255 {
        block.set_stencil_span(span, row, *new);
    } else {
        block.set_stencil_lanes(span, row, bits, *new);
    }
}

/// Those of these pixels at which depth passes, as bits.
#[inline(always)]
fn passed_depths(block: &TilePixels, pixels: SpanPixels, new: &[u32; 8], brush: &DepthBrush) -> u8
    ensures { ArePassed brush.now.brush block.now pixels.span pixels.row pixels.bits new.now result }
{
    pixels.bits & depth_mask(brush.func, new, &block.depth_span(pixels.span, pixels.row))
}

/// Stores depths at these pixels, if depths are to be stored.
#[inline(always)]
fn keep_depths(block: &mut TilePixels, pixels: SpanPixels, new: &[u32; 8], write: bool)
    ensures { SpanStored block.old block.new pixels.span pixels.row (kept_lane write pixels.bits new.now) }
{
    if write {
        put_depths(block, pixels, new);
    }
}

/// Stores the depths, if they are to be stored, and the colours of the pixels that pass.
#[inline(always)]
fn draw_passed(block: &mut TilePixels, passed: SpanPixels, new: &[u32; 8], brush: &DepthBrush)
    ensures { SpanStored block.old block.new passed.span passed.row (λ j p. painted_lane brush.now.brush passed.bits j (kept_lane brush.now.write passed.bits new.now j p)) }
{
    keep_depths(block, passed, new, brush.write);
    paint_span(block, passed, &brush.brush);
}

/// Bit j is set where depth passes at pixel j of a span, or isn't tested.
#[inline(always)]
fn deep_mask(block: &TilePixels, span: u32, row: u32, new: &[u32; 8], brush: &Brush) -> u8
    requires span { span < 4 }
    requires row { row < 32 }
    ensures { (j : ℕ) → j < 8 → has result j
        ≡ (not brush.now.state.depth || compares brush.now.state.func (slice_index new.now j) (lane_pixel block.now span row j).ds.depth) }
{
    if brush.state.depth() {
        depth_mask(brush.state.func(), new, &block.depth_span(span, row))
    } else {
        255
    }
}

/// Stores what the operations of a stencil test leave of the values at these pixels, unless each is kept.
#[inline(always)]
fn change_stencils(
    block: &mut TilePixels,
    pixels: SpanPixels,
    stored: &[u8; 8],
    passing: u8,
    deep: u8,
    test: &StencilTest,
)
    requires stored { (j : ℕ) → j < 8 → slice_index stored.now j ≡ (lane_pixel block.old pixels.span pixels.row j).ds.stencil }
    requires small { (j : ℕ) → j < 8 → slice_index stored.now j < 256 }
    ensures { SpanStored block.old block.new pixels.span pixels.row (operated_lane test.now pixels.bits passing deep) }
{
    if test.keeps(pixels.bits, passing, deep) {
        return;
    }
    put_stencils(block, pixels, &test.after(stored, passing, deep));
}

/// Tests stencil and depth at these pixels, and stores what the tests leave; the answer has a bit for each that passes.
#[inline(always)]
fn test_stencils(
    block: &mut TilePixels,
    pixels: SpanPixels,
    new: &[u32; 8],
    brush: &StencilBrush,
) -> u8
    ensures block { SpanStored block.old block.new pixels.span pixels.row (tested_lane brush.now.brush pixels.bits new.now) }
    ensures bits { ArePassed brush.now.brush block.old pixels.span pixels.row pixels.bits new.now result }
{
    let stored = block.stencil_span(pixels.span, pixels.row);
    let passing = brush.test.passes(&stored);
    let deep = deep_mask(block, pixels.span, pixels.row, new, &brush.brush);
    let bits = pixels.bits & (passing & deep);
    change_stencils(block, pixels, &stored, passing, deep, &brush.test);
    if brush.brush.state.depth() && brush.brush.state.write() {
        let passed = SpanPixels {
            span: pixels.span,
            row: pixels.row,
            bits,
        };
        put_depths(block, passed, new);
    }
    bits
}

/// Draws these pixels under a brush without tests.
#[inline(always)]
pub(crate) fn draw_open(block: &mut TilePixels, pixels: SpanPixels, brush: &Brush)
    requires kind { tests_of brush.now.state ≡ Open }
    ensures block { (new : List ℕ) → SpanStored block.old block.new pixels.span pixels.row (drawn_lane brush.now pixels.bits new) }
    ensures bits { (new : List ℕ) → ArePassed brush.now block.old pixels.span pixels.row pixels.bits new pixels.bits }
{
    paint_span(block, pixels, brush);
}

/// Draws these pixels under a brush that tests depth alone; the answer has a bit for each that passes. Where all eight pass, which is
/// known once, whole spans are stored.
#[inline(always)]
pub(crate) fn draw_depths(
    block: &mut TilePixels,
    pixels: SpanPixels,
    new: &[u32; 8],
    brush: &DepthBrush,
) -> u8
    ensures block { SpanStored block.old block.new pixels.span pixels.row (drawn_lane brush.now.brush pixels.bits new.now) }
    ensures bits { ArePassed brush.now.brush block.old pixels.span pixels.row pixels.bits new.now result }
{
    let bits = passed_depths(block, pixels, new, brush);
    if bits == 255 {
        let all = SpanPixels {
            span: pixels.span,
            row: pixels.row,
            bits: 255,
        };
        draw_passed(block, all, new, brush);
    } else {
        let passed = SpanPixels {
            span: pixels.span,
            row: pixels.row,
            bits,
        };
        draw_passed(block, passed, new, brush);
    }
    bits
}

/// Draws these pixels under a brush with a stencil test; the answer has a bit for each that passes.
#[inline(always)]
pub(crate) fn draw_stencils(
    block: &mut TilePixels,
    pixels: SpanPixels,
    new: &[u32; 8],
    brush: &StencilBrush,
) -> u8
    ensures block { SpanStored block.old block.new pixels.span pixels.row (drawn_lane brush.now.brush pixels.bits new.now) }
    ensures bits { ArePassed brush.now.brush block.old pixels.span pixels.row pixels.bits new.now result }
{
    let bits = test_stencils(block, pixels, new, brush);
    let passed = SpanPixels {
        span: pixels.span,
        row: pixels.row,
        bits,
    };
    paint_span(block, passed, &brush.brush);
    bits
}

/// A bit for each of eight lanes, or none.
#[inline(always)]
pub(crate) fn all_lanes(set: bool) -> u8
    ensures { (j : ℕ) → j < 8 → has result j ≡ set }
{
    if set { 255 } else { 0 }
}

/// Bit j is set where the stencil test passes at stored value j, which isn't looked at where it is known to pass always.
#[inline(always)]
fn passing_mask(test: &StencilTest, always: bool, stored: &[u8; 8]) -> u8
    requires { IsTrue always → (v : ℕ) → reference_passes test.now v ≡ true }
    ensures { (j : ℕ) → j < 8 → has result j ≡ reference_passes test.now (slice_index stored.now j) }
{
    if always { 255 } else { test.passes(stored) }
}

/// Draws these pixels under a brush with a stencil test, where the depth test is known to pass at each of them, or at none, and no depth
/// is stored; the answer has a bit for each that passes.
#[inline(always)]
pub(crate) fn draw_alike(
    block: &mut TilePixels,
    pixels: SpanPixels,
    known: KnownTests,
    brush: &StencilBrush,
) -> u8
    requires unwritten { IsUnwritten brush.now.brush.state known.deep }
    requires always { IsTrue known.always → (v : ℕ) → reference_passes brush.now.test v ≡ true }
    ensures block { (new : List ℕ) → ((j : ℕ) → j < 8 → has pixels.bits j ≡ true → depth_passes brush.now.brush.state (slice_index new j) (lane_pixel block.old pixels.span pixels.row j).ds.depth ≡ known.deep)
        → SpanStored block.old block.new pixels.span pixels.row (drawn_lane brush.now.brush pixels.bits new) }
    ensures bits { (new : List ℕ) → ((j : ℕ) → j < 8 → has pixels.bits j ≡ true → depth_passes brush.now.brush.state (slice_index new j) (lane_pixel block.old pixels.span pixels.row j).ds.depth ≡ known.deep)
        → ArePassed brush.now.brush block.old pixels.span pixels.row pixels.bits new result }
{
    let all = all_lanes(known.deep);
    let stored = block.stencil_span(pixels.span, pixels.row);
    let passing = passing_mask(&brush.test, known.always, &stored);
    let bits = pixels.bits & (passing & all);
    change_stencils(block, pixels, &stored, passing, all, &brush.test);
    let passed = SpanPixels {
        span: pixels.span,
        row: pixels.row,
        bits,
    };
    paint_span(block, passed, &brush.brush);
    bits
}

/// Does the operation of a stencil test that passes at all pixels of two rows of a span, where the depth test has one outcome at
/// them. The rows stand side by side in the block, and are read, changed and stored together.
#[inline(always)]
pub(crate) fn operate_rows(
    block: &mut TilePixels,
    span: u32,
    row: u32,
    deep: bool,
    test: &StencilTest,
)
    requires span { span < 4 }
    requires row { row + 1 < 32 }
    ensures { RowsStored block.old block.new span row (operated test.now deep) }
{
    let stored = block.stencil_rows(span, row);
    let after = test.after_rows(&stored.0, &stored.1, deep);
    block.set_stencil_span(span, row, after.0);
    block.set_stencil_span(span, row + 1, after.1);
}

/// Whether a brush keeps the colours of the pixels at which both tests pass, if the depth test does.
#[inline(always)]
pub(crate) fn keeps_colors(deep: bool, brush: &Brush) -> bool
    ensures { IsTrue result → deep ≡ true → (brush.now.write.keep ≡ 4294967295) × (brush.now.write.flip ≡ 0) }
{
    if !deep {
        return true;
    }
    brush.write.keep == u32::MAX && brush.write.flip == 0
}

/// Whether a brush changes nothing where the stencil test passes, as it always does, and the depth test passes at all pixels or at none.
#[inline(always)]
pub(crate) fn is_still(deep: bool, brush: &StencilBrush) -> bool
    requires { (v : ℕ) → reference_passes brush.now.test v ≡ true }
    ensures { IsTrue result → IsStill brush.now.brush brush.now.test deep }
{
    let kept = keeps_colors(deep, &brush.brush);
    if !kept {
        return false;
    }
    brush.test.keeps(255, 255, all_lanes(deep))
}

/// Those of these pixels that pass, where nothing changes. Nothing that is read is used, so nothing is left of it when it is compiled.
#[inline(always)]
pub(crate) fn keep_alike(
    block: &TilePixels,
    pixels: SpanPixels,
    deep: bool,
    brush: &StencilBrush,
) -> u8
    requires unwritten { IsUnwritten brush.now.brush.state deep }
    requires still { IsStill brush.now.brush brush.now.test deep }
    ensures block { (new : List ℕ) → ((j : ℕ) → j < 8 → has pixels.bits j ≡ true → depth_passes brush.now.brush.state (slice_index new j) (lane_pixel block.now pixels.span pixels.row j).ds.depth ≡ deep)
        → SpanStored block.now block.now pixels.span pixels.row (drawn_lane brush.now.brush pixels.bits new) }
    ensures bits { (new : List ℕ) → ((j : ℕ) → j < 8 → has pixels.bits j ≡ true → depth_passes brush.now.brush.state (slice_index new j) (lane_pixel block.now pixels.span pixels.row j).ds.depth ≡ deep)
        → ArePassed brush.now.brush block.now pixels.span pixels.row pixels.bits new result }
{
    let _stored = block.stencil_span(pixels.span, pixels.row);
    let _colors = block.color_span(pixels.span, pixels.row);
    pixels.bits & all_lanes(deep)
}

/// How many bits a mask of eight lanes has.
#[inline]
pub(crate) fn lanes_in(bits: u8) -> u32
    ensures value { result ≡ eight (λ j. one_if (has bits j)) }
    ensures few { result ≤ 8 }
{
    bits.count_ones()
}
