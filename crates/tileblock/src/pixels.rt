//! The stored pixels of a tile.

ghost use Rattle.std.specs.Prelude.{◌≡◌, ◌<◌, ◌≤◌, ◌+◌, ℕ, length, slice_index};

use crate::extremes::Extremes;
use gfxspec::{DEPTH_MAX, DepthStencil, Pixel, PixelRect};
use lanes::{select_bytes8, select8};
use std::marker::Model;
use std::simd::prelude::*;

/// Four of a span's eight values, from the first or the fifth on.
#[inline(always)]
fn half_of(span: &[u32; 8], from: usize) -> [u32; 4]
    requires { from + 4 ≤ 8 }
    ensures { (j : ℕ) → j < 4 → slice_index result j ≡ slice_index span.now (from + j) }
{
    u32x4::from_slice(&span[from..]).to_array()
}

/// Stores four values at once.
#[inline(always)]
fn store_four(part: &mut [u32], values: [u32; 4])
    requires { length part.old ≡ 4 }
    ensures { part.new ≡ values }
{
    u32x4::from_array(values).copy_to_slice(part);
}

/// Stores four of a span's eight values, from the first or the fifth on.
#[inline(always)]
fn set_half(span: &mut [u32; 8], from: usize, values: [u32; 4])
    requires { from + 4 ≤ 8 }
    ensures length { length span.new ≡ 8 }
    ensures here { (j : ℕ) → j < 4 → slice_index span.new (from + j) ≡ slice_index values j }
    ensures before { (k : ℕ) → k < from → slice_index span.new k ≡ slice_index span.old k }
    ensures behind { (k : ℕ) → from + 4 ≤ k → slice_index span.new k ≡ slice_index span.old k }
{
    store_four(&mut span[from..from + 4], values);
}

/// Reads the first value of every other span, which is one of each 64 bytes.
#[inline]
fn prefetch(spans: &[[u32; 8]; 128]) -> u64 {
    let mut reads = 0;
    for pair in 0..64usize {
        reads ^= spans[2 * pair][0];
    }
    u64::from(reads)
}

/// The stored values of a tile's pixels: span s of row y at place 4 * y + s.
#[derive(Drop)]
struct Spans {
    colors: [[u32; 8]; 128],
    depths: [[u32; 8]; 128],
    /// Span s of row y at place 32 * s + y, so that the rows of a column of spans stand one behind the other.
    stencils: [[u8; 8]; 128],
    /// What the depths of cells lie between, where that is known of any.
    cells: Option<Cells>,
}

impl Spans {
    ghost use Rattle.std.specs.Prelude.{◌≡◌, ◌%◌, replicate, None};
    ghost use Rattle.std.specs.Int.{w32, from_le_bytes};
    ghost use Rattle.tileblock.specs.Block.{span_of, stencils_of, stored};

    fn set(&mut self, x: u32, y: u32, pixel: Pixel)
        ensures colors { self.new.colors ≡ stored self.old.colors (span_of x y) (x % 8) (from_le_bytes w32 pixel.rgba) }
        ensures depths { self.new.depths ≡ stored self.old.depths (span_of x y) (x % 8) pixel.ds.depth }
        ensures stencils { self.new.stencils ≡ stored self.old.stencils (stencils_of x y) (x % 8) pixel.ds.stencil }
        ensures cells { self.new.cells ≡ None }
    {
        let at = (4 * (y % 32) + x % 32 / 8) as usize;
        let lane = (x % 8) as usize;
        self.colors[at][lane] = u32::from_le_bytes(pixel.rgba);
        self.depths[at][lane] = pixel.ds.depth;
        self.stencils[(32 * (x % 32 / 8) + y % 32) as usize][lane] = pixel.ds.stencil;
        self.cells = None;
    }

    fn clear_color(&mut self, color: u32)
        ensures { self.new ≡ record self.old { colors = replicate 128 (replicate 8 color) } }
    {
        self.colors = [[color; 8]; 128];
    }

    fn clear_depth_stencil(&mut self, value: DepthStencil)
        ensures { self.new ≡ record self.old {
          depths = replicate 128 (replicate 8 value.depth);
          stencils = replicate 128 (replicate 8 value.stencil);
          cells = None;
        } }
    {
        self.depths = [[value.depth; 8]; 128];
        self.stencils = [[value.stencil; 8]; 128];
        self.cells = None;
    }
}

/// What depths lie between.
#[derive(Clone, Copy)]
pub struct DepthBounds {
    pub least: u32,
    pub greatest: u32,
}

/// What the depths of a tile's cells lie between, where that is known. A cell is eight rows of a span: the k-th from the top in span s
/// stands at place 4 * k + s.
#[derive(Clone, Copy)]
struct Cells {
    bounds: [Option<DepthBounds>; 16],
}

impl Cells {
    ghost use Rattle.std.specs.Prelude.{◌≡◌, ◌<◌, None, Some, length, slice_set};
    ghost use Rattle.tileblock.specs.Cells.{cells_of};

    /// Forgets what is known of all cells. Where nothing is known, nothing is stored.
    #[inline(always)]
    fn forget(cells: &mut Option<Cells>)
        ensures { cells.new ≡ None }
    {
        if cells.is_some() {
            *cells = None;
        }
    }

    /// Keeps what the depths of one cell lie between, beside what is known of the others.
    fn keep(cells: &mut Option<Cells>, at: usize, bounds: DepthBounds)
        requires at { at < 16 }
        requires places { (k : Cells) → cells.old ≡ Some k → length k.bounds ≡ 16 }
        ensures { cells.new ≡ Some (record { bounds = slice_set (cells_of cells.old).bounds at (Some bounds) }) }
    {
        match cells {
            Some(known) => known.bounds[at] = Some(bounds),
            None => {
                let mut fresh = [None; 16];
                fresh[at] = Some(bounds);
                *cells = Some(Cells { bounds: fresh });
            }
        }
    }
}

/// The stored pixels of a tile, of which those of a rectangle lie on the target. This is what triangles are drawn on.
#[derive(Drop)]
pub struct TilePixels {
    rect: PixelRect,
    spans: Spans,
    /// What the depths of the rectangle lie between, where that is known.
    bounds: Option<DepthBounds>,
}

impl Model for TilePixels {
    ghost use Rattle.tileblock.specs.Block.{Block};
    ghost use Rattle.tileblock.specs.Bounds.{IsBoundedBlock};

    ghost Value = { Block };

    ghost view = { λ b. record { rect = b.rect; colors = b.spans.colors; depths = b.spans.depths; stencils = b.spans.stencils } };

    ghost invariant = { λ b. IsBoundedBlock (record { rect = b.rect; colors = b.spans.colors; depths = b.spans.depths; stencils = b.spans.stencils }) b.bounds b.spans.cells };
}

impl TilePixels {
    ghost use Rattle.std.specs.Prelude.{◌≡◌, ◌≢◌, ◌<◌, ◌⊎◌, ◌+◌, ◌*◌, ℕ, IfSome, slice_index, if◌then◌else◌};
    ghost use Rattle.std.specs.Int.{w32, to_le_bytes};
    ghost use Rattle.gfxspec.specs.Tiles.{IsIn};
    ghost use Rattle.gfxspec.specs.Tiles.{IsInTile};
    ghost use Rattle.tileblock.specs.Block.{pixel_at};
    ghost use Rattle.tileblock.specs.Cleared.{alike, color_cleared, depth_stencil_cleared};
    ghost use Rattle.tileblock.specs.Bounds.{LieBetween};
    ghost use Rattle.tileblock.specs.Cells.{CellLies};
    ghost use Rattle.tileblock.specs.Widening.{HoldsRow, HoldsSpan, IsWider};
    ghost use Rattle.lanes.specs.Stencil.{has};
    ghost use Rattle.tileblock.specs.SpanStored.{SpanStored, lane_pixel};
    ghost use Rattle.tileblock.specs.QuadStored.{QuadStored, quad_pixel};

    /// The pixels of a tile of a new target.
    pub(crate) fn new(rect: PixelRect) -> TilePixels
        requires { IsInTile rect }
        ensures { result ≡ record { rect = rect; colors = alike 0; depths = alike 16777215; stencils = alike 0 } }
    {
        TilePixels {
            rect,
            spans: Spans {
                colors: [[0; 8]; 128],
                depths: [[DEPTH_MAX; 8]; 128],
                stencils: [[0; 8]; 128],
                cells: None,
            },
            bounds: Some(DepthBounds {
                least: DEPTH_MAX,
                greatest: DEPTH_MAX,
            }),
        }
    }

    /// The tile's part of the target.
    pub fn rect(&self) -> PixelRect
        ensures { result ≡ self.now.rect }
    {
        self.rect
    }

    /// What a pixel of the rectangle holds.
    pub fn get(&self, x: u32, y: u32) -> Pixel
        requires { IsIn self.now.rect x y }
        ensures { result ≡ pixel_at self.now x y }
    {
        let at = (4 * (y % 32) + x % 32 / 8) as usize;
        let lane = (x % 8) as usize;
        Pixel {
            rgba: self.spans.colors[at][lane].to_le_bytes(),
            ds: DepthStencil {
                depth: self.spans.depths[at][lane],
                stencil: self.spans.stencils[(32 * (x % 32 / 8) + y % 32) as usize][lane],
            },
        }
    }

    /// The colours of eight pixels side by side, which are a span of a row; both are counted within the tile. A
    /// colour is one number, red in its low byte and alpha in its high one.
    #[inline]
    pub fn color_span(&self, span: u32, row: u32) -> [u32; 8]
        requires span { span < 4 }
        requires row { row < 32 }
        ensures { (j : ℕ) → j < 8 → to_le_bytes w32 (slice_index result j)
            ≡ (pixel_at self.now (self.now.rect.left + 8 * span + j) (self.now.rect.top + row)).rgba }
    {
        self.spans.colors[(4 * row + span) as usize]
    }

    /// The depths of eight pixels side by side, which are a span of a row; both are counted within the tile.
    #[inline]
    pub fn depth_span(&self, span: u32, row: u32) -> [u32; 8]
        requires span { span < 4 }
        requires row { row < 32 }
        ensures { (j : ℕ) → j < 8 → slice_index result j
            ≡ (pixel_at self.now (self.now.rect.left + 8 * span + j) (self.now.rect.top + row)).ds.depth }
    {
        self.spans.depths[(4 * row + span) as usize]
    }

    /// The stencil values of such eight pixels.
    #[inline]
    pub fn stencil_span(&self, span: u32, row: u32) -> [u8; 8]
        requires span { span < 4 }
        requires row { row < 32 }
        ensures { (j : ℕ) → j < 8 → slice_index result j
            ≡ (pixel_at self.now (self.now.rect.left + 8 * span + j) (self.now.rect.top + row)).ds.stencil }
    {
        self.spans.stencils[(32 * span + row) as usize]
    }

    /// The stencil values of such eight pixels in two rows, of which the second is the next: they stand side by side.
    #[inline]
    pub fn stencil_rows(&self, span: u32, row: u32) -> ([u8; 8], [u8; 8])
        requires span { span < 4 }
        requires row { row + 1 < 32 }
        ensures first { (j : ℕ) → j < 8 → slice_index result.0 j
            ≡ (pixel_at self.now (self.now.rect.left + 8 * span + j) (self.now.rect.top + row)).ds.stencil }
        ensures second { (j : ℕ) → j < 8 → slice_index result.1 j
            ≡ (pixel_at self.now (self.now.rect.left + 8 * span + j) (self.now.rect.top + (row + 1))).ds.stencil }
    {
        let at = (32 * span + row) as usize;
        (self.spans.stencils[at], self.spans.stencils[at + 1])
    }

    /// Stores the colours of such eight pixels.
    #[inline]
    pub fn set_color_span(&mut self, span: u32, row: u32, colors: [u32; 8])
        requires span { span < 4 }
        requires row { row < 32 }
        ensures { SpanStored self.old self.new span row (λ j old. record old { rgba = to_le_bytes w32 (slice_index colors j) }) }
    {
        let at = (4 * row + span) as usize;
        self.spans.colors[at] = colors;
    }

    /// Stores the colours of those of the eight pixels whose bits are set.
    #[inline]
    pub fn set_color_lanes(&mut self, span: u32, row: u32, bits: u8, colors: [u32; 8])
        requires span { span < 4 }
        requires row { row < 32 }
        ensures { SpanStored self.old self.new span row (λ j old. if has bits j then record old { rgba = to_le_bytes w32 (slice_index colors j) } else old) }
    {
        let old = self.color_span(span, row);
        self.set_color_span(span, row, select8(bits, &colors, &old));
    }

    /// Stores the depths of such eight pixels.
    #[inline]
    pub fn set_depth_span(&mut self, span: u32, row: u32, depths: [u32; 8])
        requires span { span < 4 }
        requires row { row < 32 }
        ensures { SpanStored self.old self.new span row (λ j old. record old { ds = record { depth = slice_index depths j; stencil = old.ds.stencil } }) }
    {
        let at = (4 * row + span) as usize;
        self.spans.depths[at] = depths;
        if self.spans.cells.is_some() {
            self.spans.cells = None;
        }
        self.bounds = None;
    }

    /// Stores the depths of those of the eight pixels whose bits are set.
    #[inline]
    pub fn set_depth_lanes(&mut self, span: u32, row: u32, bits: u8, depths: [u32; 8])
        requires span { span < 4 }
        requires row { row < 32 }
        ensures { SpanStored self.old self.new span row (λ j old. if has bits j then record old { ds = record { depth = slice_index depths j; stencil = old.ds.stencil } } else old) }
    {
        let old = self.depth_span(span, row);
        self.set_depth_span(span, row, select8(bits, &depths, &old));
    }

    /// The colours of four pixels side by side, which are a quad of a row; both are counted within the tile.
    #[inline(always)]
    pub fn color_quad(&self, quad: u32, row: u32) -> [u32; 4]
        requires quad { quad < 8 }
        requires row { row < 32 }
        ensures { (j : ℕ) → j < 4 → to_le_bytes w32 (slice_index result j) ≡ (quad_pixel self.now quad row j).rgba }
    {
        let at = (4 * row + quad / 2) as usize;
        half_of(&self.spans.colors[at], (quad % 2 * 4) as usize)
    }

    /// Reads a part of each row of the colours, so that all rows are on their way from memory side by side. The number is no result: a
    /// caller keeps it only so that the reads are done.
    #[inline]
    pub(crate) fn prefetch_colors(&self) -> u64 {
        prefetch(&self.spans.colors)
    }

    /// Reads a part of each row of the depths, as `prefetch_colors` does.
    #[inline]
    pub(crate) fn prefetch_depths(&self) -> u64 {
        prefetch(&self.spans.depths)
    }

    /// The depths of such four pixels.
    #[inline(always)]
    pub fn depth_quad(&self, quad: u32, row: u32) -> [u32; 4]
        requires quad { quad < 8 }
        requires row { row < 32 }
        ensures { (j : ℕ) → j < 4 → slice_index result j ≡ (quad_pixel self.now quad row j).ds.depth }
    {
        let at = (4 * row + quad / 2) as usize;
        half_of(&self.spans.depths[at], (quad % 2 * 4) as usize)
    }

    /// Stores the colours of such four pixels.
    #[inline(always)]
    pub fn set_color_quad(&mut self, quad: u32, row: u32, colors: [u32; 4])
        requires quad { quad < 8 }
        requires row { row < 32 }
        ensures { QuadStored self.old self.new quad row (λ j old. record old { rgba = to_le_bytes w32 (slice_index colors j) }) }
    {
        let at = (4 * row + quad / 2) as usize;
        set_half(&mut self.spans.colors[at], (quad % 2 * 4) as usize, colors);
    }

    /// Stores the depths of such four pixels.
    #[inline(always)]
    pub fn set_depth_quad(&mut self, quad: u32, row: u32, depths: [u32; 4])
        requires quad { quad < 8 }
        requires row { row < 32 }
        ensures { QuadStored self.old self.new quad row (λ j old. record old { ds = record { depth = slice_index depths j; stencil = old.ds.stencil } }) }
    {
        Cells::forget(&mut self.spans.cells);
        self.bounds = None;
        let at = (4 * row + quad / 2) as usize;
        set_half(&mut self.spans.depths[at], (quad % 2 * 4) as usize, depths);
    }

    /// Stores the stencil values of such eight pixels. Other rows of the span keep theirs, past the rectangle too.
    #[inline]
    pub fn set_stencil_span(&mut self, span: u32, row: u32, stencils: [u8; 8])
        requires span { span < 4 }
        requires row { row < 32 }
        ensures rows { (other j : ℕ) → other < 32 → j < 8 → other ≢ row → lane_pixel self.new span other j ≡ lane_pixel self.old span other j }
        ensures stored { SpanStored self.old self.new span row (λ j old. record old { ds = record { depth = old.ds.depth; stencil = slice_index stencils j } }) }
    {
        let at = (32 * span + row) as usize;
        self.spans.stencils[at] = stencils;
    }

    /// Stores the stencil values of those of the eight pixels whose bits are set.
    #[inline]
    pub fn set_stencil_lanes(&mut self, span: u32, row: u32, bits: u8, stencils: [u8; 8])
        requires span { span < 4 }
        requires row { row < 32 }
        ensures { SpanStored self.old self.new span row (λ j old. if has bits j then record old { ds = record { depth = old.ds.depth; stencil = slice_index stencils j } } else old) }
    {
        let old = self.stencil_span(span, row);
        self.set_stencil_span(span, row, select_bytes8(bits, &stencils, &old));
    }

    /// Stores all of a pixel of the rectangle.
    pub fn set(&mut self, x: u32, y: u32, pixel: Pixel)
        requires { IsIn self.old.rect x y }
        ensures rect { self.new.rect ≡ self.old.rect }
        ensures here { pixel_at self.new x y ≡ pixel }
        ensures elsewhere { (u v : ℕ) → IsIn self.old.rect u v → (u ≢ x) ⊎ (v ≢ y)
            → pixel_at self.new u v ≡ pixel_at self.old u v }
    {
        self.spans.set(x, y, pixel);
        self.bounds = None;
    }

    /// Stores a colour in all pixels, whatever they hold.
    pub(crate) fn clear_color(&mut self, rgba: [u8; 4])
        ensures { self.new ≡ color_cleared rgba self.old }
    {
        self.spans.clear_color(u32::from_le_bytes(rgba));
    }

    /// Stores a depth and a stencil value in all pixels, whatever they hold.
    pub(crate) fn clear_depth_stencil(&mut self, value: DepthStencil)
        ensures { self.new ≡ depth_stencil_cleared value self.old }
    {
        self.spans.clear_depth_stencil(value);
        self.bounds = Some(DepthBounds {
            least: value.depth,
            greatest: value.depth,
        });
    }

    /// What the depths of the rectangle lie between, if that is known.
    #[inline]
    pub fn depth_bounds(&self) -> Option<DepthBounds>
        ensures { IfSome result (λ d. LieBetween self.now d.least d.greatest) }
    {
        self.bounds
    }

    /// Keeps what the depths of the rectangle lie between, until one is stored.
    #[inline]
    pub fn keep_bounds(&mut self, least: u32, greatest: u32)
        requires { LieBetween self.old least greatest }
        ensures { self.new ≡ self.old }
    {
        self.bounds = Some(DepthBounds { least, greatest });
    }

    /// What the depths of a row lie between, with those that were looked at before.
    #[inline]
    fn with_row(&self, row: u32, before: Extremes) -> Extremes
        requires { row < 32 }
        ensures row { HoldsRow self.now row result }
        ensures before { IsWider before result }
    {
        let a = self.depth_span(0, row);
        let b = self.depth_span(1, row);
        let c = self.depth_span(2, row);
        let d = self.depth_span(3, row);
        let first = before.with(&a);
        let second = first.with(&b);
        let third = second.with(&c);
        let last = third.with(&d);
        last
    }

    /// What the depths of all rows lie between, lane by lane.
    fn extremes(&self) -> Extremes
        ensures rows { (row : ℕ) → row < 32 → HoldsRow self.now row result }
        ensures tile { IsInTile self.now.rect }
    {
        let _rect = &self.rect;
        let mut all = Extremes::none();
        for row in 0..32u32 {
            let more = self.with_row(row, all);
            all = more;
        }
        all
    }

    /// Looks at all depths, and keeps what those of the rectangle lie between, until one is stored.
    #[inline(never)]
    pub fn measure_bounds(&mut self)
        ensures { self.new ≡ self.old }
    {
        let all = self.extremes();
        self.keep_bounds(all.least_of_all(), all.greatest_of_all());
    }

    /// What the depths of a cell lie between, if that is known: of eight rows of a span, of which the first is row 8 * `cell`.
    #[inline]
    pub fn cell_bounds(&self, span: u32, cell: u32) -> Option<DepthBounds>
        requires span { span < 4 }
        requires cell { cell < 4 }
        ensures { IfSome result (λ d. CellLies self.now span cell d.least d.greatest) }
    {
        match &self.spans.cells {
            Some(cells) => cells.bounds[(4 * cell + span) as usize],
            None => None,
        }
    }

    /// Keeps what the depths of a cell lie between, until one is stored anywhere.
    fn keep_cell(&mut self, span: u32, cell: u32, least: u32, greatest: u32)
        requires span { span < 4 }
        requires cell { cell < 4 }
        requires lie { CellLies self.old span cell least greatest }
        ensures { self.new ≡ self.old }
    {
        let at = (4 * cell + span) as usize;
        Cells::keep(&mut self.spans.cells, at, DepthBounds { least, greatest });
    }

    /// What the depths of a cell lie between, lane by lane.
    fn cell_extremes(&self, span: u32, cell: u32) -> Extremes
        requires span { span < 4 }
        requires cell { cell < 4 }
        ensures { (k : ℕ) → k < 8 → HoldsSpan self.now span (8 * cell + k) result }
    {
        let mut all = Extremes::none();
        for k in 0..8u32 {
            let depths = self.depth_span(span, 8 * cell + k);
            let more = all.with(&depths);
            all = more;
        }
        all
    }

    /// Looks at the depths of a cell, and keeps what they lie between, until one is stored.
    #[inline(never)]
    pub fn measure_cell(&mut self, span: u32, cell: u32)
        requires span { span < 4 }
        requires cell { cell < 4 }
        ensures { self.new ≡ self.old }
    {
        let all = self.cell_extremes(span, cell);
        self.keep_cell(span, cell, all.least_of_all(), all.greatest_of_all());
    }
}
