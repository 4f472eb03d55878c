//! A tile's block: its stored pixels, and the clears that are noted and not done.

ghost use Rattle.std.specs.Prelude.{◌≡◌, ◌∷◌, [], vec_capacity};
ghost use Rattle.tileblock.specs.Cleared.{stored_in, behind_color, behind_depth_stencil, behind_clears, plain_color, HasRoom};

use crate::pixels::{DepthBounds, TilePixels};
use gfxspec::{DEPTH_MAX, DepthStencil, Pixel, PixelRect};
use std::alloc::{AllocError, Allocator};
use std::marker::Model;

/// What a tile of a target holds. A clear is noted, and done where something is drawn or stored behind it. So a tile that
/// is cleared and not drawn on takes no time, and one on which nothing was ever drawn leaves its memory untouched.
#[derive(Drop)]
pub struct TileBlock<A: Allocator> {
    rect: PixelRect,
    /// The stored pixels, or room for them.
    stored: Vec<TilePixels, A>,
    /// The colour that all pixels have, whatever is stored.
    color: Option<[u8; 4]>,
    /// The depth and the stencil value that they have, whatever is stored.
    depth_stencil: Option<DepthStencil>,
}

impl<A: Allocator> Model for TileBlock<A> {
    ghost use Rattle.std.specs.Prelude.{vec_capacity};
    ghost use Rattle.tileblock.specs.Block.{Block};
    ghost use Rattle.tileblock.specs.Cleared.{behind_clears, HasRoom};

    ghost Value = { Block };

    ghost view = { λ b. behind_clears b.rect b.stored.items b.color b.depth_stencil };

    ghost invariant = { λ b. HasRoom b.rect b.stored.items (vec_capacity b.stored) };
}

/// What a pixel of a new target holds.
const OPENING: Pixel = Pixel {
    rgba: [0; 4],
    ds: DepthStencil {
        depth: DEPTH_MAX,
        stencil: 0,
    },
};

/// A tile that was taken out of its target.
#[derive(Drop)]
pub struct OpenTile<A: Allocator> {
    pub number: u32,
    pub block: TileBlock<A>,
}

/// Does clears to pixels.
fn clear(pixels: &mut TilePixels, color: Option<[u8; 4]>, depth_stencil: Option<DepthStencil>)
    ensures { pixels.new ≡ behind_depth_stencil depth_stencil (behind_color color pixels.old) }
{
    if let Some(rgba) = color {
        pixels.clear_color(rgba);
    }
    if let Some(value) = depth_stencil {
        pixels.clear_depth_stencil(value);
    }
}

/// Stores the pixels of a new target where none are stored yet.
fn store_first<A: Allocator>(stored: &mut Vec<TilePixels, A>, rect: PixelRect)
    requires { HasRoom rect stored.old.items (vec_capacity stored.old) }
    ensures first { stored.new.items ≡ stored_in rect stored.old.items ∷ [] }
    ensures room { HasRoom rect stored.new.items (vec_capacity stored.new) }
{
    if stored.is_empty() {
        stored.push_reserved(TilePixels::new(rect));
    }
}

/// Does clears to the stored pixels. Where none are stored yet, those of a new target are.
// Apart: pixels are built on the stack, and who draws should not keep room for them.
#[cold]
#[inline(never)]
fn store_cleared<A: Allocator>(
    stored: &mut Vec<TilePixels, A>,
    rect: PixelRect,
    color: Option<[u8; 4]>,
    depth_stencil: Option<DepthStencil>,
)
    requires { HasRoom rect stored.old.items (vec_capacity stored.old) }
    ensures cleared { stored.new.items ≡ behind_clears rect stored.old.items color depth_stencil ∷ [] }
    ensures room { HasRoom rect stored.new.items (vec_capacity stored.new) }
{
    store_first(stored, rect);
    clear(&mut stored[0], color, depth_stencil);
}

/// The colour of all pixels, where it is known without a look at them: under a noted clear, and where nothing is stored.
#[inline(always)]
fn plain_of(color: Option<[u8; 4]>, is_empty: bool) -> Option<u32>
    ensures { result ≡ plain_color color is_empty }
{
    match color {
        Some(rgba) => Some(u32::from_le_bytes(rgba)),
        None if is_empty => Some(0),
        None => None,
    }
}

impl<A: Allocator> TileBlock<A> {
    ghost use Rattle.std.specs.Prelude.{◌≡◌, ◌≢◌, ◌<◌, ◌⊎◌, ◌+◌, ◌*◌, ℕ, IfOk, IfSome, slice_index};
    ghost use Rattle.std.specs.Borrow.{sem};
    ghost use Rattle.std.specs.Int.{w32, to_le_bytes};
    ghost use Rattle.gfxspec.specs.Tiles.{IsIn};
    ghost use Rattle.gfxspec.specs.Items.{opening, after_item, ColorCleared, DepthStencilCleared};
    ghost use Rattle.gfxspec.specs.Tiles.{IsInTile};
    ghost use Rattle.tileblock.specs.Block.{pixel_at};
    ghost use Rattle.tileblock.specs.Bounds.{LieBetween};
    ghost use Rattle.tileblock.specs.Lending.{LendsPixels};

    /// A tile of a new target.
    pub(crate) fn new(alloc: A, rect: PixelRect) -> Result<TileBlock<A>, AllocError>
        requires { IsInTile rect }
        ensures rect { IfOk result (λ b. b.rect ≡ rect) }
        ensures opening { IfOk result (λ b. (x y : ℕ) → IsIn rect x y → pixel_at b x y ≡ opening) }
    {
        let stored = Vec::with_capacity(alloc, 1)?;
        Ok(TileBlock {
            rect,
            stored,
            color: None,
            depth_stencil: None,
        })
    }

    /// The tile's part of the target.
    pub fn rect(&self) -> PixelRect
        ensures { result ≡ self.now.rect }
    {
        if self.stored.is_empty() {
            return self.rect;
        }
        self.stored[0].rect()
    }

    /// The stored pixels, to be drawn on: what they hold is what the block holds.
    #[inline(always)]
    pub fn pixels_mut(&mut self) -> &mut TilePixels
        ensures* writes_back { sem 𝓛 (LendsPixels A.row A.Allocator self.entry result) }
        ensures value { result.now ≡ self.old }
    {
        if self.stored.is_empty() || self.color.is_some() || self.depth_stencil.is_some() {
            store_cleared(&mut self.stored, self.rect, self.color, self.depth_stencil);
            self.color = None;
            self.depth_stencil = None;
        }
        &mut self.stored[0]
    }

    /// Reads a part of each row of the stored colours and depths, but of those that a noted clear hides, so that they are on their way
    /// from memory before the first is drawn on. The number is no result: a caller keeps it only so that the reads are done.
    #[inline]
    pub fn prefetch(&self) -> u64 {
        let Some(pixels) = self.stored.first() else {
            return 0;
        };
        let mut reads = 0;
        if self.color.is_none() {
            reads ^= pixels.prefetch_colors();
        }
        if self.depth_stencil.is_none() {
            reads ^= pixels.prefetch_depths();
        }
        reads
    }

    /// What a pixel of the rectangle holds.
    pub fn get(&self, x: u32, y: u32) -> Pixel
        requires { IsIn self.now.rect x y }
        ensures { result ≡ pixel_at self.now x y }
    {
        let below = if self.stored.is_empty() {
            OPENING
        } else {
            self.stored[0].get(x, y)
        };
        Pixel {
            rgba: self.color.unwrap_or(below.rgba),
            ds: self.depth_stencil.unwrap_or(below.ds),
        }
    }

    /// The colour of all pixels, where it is known without a look at them: under a noted clear, and where nothing is
    /// stored. It is one number, red in its low byte and alpha in its high one.
    #[inline]
    pub fn plain_color(&self) -> Option<u32>
        ensures { IfSome result (λ color. (x y : ℕ) → to_le_bytes w32 color ≡ (pixel_at self.now x y).rgba) }
    {
        plain_of(self.color, self.stored.is_empty())
    }

    /// The colours of eight pixels side by side, which are a span of a row; both are counted within the tile. A
    /// colour is one number, red in its low byte and alpha in its high one.
    pub fn color_span(&self, span: u32, row: u32) -> [u32; 8]
        requires span { span < 4 }
        requires row { row < 32 }
        ensures { (j : ℕ) → j < 8 → to_le_bytes w32 (slice_index result j)
            ≡ (pixel_at self.now (self.now.rect.left + 8 * span + j) (self.now.rect.top + row)).rgba }
    {
        match plain_of(self.color, self.stored.is_empty()) {
            Some(color) => [color; 8],
            None => self.stored[0].color_span(span, row),
        }
    }

    /// The depths of such eight pixels.
    pub fn depth_span(&self, span: u32, row: u32) -> [u32; 8]
        requires span { span < 4 }
        requires row { row < 32 }
        ensures { (j : ℕ) → j < 8 → slice_index result j
            ≡ (pixel_at self.now (self.now.rect.left + 8 * span + j) (self.now.rect.top + row)).ds.depth }
    {
        if let Some(value) = self.depth_stencil {
            return [value.depth; 8];
        }
        if self.stored.is_empty() {
            return [DEPTH_MAX; 8];
        }
        self.stored[0].depth_span(span, row)
    }

    /// The stencil values of such eight pixels.
    pub fn stencil_span(&self, span: u32, row: u32) -> [u8; 8]
        requires span { span < 4 }
        requires row { row < 32 }
        ensures { (j : ℕ) → j < 8 → slice_index result j
            ≡ (pixel_at self.now (self.now.rect.left + 8 * span + j) (self.now.rect.top + row)).ds.stencil }
    {
        if let Some(value) = self.depth_stencil {
            return [value.stencil; 8];
        }
        if self.stored.is_empty() {
            return [0; 8];
        }
        self.stored[0].stencil_span(span, row)
    }

    /// Stores all of a pixel of the rectangle.
    pub fn set(&mut self, x: u32, y: u32, pixel: Pixel)
        requires { IsIn self.old.rect x y }
        ensures rect { self.new.rect ≡ self.old.rect }
        ensures here { pixel_at self.new x y ≡ pixel }
        ensures elsewhere { (u v : ℕ) → IsIn self.old.rect u v → (u ≢ x) ⊎ (v ≢ y)
            → pixel_at self.new u v ≡ pixel_at self.old u v }
    {
        self.pixels_mut().set(x, y, pixel);
    }

    /// Stores a colour in all pixels, whatever they hold.
    pub fn clear_color(&mut self, rgba: [u8; 4])
        ensures rect { self.new.rect ≡ self.old.rect }
        ensures pixels { (x y : ℕ) → IsIn self.old.rect x y
            → pixel_at self.new x y ≡ after_item (ColorCleared rgba) x y (pixel_at self.old x y) }
    {
        self.color = Some(rgba);
    }

    /// Stores a depth and a stencil value in all pixels, whatever they hold.
    pub fn clear_depth_stencil(&mut self, value: DepthStencil)
        ensures rect { self.new.rect ≡ self.old.rect }
        ensures pixels { (x y : ℕ) → IsIn self.old.rect x y → pixel_at self.new x y
            ≡ after_item (DepthStencilCleared value.depth value.stencil) x y (pixel_at self.old x y) }
    {
        self.depth_stencil = Some(value);
    }

    /// What the depths of the rectangle lie between, if that is known.
    #[inline]
    pub fn depth_bounds(&self) -> Option<DepthBounds>
        ensures { IfSome result (λ d. LieBetween self.now d.least d.greatest) }
    {
        if let Some(value) = self.depth_stencil {
            return Some(DepthBounds {
                least: value.depth,
                greatest: value.depth,
            });
        }
        if self.stored.is_empty() {
            return None;
        }
        self.stored[0].depth_bounds()
    }
}
