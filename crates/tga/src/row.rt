//! A row of pixels, read from the tiles.

ghost use Rattle.std.specs.Prelude.{◌≡◌, ℕ, ◌+◌, ◌/◌, ◌<◌, ◌≤◌, ◌*◌, ◌^◌, ◌∷◌, true, [], length, slice_index, slice_index_or, IfSome};
ghost use Rattle.std.specs.Int.{w32, to_le_bytes};
ghost use Rattle.tileblock.specs.Block.{pixel_at};
ghost use Rattle.tileblock.specs.Surface.{IsWhole, pixel_of};
ghost use Rattle.tga.specs.Image.{kept_color};
ghost use Rattle.tga.specs.Rows.{HoldsRow};

use gfxspec::TILE_SIDE;
use std::alloc::Allocator;
use std::simd::prelude::*;
use tileblock::{Target, TileBlock};

/// The longest row, in pixels.
pub(crate) const ROW: usize = 4096;

/// A colour with red and blue in each other's place: the image keeps blue first.
#[inline(always)]
fn swapped(color: u32) -> u32
    ensures { to_le_bytes w32 result ≡ kept_color (to_le_bytes w32 color) }
{
    let (red, blue) = (color % 256, color / 65_536 % 256);
    color - red - 65_536 * blue + 65_536 * red + blue
}

/// The same of eight colours, as bytes.
// Of two bytes the greater is taken where the other is 0: an `or` of the two would be compiled into a longer shuffle.
#[inline(always)]
fn all_swapped(colors: [u32; 8]) -> [u8; 32]
    requires { (j : ℕ) → slice_index colors j < 2 ^ 32 }
    ensures { (j : ℕ) → j < 8
        → slice_index result (4 * j) ∷ slice_index result (4 * j + 1) ∷ slice_index result (4 * j + 2)
        ∷ slice_index result (4 * j + 3) ∷ []
        ≡ kept_color (to_le_bytes w32 (slice_index colors j)) }
{
    let bytes = u32x8::from_array(colors).to_le_bytes();
    let turned = bytes.swizzle([
        2, 3, 0, 1, 6, 7, 4, 5, 10, 11, 8, 9, 14, 15, 12, 13, 18, 19, 16, 17, 22, 23, 20, 21, 26,
        27, 24, 25, 30, 31, 28, 29,
    ]);
    let green_alpha = bytes & u32x8::splat(0xFF00_FF00).to_le_bytes();
    let blue_red = turned & u32x8::splat(0x00FF_00FF).to_le_bytes();
    green_alpha.simd_max(blue_red).to_array()
}

/// Stores eight colours, as the image keeps them.
#[inline(always)]
fn store_span(row: &mut [[u8; 4]; ROW], at: usize, colors: [u32; 8])
    requires at { at + 8 ≤ 4096 }
    requires colors { (j : ℕ) → slice_index colors j < 2 ^ 32 }
    ensures len { length row.new ≡ 4096 }
    ensures here { (j : ℕ) → j < 8
        → slice_index_or row.new (at + j) [] ≡ kept_color (to_le_bytes w32 (slice_index colors j)) }
    ensures before { (x : ℕ) → x < at → slice_index_or row.new x [] ≡ slice_index_or row.old x [] }
{
    let kept = all_swapped(colors);
    for j in 0..8usize {
        row[at + j] = [
            kept[4 * j],
            kept[4 * j + 1],
            kept[4 * j + 2],
            kept[4 * j + 3],
        ];
    }
}

/// Stores one colour 32 times, as the image keeps it.
// Apart: else its last store and that of four spans become one, which takes the vectors of theirs apart.
#[inline(never)]
fn store_plain(row: &mut [[u8; 4]; ROW], at: usize, color: u32)
    requires { at + 32 ≤ 4096 }
    ensures len { length row.new ≡ 4096 }
    ensures here { (j : ℕ) → j < 32 → slice_index_or row.new (at + j) [] ≡ kept_color (to_le_bytes w32 color) }
    ensures before { (x : ℕ) → x < at → slice_index_or row.new x [] ≡ slice_index_or row.old x [] }
{
    let kept = swapped(color).to_le_bytes();
    for j in 0..32usize {
        row[at + j] = kept;
    }
}

/// Stores row y of a tile, span by span. All are read before the first is stored, so that the block is asked but once
/// where its pixels lie.
#[inline(always)]
fn store_spans<A: Allocator>(row: &mut [[u8; 4]; ROW], at: usize, block: &TileBlock<A>, y: u32)
    requires at { at + 32 ≤ 4096 }
    requires y { y < 32 }
    ensures len { length row.new ≡ 4096 }
    ensures here { (j : ℕ) → j < 32 → slice_index_or row.new (at + j) []
        ≡ kept_color (pixel_at block.now (block.now.rect.left + j) (block.now.rect.top + y)).rgba }
    ensures before { (x : ℕ) → x < at → slice_index_or row.new x [] ≡ slice_index_or row.old x [] }
{
    let first = block.color_span(0, y);
    let second = block.color_span(1, y);
    let third = block.color_span(2, y);
    let last = block.color_span(3, y);
    store_span(row, at, first);
    store_span(row, at + 8, second);
    store_span(row, at + 16, third);
    store_span(row, at + 24, last);
}

/// Stores row y of a tile, and answers whether each of its rows is known to be the same.
#[inline(always)]
fn store_tile<A: Allocator>(
    row: &mut [[u8; 4]; ROW],
    at: usize,
    block: &TileBlock<A>,
    y: u32,
) -> bool
    requires at { at + 32 ≤ 4096 }
    requires y { y < 32 }
    ensures len { length row.new ≡ 4096 }
    ensures here { (j : ℕ) → j < 32 → slice_index_or row.new (at + j) []
        ≡ kept_color (pixel_at block.now (block.now.rect.left + j) (block.now.rect.top + y)).rgba }
    ensures before { (x : ℕ) → x < at → slice_index_or row.new x [] ≡ slice_index_or row.old x [] }
    ensures alike { result ≡ true → (j v : ℕ) → j < 32 → slice_index_or row.new (at + j) []
        ≡ kept_color (pixel_at block.now (block.now.rect.left + j) (block.now.rect.top + v)).rgba }
{
    if let Some(color) = block.plain_color() {
        store_plain(row, at, color);
        return true;
    }
    store_spans(row, at, block, y);
    false
}

/// Stores row y of a target, and answers whether each row of its tiles is known to be the same.
fn store_tiles<A: Allocator>(row: &mut [[u8; 4]; ROW], target: &Target<A>, y: u32) -> bool
    requires whole { IsWhole target.now }
    requires y { y < target.now.size.height }
    ensures len { length row.new ≡ 4096 }
    ensures pixels { HoldsRow row.new target.now.size.width (pixel_of target.now) y }
    ensures alike { result ≡ true → (v : ℕ) → v / 32 ≡ y / 32
        → HoldsRow row.new target.now.size.width (pixel_of target.now) v }
{
    let along = target.size().width.div_ceil(TILE_SIDE);
    let first = y / TILE_SIDE * along;
    let mut alike = true;
    for column in 0..along {
        let block = target.block(first + column);
        let one = store_tile(row, 32 * column as usize, block, y % TILE_SIDE);
        alike &= one;
    }
    alike
}

/// Stores row y of a target, as the image keeps it. What follows the target's last pixel is of no use.
///
/// `band` is the row of tiles of which each row is the one that is stored already, where that is known; the answer is
/// that of the row that is stored then.
pub(crate) fn store_row<A: Allocator>(
    row: &mut [[u8; 4]; ROW],
    band: Option<u32>,
    target: &Target<A>,
    y: u32,
) -> Option<u32>
    requires whole { IsWhole target.now }
    requires y { y < target.now.size.height }
    requires band { IfSome band (λ b. (v : ℕ) → v / 32 ≡ b
        → HoldsRow row.old target.now.size.width (pixel_of target.now) v) }
    ensures len { length row.new ≡ 4096 }
    ensures pixels { HoldsRow row.new target.now.size.width (pixel_of target.now) y }
    ensures band { IfSome result (λ b. (v : ℕ) → v / 32 ≡ b
        → HoldsRow row.new target.now.size.width (pixel_of target.now) v) }
{
    let here = y / TILE_SIDE;
    if let Some(known) = band {
        if known == here {
            return band;
        }
    }
    if store_tiles(row, target, y) {
        return Some(here);
    }
    None
}
