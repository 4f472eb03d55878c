//! The tiles of a target: 32 by 32 pixels each, numbered by rows from the upper left.

ghost use Rattle.std.specs.Prelude.{◌≡◌, ◌<◌, ◌≤◌, ℕ, IsTrue};
ghost use Rattle.gfxspec.specs.declared.geometry.Size.{Size};
ghost use Rattle.gfxspec.specs.Limits.{is_size, side_bound};
ghost use Rattle.gfxspec.specs.Tiles.{tiles_along, tile_count, tile_rect, IsInTile, EachPixelOnce};

use crate::geometry::{PixelRect, Size};
use crate::{SIDE_LIMIT, TILE_SIDE};

/// Whether a target may have this size.
pub fn is_size(size: Size) -> bool
    ensures { result ≡ is_size size }
{
    let Size { width, height } = size;
    0 < width && width <= SIDE_LIMIT && 0 < height && height <= SIDE_LIMIT
}

/// How many tiles stand side by side along so many pixels.
pub fn tiles_along(side: u32) -> u32
    requires { side ≤ side_bound }
    ensures value { result ≡ tiles_along side }
    ensures few { result ≤ 128 }
{
    (side + (TILE_SIDE - 1)) / TILE_SIDE
}

/// How many tiles a target has.
pub fn tile_count(size: Size) -> u32
    requires { IsTrue (is_size size) }
    ensures value { result ≡ tile_count size }
    ensures few { result ≤ 16384 }
{
    tiles_along(size.width) * tiles_along(size.height)
}

/// The part of a tile that lies on the target.
pub fn tile_rect(size: Size, tile: u32) -> PixelRect
    requires size { IsTrue (is_size size) }
    requires tile { tile < tile_count size }
    ensures value { result ≡ tile_rect size tile }
    ensures in_tile { IsInTile result }
{
    let along = tiles_along(size.width);
    let left = TILE_SIDE * (tile % along);
    let top = TILE_SIDE * (tile / along);
    PixelRect {
        left,
        top,
        right: (left + TILE_SIDE).min(size.width),
        bottom: (top + TILE_SIDE).min(size.height),
    }
}

/// The tiles of any target have each of its pixels once, and there are few of them.
pub fn tiles_have_each_pixel_once()
    ensures once { (s : Size) → EachPixelOnce s }
    ensures few { (s : Size) → s.width ≤ side_bound → s.height ≤ side_bound → tile_count s ≤ 16384 }
{}
