//! Lists that run behind another.

ghost use Rattle.std.specs.Prelude.{◌≡◌, ℕ, All};
ghost use Rattle.gfxspec.specs.Tiles.{IsIn};
ghost use Rattle.tileblock.specs.Block.{pixel_at};
ghost use Rattle.tileprog.specs.Several.{behind_it, tiles_with, HasTile};
ghost use Rattle.tileprog.specs.Programs.{pixel_by_all};

use crate::words::{prefetch, run_words};
use binner::Compiled;
use std::alloc::Allocator;
use tileblock::TileBlock;

/// Lists that run behind a first one, in their order, and the tiles that it or one of them touches.
#[derive(Drop)]
pub(crate) struct Behind<A: Allocator> {
    pub(crate) lists: Vec<Compiled<A>, A>,
    pub(crate) touched: Vec<u32, A>,
}

/// The tiles that a first list or one behind it touches.
#[inline]
pub(crate) fn touched_with<'a, A: Allocator + Copy>(
    first: &'a Compiled<A>,
    behind: &'a Option<Behind<A>>,
) -> &'a [u32]
    ensures { result.now ≡ tiles_with first.now behind.now }
{
    match behind {
        Some(behind) => behind.touched.as_slice(),
        None => first.touched(),
    }
}

/// Runs the programs of a tile in lists, in their order, on the tile's block. What they count for issues isn't kept; the number
/// that comes back is what `prefetch` read, an aid and no result.
#[inline(never)]
fn run_lists<A: Allocator + Copy>(lists: &[Compiled<A>], tile: u32, block: &mut TileBlock<A>) -> u64
    requires { All (HasTile tile block.old.rect) lists.now }
    ensures rect { block.new.rect ≡ block.old.rect }
    ensures pixels { (x y : ℕ) → IsIn block.old.rect x y
        → pixel_at block.new x y ≡ pixel_by_all lists.now tile x y (pixel_at block.old x y) }
{
    let mut reads = 0;
    for list in lists {
        reads ^= prefetch(list, tile, block);
        run_words(list, tile, block);
    }
    reads
}

/// The same for the lists that stand behind a first one, if there are any. As they have no issues nothing that they count is lost.
#[inline]
pub(crate) fn run_behind<A: Allocator + Copy>(
    behind: &Option<Behind<A>>,
    tile: u32,
    block: &mut TileBlock<A>,
) -> u64
    requires { All (HasTile tile block.old.rect) (behind_it behind.now) }
    ensures rect { block.new.rect ≡ block.old.rect }
    ensures pixels { (x y : ℕ) → IsIn block.old.rect x y
        → pixel_at block.new x y ≡ pixel_by_all (behind_it behind.now) tile x y (pixel_at block.old x y) }
{
    match behind {
        Some(behind) => run_lists(behind.lists.as_slice(), tile, block),
        None => 0,
    }
}
