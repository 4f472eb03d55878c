//! Blocks of a target: taking one out and putting it back takes no memory, be the tiles 3 or 3,000.

ghost use Rattle.std.specs.Prelude.{◌≡◌, ◌<◌};
ghost use Rattle.gfxspec.specs.Tiles.{tile_count};
ghost use Rattle.tileblock.specs.Surface.{IsWhole};

use gfxspec::GfxError;
use refusing::Refusing;
use std::alloc::Allocator;
use std::test::Fail;
use tileblock::Target;

// Takes the block of a tile out, and puts it back.
fn move_one<A: Allocator>(target: &mut Target<A>, tile: u32)
    requires { IsWhole target.old × (tile < tile_count target.old.size) }
    ensures { IsWhole target.new × (target.new.size ≡ target.old.size) }
{
    let out = target.take(tile);
    target.put(tile, out.block);
}

// Makes a target, and moves the block of each tile so many times; how many tiles there are.
fn move_all<A: Allocator + Copy>(
    alloc: A,
    width: u32,
    height: u32,
    times: u32,
) -> Result<u32, GfxError> {
    let mut target = Target::split(alloc, width, height)?;
    let tiles = target.tiles();
    for _ in 0..times {
        for tile in 0..tiles {
            move_one(&mut target, tile);
        }
    }
    Ok(tiles)
}

#[test]
fn blocks_move_without_memory(rt: HostRuntime) -> Result<(), Fail> {
    for (width, height, tiles) in [(96u32, 32u32, 3u32), (1920, 1600, 3_000)] {
        let still = Refusing::new(rt.alloc(), 0);
        assert!(rt; move_all(&still, width, height, 0)? == tiles);
        let moved = Refusing::new(rt.alloc(), 0);
        assert!(rt; move_all(&moved, width, height, 1)? == tiles);
        assert!(rt; still.count() == moved.count());
    }
    Ok(())
}
