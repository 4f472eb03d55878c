//! Colours of a whole tile: writes to each of them, and flips that wait.
//!
//! A write that keeps every bit only flips some: XOR, EQUIV, INVERT. Where it reaches a whole tile nothing is stored: the bits are noted as still to be
//! flipped in all colours of the block, until the tile's program ends. Other writes go to the stored colours, changed so that they mean the same.

ghost use Rattle.std.specs.Prelude.{◌≡◌, ◌*◌, ◌<◌, ◌≤◌, ◌+◌, ℕ};
ghost use Rattle.gfxspec.specs.Tiles.{IsIn, IsInTile};
ghost use Rattle.tileblock.specs.Block.{pixel_at};
ghost use Rattle.tileprog.specs.Alike.{painted, Changed};
ghost use Rattle.tileprog.specs.Painting.{stands_for, written, PaintsAs};

use lanes::write8;
use logicop::ColorWrite;
use states::BlendState;
use std::alloc::Allocator;
use tileblock::{TileBlock, TilePixels};

/// The write to stored colours that does to the colours that they stand for, where these bits are still to be flipped, what a blend state
/// does with a source.
pub(crate) fn write_under(blend: &BlendState, rgba: [u8; 4], flip: u32) -> ColorWrite
    ensures { PaintsAs result blend.now rgba flip }
{
    let write = ColorWrite::of_state(blend, u32::from_le_bytes(rgba));
    ColorWrite {
        keep: write.keep,
        flip: (write.flip ^ flip) ^ (flip & write.keep),
    }
}

/// Does a write to each pixel of a tile. The loop has nothing else: what the write keeps is known to its inlined copies.
#[inline(always)]
fn write_tile(block: &mut TilePixels, write: ColorWrite)
    requires { IsInTile block.old.rect }
    ensures { Changed (written write) block.old block.new }
{
    for at in 0..128u32 {
        let stored = block.color_span(at % 4, at / 4);
        block.set_color_span(at % 4, at / 4, write8(write, &stored));
    }
}

/// Writes a colour to each pixel of a tile. Where all bits are kept, as under XOR, they are flipped later, and where none is, nothing of what was
/// stored is left to be flipped.
#[inline(always)]
pub(crate) fn paint_tile(block: &mut TilePixels, flip: &mut u32, blend: &BlendState, rgba: [u8; 4])
    requires tile { IsInTile block.old.rect }
    ensures rect { block.new.rect ≡ block.old.rect }
    ensures pixels { (u v : ℕ) → IsIn block.old.rect u v → stands_for flip.new block.new u v ≡ painted blend.now rgba (stands_for flip.old block.old u v) }
{
    let write = ColorWrite::of_state(blend, u32::from_le_bytes(rgba));
    if write.keep == u32::MAX {
        *flip ^= write.flip;
        return;
    }
    if write.keep == 0 {
        *flip = 0;
        let all = write.flip;
        write_tile(block, ColorWrite { keep: 0, flip: all });
        return;
    }
    write_tile(block, write_under(blend, rgba, *flip));
}

/// Flips the bits of all colours of a tile that are still to be flipped.
pub(crate) fn flip_tile<A: Allocator>(block: &mut TileBlock<A>, flip: u32)
    requires { IsInTile block.old.rect }
    ensures rect { block.new.rect ≡ block.old.rect }
    ensures pixels { (u v : ℕ) → IsIn block.old.rect u v → pixel_at block.new u v ≡ stands_for flip block.old u v }
{
    if flip != 0 {
        let keep = u32::MAX;
        write_tile(block.pixels_mut(), ColorWrite { keep, flip });
    }
}
