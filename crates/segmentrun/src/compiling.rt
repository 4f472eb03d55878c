//! Segments that become one list.

ghost use Rattle.std.specs.Prelude.{◌≡◌, IsTrue, IfSome, IfOk, IfErr};
ghost use Rattle.gfxspec.specs.declared.error.GfxError.TheVariants.{OutOfMemory};
ghost use Rattle.gfxspec.specs.Limits.{is_size};
ghost use Rattle.gfxspec.specs.Tiles.{tile_count};
ghost use Rattle.binmem.specs.Lists.{no_words};
ghost use Rattle.cmdlist.specs.Drawable.{told};
ghost use Rattle.binner.specs.Segments.{cut_items};
ghost use Rattle.segmentrun.specs.Windows.{IsCompiled};

use binmem::Bins;
use binner::{Batch, Compiled, Segment};
use gfxspec::{GfxError, LIST_LIMIT, Size, tile_count};
use std::alloc::Allocator;

/// How many triangles have room from the first on, where segments draw no more: those that are drawn again take none.
fn room_for<A: Allocator>(segments: &[Segment<A>]) -> usize {
    let mut room = 0usize;
    for segment in segments {
        room = room.saturating_add(segment.most_triangles());
    }
    room.min(LIST_LIMIT as usize)
}

/// Segments as one list, with empty bins of as many tiles as the target has.
fn compile_all<A: Allocator + Copy>(
    alloc: A,
    segments: &[Segment<A>],
    size: Size,
    results: &[bool; 64],
    bins: Bins<A>,
) -> Result<Compiled<A>, Bins<A>>
    requires size { IsTrue (is_size size) }
    requires empty { bins ≡ no_words (tile_count size) }
    ensures compiled { IfOk result (IsCompiled size (cut_items (told results.now) segments.now)) }
    ensures refused { IfErr result (λ back. back ≡ no_words (tile_count size)) }
{
    let mut batch = Batch::new(alloc, size, bins, room_for(segments))?;
    for segment in segments {
        batch = batch.add(segment, results)?;
    }
    Ok(batch.finish())
}

/// Segments as one list, with these empty bins or with new ones. Refused with OutOfMemory alone: without memory, and where the
/// list would name more than 65,536 states, triangles or clears.
pub(crate) fn compile_window<A: Allocator + Copy>(
    alloc: A,
    segments: &[Segment<A>],
    size: Size,
    results: &[bool; 64],
    bins: Option<Bins<A>>,
) -> Result<Compiled<A>, GfxError>
    requires size { IsTrue (is_size size) }
    requires empty { IfSome bins (λ bins. bins ≡ no_words (tile_count size)) }
    ensures compiled { IfOk result (IsCompiled size (cut_items (told results.now) segments.now)) }
    ensures memory { IfErr result (λ e. e ≡ OutOfMemory) }
{
    let bins = match bins {
        Some(bins) => bins,
        None => Bins::new(alloc, tile_count(size))?,
    };
    match compile_all(alloc, segments, size, results, bins) {
        Ok(compiled) => Ok(compiled),
        Err(_) => Err(GfxError::OutOfMemory),
    }
}
