//! A tile before and after its program.

ghost use Rattle.std.specs.Prelude.{◌≡◌, ◌<◌, slice_index};
ghost use Rattle.gfxspec.specs.Tiles.{tile_count, tile_rect};
ghost use Rattle.tileprog.specs.Runs.{RunsTo};

use crate::words::run_words;
use binner::Compiled;
use std::alloc::Allocator;
use std::snapshot::Snapshot;
use tileblock::{OpenTile, TileBlock};

/// A tile after its program. Nothing but `run_tile` makes one: its type keeps that the block is what the program of the
/// tile's number, in that compiled list, leaves of the opening block, and the counts what it counts there.
#[derive(Drop)]
pub struct DoneTile<A: Allocator> {
    number: u32,
    compiled: Snapshot<Compiled<A>>,
    opening: Snapshot<TileBlock<A>>,
    block: TileBlock<A>,
    counts: [u32; 64],
    ghost ran: { RunsTo compiled.value number opening.value block counts },
}

/// Runs the program of a tile; it takes no memory and always succeeds.
pub fn run_tile<A: Allocator + Copy>(compiled: &Compiled<A>, tile: OpenTile<A>) -> DoneTile<A>
    requires number { tile.number < tile_count compiled.now.size }
    requires rect { tile.block.rect ≡ tile_rect compiled.now.size tile.number }
    ensures number { result.number ≡ tile.number }
    ensures compiled { result.compiled.value ≡ compiled.now }
    ensures opening { result.opening.value ≡ tile.block }
{
    let OpenTile { number, mut block } = tile;
    let opening = Snapshot::of(&block);
    let counts = run_words(compiled, number, &mut block);
    DoneTile {
        number,
        compiled: Snapshot::of(compiled),
        opening,
        block,
        counts,
    }
}

/// The count of an issue; 0 for an issue past the 64.
pub(crate) fn count_of(counts: &[u32; 64], issue: u32) -> u64
    ensures { result ≡ slice_index counts.now issue }
{
    match counts.get(issue as usize) {
        Some(count) => u64::from(*count),
        None => 0,
    }
}

impl<A: Allocator> DoneTile<A> {
    ghost use Rattle.std.specs.Prelude.{◌≡◌, ◌<◌, slice_index};

    /// The tile's number.
    pub fn number(&self) -> u32
        ensures { result ≡ self.now.number }
    {
        self.number
    }

    /// How many pixels passed both tests while an issue was open; 0 for an issue past the 64.
    pub fn count(&self, issue: u32) -> u64
        ensures { result ≡ slice_index self.now.counts issue }
    {
        count_of(&self.counts, issue)
    }

    /// The block that the program left.
    pub fn into_block(self) -> TileBlock<A>
        ensures { result ≡ self.block }
    {
        self.block
    }
}
