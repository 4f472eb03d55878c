//! The words of a tile, in order.

ghost use Rattle.std.specs.Prelude.{◌≡◌, ◌<◌, ◌≤◌, ◌+◌, ◌^◌, ◌==◌, ℕ, None, Some, length, if◌then◌else◌};
ghost use Rattle.std.specs.Int.{bit_at};
ghost use Rattle.gfxspec.specs.Tiles.{IsIn, tile_count, tile_rect};
ghost use Rattle.meaning.specs.Over.{sum_over};
ghost use Rattle.binner.specs.Program.{after_word, color_put, depth_put, force_after};
ghost use Rattle.binner.specs.Meaning.{WordFits};
ghost use Rattle.tileprog.specs.Painting.{stands_for};
ghost use Rattle.tileprog.specs.Passing.{shown, word_passed, is_open, NamesState, HasGrown, AtMost, IsTile};
ghost use Rattle.tileprog.specs.Runs.{RunsTo};

use crate::paint::flip_tile;
use crate::triangles::run_unless_hidden;
use binner::{Compiled, StateEntry};
use gfxspec::DepthStencil;
use std::alloc::Allocator;
use tileblock::TileBlock;
use tileword::{Word, decode};

/// What passed, if the issue is open.
#[inline]
fn share(issues: u64, issue: usize, passed: u32) -> u32
    requires { issue < 64 }
    ensures { result ≡ (if bit_at issues issue == 1 then passed else 0) }
{
    if issues >> issue & 1 == 1 { passed } else { 0 }
}

/// Adds a number to the count of each open issue.
fn add_counts(counts: &mut [u32; 64], issues: u64, passed: u32)
    requires room { AtMost counts.old (2 ^ 31) }
    requires few { passed ≤ 1024 }
    ensures { HasGrown counts.old counts.new (λ k. if bit_at issues k == 1 then passed else 0) }
{
    if issues == 0 {
        return;
    }
    for k in 0..64usize {
        counts[k] += share(issues, k, passed);
    }
}

/// Adds what passed to the counts of the issues that are open in the entry in force.
fn count_word(counts: &mut [u32; 64], force: Option<&StateEntry>, passed: u32)
    requires room { AtMost counts.old (2 ^ 31) }
    requires few { passed ≤ 1024 }
    ensures { HasGrown counts.old counts.new (λ k. if is_open (shown force.entry) k then passed else 0) }
{
    if let Some(entry) = force {
        add_counts(counts, entry.issues, passed);
    }
}

/// The entry in force behind a word.
#[inline]
fn next_force<'a, A: Allocator + Copy>(
    compiled: &'a Compiled<A>,
    force: Option<&'a StateEntry>,
    word: Word,
) -> Option<&'a StateEntry>
    requires { NamesState compiled.now.tables word }
    ensures { shown result ≡ force_after compiled.now.tables (shown force.entry) word }
{
    match word {
        Word::State(number) => Some(compiled.state(number)),
        Word::Tri(_, _) | Word::ClearC(_) | Word::ClearDs(_) => force,
    }
}

/// Clears the colours of a block, of which no bits are to be flipped then.
fn clear_colors<A: Allocator>(block: &mut TileBlock<A>, flip: &mut u32, rgba: [u8; 4])
    ensures rect { block.new.rect ≡ block.old.rect }
    ensures pixels { (u v : ℕ) → IsIn block.old.rect u v → stands_for flip.new block.new u v ≡ color_put (Some rgba) (stands_for flip.old block.old u v) }
{
    block.clear_color(rgba);
    *flip = 0;
}

/// Clears the depths and stencil values of a block, whatever bits of its colours are still to be flipped.
fn clear_depths<A: Allocator>(block: &mut TileBlock<A>, value: DepthStencil)
    ensures rect { block.new.rect ≡ block.old.rect }
    ensures pixels { (flip u v : ℕ) → IsIn block.old.rect u v → stands_for flip block.new u v ≡ depth_put (Some value) (stands_for flip block.old u v) }
{
    block.clear_depth_stencil(value);
}

/// Runs one word on a block of whose colours bits are still to be flipped; the answer is how many pixels pass.
#[inline(always)]
fn run_word<A: Allocator + Copy>(
    compiled: &Compiled<A>,
    force: Option<&StateEntry>,
    word: Word,
    block: &mut TileBlock<A>,
    flip: &mut u32,
) -> u32
    requires tile { IsTile block.old.rect }
    requires fits { WordFits compiled.now.tables block.old.rect (shown force) word }
    ensures rect { block.new.rect ≡ block.old.rect }
    ensures pixels { (u v : ℕ) → IsIn block.old.rect u v → stands_for flip.new block.new u v ≡ after_word compiled.now.tables (shown force.entry) word u v (stands_for flip.old block.old u v) }
    ensures passed { result ≡ sum_over block.old.rect (word_passed compiled.now.tables (shown force.entry) word (stands_for flip.old block.old)) }
{
    match word {
        Word::State(_) => 0,
        Word::Tri(number, mask) => match force {
            Some(entry) => run_unless_hidden(block, flip, compiled.tri(number), mask, entry),
            None => unreachable!(),
        },
        Word::ClearC(number) => {
            clear_colors(block, flip, compiled.color(number));
            0
        }
        Word::ClearDs(number) => {
            clear_depths(block, compiled.depth_stencil(number));
            0
        }
    }
}

/// Fewer triangles than these read less of a tile than all of its rows.
const FEW_TRIANGLES: u32 = 4;

/// Reads a part of the record of each triangle of a tile's program, and of the tile's pixels where it has several, so that all are on
/// their way from memory side by side before the first triangle is drawn. The number is an aid and not a result: it says nothing of
/// the tile, and is kept only so that the reads are done.
pub(crate) fn prefetch<A: Allocator + Copy>(
    compiled: &Compiled<A>,
    tile: u32,
    block: &TileBlock<A>,
) -> u64
    requires { tile < tile_count compiled.now.size }
{
    let mut reads = 0;
    let mut drawn = 0u32;
    for number in compiled.words(tile) {
        if let Some(Word::Tri(triangle, _)) = decode(number) {
            reads ^= compiled.prefetch(triangle);
            drawn = drawn.saturating_add(1);
        }
    }
    if drawn < FEW_TRIANGLES {
        return reads;
    }
    reads ^ block.prefetch()
}

/// Runs the program of a tile on its block; the answer has the count of each issue.
pub(crate) fn run_words<A: Allocator + Copy>(
    compiled: &Compiled<A>,
    tile: u32,
    block: &mut TileBlock<A>,
) -> [u32; 64]
    requires tile { tile < tile_count compiled.now.size }
    requires rect { block.old.rect ≡ tile_rect compiled.now.size tile }
    ensures { RunsTo compiled.now tile block.old block.new result }
{
    let _size = compiled.size();
    let mut counts = [0; 64];
    let mut force: Option<&StateEntry> = None;
    let mut flip = 0;
    for number in compiled.words(tile) {
        let Some(word) = decode(number) else {
            unreachable!()
        };
        let passed = run_word(compiled, force, word, block, &mut flip);
        if passed != 0 {
            count_word(&mut counts, force, passed);
        }
        force = next_force(compiled, force, word);
    }
    flip_tile(block, flip);
    counts
}
