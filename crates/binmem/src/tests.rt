//! Worked lists of two tiles, lists at the ends of chunks, all tiles in rounds, and growths that are refused.

ghost use Rattle.std.specs.Prelude.{◌≡◌, ◌<◌, ◌≤◌, ◌+◌, ◌-◌, length, IfOk, OnOk};
ghost use Rattle.binmem.specs.Lists.{word_count, no_words};

use crate::{Bins, SealedBins};
use gfxspec::GfxError;
use refusing::Refusing;
use std::alloc::Allocator;
use std::test::Fail;

/// Pushes the words from `first` on and before `last` to a tile.
fn push_row<A: Allocator + Copy>(
    bins: &mut Bins<A>,
    tile: u32,
    first: u32,
    last: u32,
) -> Result<(), GfxError>
    requires tile { tile < length bins.old }
    requires order { first ≤ last }
    requires room { word_count bins.old + (last - first) < 4000000000 }
    ensures tiles { length bins.new ≡ length bins.old }
    ensures words { OnOk result (word_count bins.new + first ≤ word_count bins.old + last) }
{
    for word in first..last {
        if bins.push(tile, word).is_err() {
            return Err(GfxError::OutOfMemory);
        }
    }
    Ok(())
}

/// Whether a tile has the words from `first` on and before `last`.
fn has_row<A: Allocator + Copy>(bins: &SealedBins<A>, tile: u32, first: u32, last: u32) -> bool
    requires { tile < length bins.now }
{
    let mut next = first;
    for word in bins.words(tile) {
        if word != next {
            return false;
        }
        next = next.wrapping_add(1);
    }
    next == last
}

/// Two tiles: words 1 to 63, and word 9 for the other tile behind the 30th.
fn two_tiles<A: Allocator + Copy>(alloc: A) -> Result<Bins<A>, GfxError>
    ensures tiles { IfOk result (λ bins. length bins ≡ 2) }
    ensures few { IfOk result (λ bins. word_count bins < 1000) }
{
    let mut bins = Bins::new(alloc, 2)?;
    fill(&mut bins)?;
    Ok(bins)
}

fn fill<A: Allocator + Copy>(bins: &mut Bins<A>) -> Result<(), GfxError>
    requires tiles { length bins.old ≡ 2 }
    requires few { word_count bins.old < 100 }
    ensures tiles { length bins.new ≡ 2 }
    ensures few { OnOk result (word_count bins.new < 1000) }
{
    push_row(bins, 0, 1, 31)?;
    push_row(bins, 1, 9, 10)?;
    push_row(bins, 0, 31, 64)
}

#[test]
fn words_in_order(rt: HostRuntime) -> Result<(), Fail> {
    let sealed = two_tiles(rt.alloc())?.seal();
    assert!(rt; has_row(&sealed, 0, 1, 64));
    assert!(rt; has_row(&sealed, 1, 9, 10));
    Ok(())
}

#[test]
fn words_behind_a_cut(rt: HostRuntime) -> Result<(), Fail> {
    let mut bins = two_tiles(rt.alloc())?;
    assert!(rt; !bins.tail(0).is_empty());
    bins.cut(0);
    assert!(rt; bins.tail(0).is_empty());
    push_row(&mut bins, 0, 7, 8)?;
    let sealed = bins.seal();
    assert!(rt; has_row(&sealed, 0, 7, 8));
    assert!(rt; has_row(&sealed, 1, 9, 10));
    Ok(())
}

// Emptied lists keep their memory, so the same filling takes none.
#[test]
fn a_second_filling_takes_no_memory(rt: HostRuntime) -> Result<(), Fail> {
    let alloc = Refusing::new(rt.alloc(), 0);
    let bins = two_tiles(&alloc)?;
    let growths = alloc.count();
    let mut again = bins.seal().reuse();
    fill(&mut again)?;
    let mut once_more = again.seal().reuse_tiles(&[1, 0]);
    fill(&mut once_more)?;
    let sealed = once_more.seal();
    assert!(rt; has_row(&sealed, 0, 1, 64));
    assert!(rt; has_row(&sealed, 1, 9, 10));
    assert!(rt; alloc.count() == growths);
    Ok(())
}

/// A list of `count` words in one tile, all of them read again.
fn one_list<A: Allocator + Copy>(alloc: A, count: u32) -> Result<bool, GfxError>
    requires { count < 1000 }
{
    let mut bins = Bins::new(alloc, 1)?;
    push_row(&mut bins, 0, 1, count + 1)?;
    Ok(has_row(&bins.seal(), 0, 1, count + 1))
}

// A chunk has room for 62 words.
#[test]
fn words_across_chunks(rt: HostRuntime) -> Result<(), Fail> {
    for count in [61, 62, 63, 124, 125] {
        assert!(rt; one_list(rt.alloc(), count)?);
    }
    Ok(())
}

const TILES: u32 = 4096;

const ROUNDS: u32 = 63;

/// Pushes one word to each tile.
fn push_round<A: Allocator + Copy>(bins: &mut Bins<A>, word: u32) -> Result<(), GfxError>
    requires tiles { length bins.old ≡ 4096 }
    requires room { word_count bins.old + 4096 < 4000000000 }
    ensures tiles { length bins.new ≡ 4096 }
    ensures words { OnOk result (word_count bins.new ≤ word_count bins.old + 4096) }
{
    for tile in 0..TILES {
        if bins.push(tile, word).is_err() {
            return Err(GfxError::OutOfMemory);
        }
    }
    Ok(())
}

/// Pushes a word to each tile, tile after tile, and then the next.
fn push_rounds<A: Allocator + Copy>(bins: &mut Bins<A>) -> Result<(), GfxError>
    requires { bins.old ≡ no_words 4096 }
    ensures { length bins.new ≡ 4096 }
{
    for word in 0..ROUNDS {
        push_round(bins, word)?;
    }
    Ok(())
}

/// Whether each tile has the words of all rounds.
fn has_rounds<A: Allocator + Copy>(bins: &SealedBins<A>) -> bool
    requires { length bins.now ≡ 4096 }
{
    for tile in 0..TILES {
        if !has_row(bins, tile, 0, ROUNDS) {
            return false;
        }
    }
    true
}

#[test]
fn rounds_of_all_tiles(rt: HostRuntime) -> Result<(), Fail> {
    let alloc = Refusing::new(rt.alloc(), 0);
    let mut bins = Bins::new(&alloc, TILES)?;
    push_rounds(&mut bins)?;
    let sealed = bins.seal();
    assert!(rt; has_rounds(&sealed));
    let growths = alloc.count();
    let mut again = sealed.reuse();
    push_rounds(&mut again)?;
    let sealed_again = again.seal();
    assert!(rt; has_rounds(&sealed_again));
    assert!(rt; alloc.count() == growths);
    Ok(())
}

/// As many words for tile 1 as tile 0 had before it was emptied.
fn one_after_another<A: Allocator + Copy>(alloc: A, count: u32) -> Result<bool, GfxError>
    requires { count < 20000 }
{
    let mut bins = Bins::new(alloc, 2)?;
    push_row(&mut bins, 0, 0, count)?;
    bins.cut(0);
    push_row(&mut bins, 1, 0, count)?;
    let sealed = bins.seal();
    Ok(has_row(&sealed, 0, 0, 0) && has_row(&sealed, 1, 0, count))
}

// Of two tiles, of which the second takes the chunks that the first gave back: as many growths as one tile takes.
#[test]
fn an_emptied_list_gives_room(rt: HostRuntime) -> Result<(), Fail> {
    for count in [124, 15872] {
        let one = Refusing::new(rt.alloc(), 0);
        let mut bins = Bins::new(&one, 2)?;
        push_row(&mut bins, 0, 0, count)?;
        let growths = one.count();
        let both = Refusing::new(rt.alloc(), growths.saturating_add(1));
        assert!(rt; one_after_another(&both, count)?);
        assert!(rt; !both.refused());
    }
    Ok(())
}

/// A list of 16,000 words, of which the first writing may be refused, and not the second.
fn long_list<A: Allocator + Copy>(alloc: A) -> Result<bool, GfxError> {
    let mut bins = match Bins::new(alloc, 1) {
        Ok(bins) => bins,
        Err(_) => Bins::new(alloc, 1)?,
    };
    let _refused = push_row(&mut bins, 0, 0, 16_000).is_err();
    let mut again = bins.seal().reuse();
    push_row(&mut again, 0, 0, 16_000)?;
    Ok(has_row(&again.seal(), 0, 0, 16_000))
}

// Two slabs are wanted: 15,872 words fill one.
#[test]
fn each_growth_refused(rt: HostRuntime) -> Result<(), Fail> {
    let ample = Refusing::new(rt.alloc(), 0);
    assert!(rt; long_list(&ample)?);
    let growths = ample.count();
    assert!(rt; 3 <= growths);
    for n in 1..growths.saturating_add(1) {
        assert!(rt; long_list(&Refusing::new(rt.alloc(), n))?);
    }
    Ok(())
}
