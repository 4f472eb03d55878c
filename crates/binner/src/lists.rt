//! The lists of words of all tiles, while they are written.
//!
//! No table says which entry is in force in a tile: triangles have their numbers in the order in which they are first drawn,
//! so the last one of a tile was drawn under the current entry where its number isn't below that entry's first. Behind one
//! that is drawn again, whose number may be lower, the entry is put in force once more.

ghost use Rattle.std.specs.Prelude.{◌≡◌, ◌<◌, ◌≤◌, ◌+◌, ◌*◌, ℕ, List, length, IsTrue, OnOk, IfSome, Some, if◌then◌else◌, ◌++◌, ◌∷◌, [], slice_set, true};
ghost use Rattle.gfxspec.specs.Limits.{is_size};
ghost use Rattle.gfxspec.specs.Tiles.{tiles_along, tile_count, tile_rect};
ghost use Rattle.classify.specs.Region.{IsReal};
ghost use Rattle.binmem.specs.Lists.{word_count, with_word as with_number};
ghost use Rattle.binner.specs.Cuts.{AreBothClears};
ghost use Rattle.binner.specs.Lists.{at, has_some, IsLists, IsShort, IsDrawnSince, ChangesAt, EachChanges, GainsWord, PutsInForce, AddsTriangle, TakesTriangle, CanCut, both_left, TakesClear};

use crate::entry::Current;
use crate::setup::TriSetup;
use binmem::Bins;
use classify::{Class, classify};
use edges::EdgeSet;
use gfxspec::{PixelRect, Size, TILE_SIDE, tile_count, tiles_along};
use std::alloc::{AllocError, Allocator};
use tileword::{EdgeMask, Word, decode, encode};

/// The lists of words of the tiles of a target.
#[derive(Drop)]
pub struct Lists<A: Allocator> {
    pub size: Size,
    pub bins: Bins<A>,
    /// Whether a triangle of the tile is counted.
    pub counted: Vec<bool, A>,
    /// The tiles that have words, each once.
    pub touched: Vec<u32, A>,
}

/// The part of a tile that lies on the target, by its column and row.
fn rect_at(size: Size, column: u32, row: u32) -> PixelRect
    requires size { IsTrue (is_size size) }
    requires column { column < tiles_along size.width }
    requires row { row < tiles_along size.height }
    ensures value { result ≡ tile_rect size (row * tiles_along size.width + column) }
    ensures real { IsReal result }
{
    let left = TILE_SIDE * column;
    let top = TILE_SIDE * row;
    PixelRect {
        left,
        top,
        right: (left + TILE_SIDE).min(size.width),
        bottom: (top + TILE_SIDE).min(size.height),
    }
}

/// Notes a tile that gets its first word.
fn mark<A: Allocator>(touched: &mut Vec<u32, A>, tile: u32, known: bool) -> Result<(), AllocError>
    ensures { OnOk result (touched.new.items ≡ (if known then touched.old.items else touched.old.items ++ tile ∷ [])) }
{
    if !known {
        touched.push(tile)?;
    }
    Ok(())
}

/// Puts a number at the end of a tile's list.
fn push_number<A: Allocator + Copy>(
    bins: &mut Bins<A>,
    tile: u32,
    number: u32,
) -> Result<(), AllocError>
    requires in_range { tile < length bins.old }
    requires room { word_count bins.old < 4000000000 }
    ensures bins { length bins.new ≡ length bins.old }
    ensures pushed { OnOk result (bins.new ≡ with_number bins.old tile number) }
{
    bins.push(tile, number).or(Err(AllocError))
}

/// Puts a word at the end of a tile's list.
#[inline(always)]
fn push_word<A: Allocator + Copy>(
    lists: &mut Lists<A>,
    tile: u32,
    word: Word,
) -> Result<(), AllocError>
    requires sound { IsLists lists.old }
    requires tile { tile < tile_count lists.old.size }
    requires room { IsShort 240000 lists.old }
    ensures bins { length lists.new.bins ≡ length lists.old.bins }
    ensures sound { OnOk result (IsLists lists.new) }
    ensures pushed { OnOk result (ChangesAt tile (GainsWord word) lists.old lists.new) }
{
    let known = !lists.bins.tail(tile).is_empty();
    mark(&mut lists.touched, tile, known)?;
    push_number(&mut lists.bins, tile, encode(word))
}

/// Puts a word behind others of a tile's list.
#[inline(always)]
fn push_behind<A: Allocator + Copy>(
    lists: &mut Lists<A>,
    tile: u32,
    word: Word,
) -> Result<(), AllocError>
    requires sound { IsLists lists.old }
    requires tile { tile < tile_count lists.old.size }
    requires room { IsShort 240000 lists.old }
    requires others { IsTrue (has_some (at lists.old tile).numbers) }
    ensures bins { length lists.new.bins ≡ length lists.old.bins }
    ensures sound { OnOk result (IsLists lists.new) }
    ensures pushed { OnOk result (ChangesAt tile (GainsWord word) lists.old lists.new) }
{
    push_number(&mut lists.bins, tile, encode(word))
}

/// Whether a list's last words are a triangle, this one or a later one, and clears behind it.
#[inline(always)]
fn is_drawn_since(tail: &[u32], first: u32) -> bool
    ensures { IsTrue result → IsDrawnSince first tail.now }
{
    for place in (0..tail.len()).rev() {
        match decode(tail[place]) {
            Some(Word::Tri(number, _)) => return first <= u32::from(number),
            Some(Word::ClearC(_) | Word::ClearDs(_)) => {}
            Some(Word::State(_)) | None => return false,
        }
    }
    false
}

/// Puts the current entry in force in a tile.
#[inline(always)]
fn put_in_force<A: Allocator + Copy>(
    lists: &mut Lists<A>,
    tile: u32,
    current: Current,
) -> Result<(), AllocError>
    requires sound { IsLists lists.old }
    requires tile { tile < tile_count lists.old.size }
    requires room { IsShort 240000 lists.old }
    ensures bins { length lists.new.bins ≡ length lists.old.bins }
    ensures sound { OnOk result (IsLists lists.new) }
    ensures forced { OnOk result (ChangesAt tile (PutsInForce current) lists.old lists.new) }
{
    if is_drawn_since(lists.bins.tail(tile), current.first) {
        return Ok(());
    }
    push_word(lists, tile, Word::State(current.entry))
}

/// Notes whether a tile has a counted triangle.
fn note_counted<A: Allocator>(counted: &mut Vec<bool, A>, tile: u32, now: bool)
    requires { tile < length counted.old.items }
    ensures { counted.new.items ≡ (if now then slice_set counted.old.items tile true else counted.old.items) }
{
    if now {
        counted[tile as usize] = true;
    }
}

/// Adds the words of a triangle to a tile's list, none where the tile lies outside of it.
#[inline(always)]
fn add_triangle<A: Allocator + Copy>(
    lists: &mut Lists<A>,
    tile: u32,
    rect: PixelRect,
    edges: &EdgeSet,
    current: Current,
    number: u16,
) -> Result<(), AllocError>
    requires sound { IsLists lists.old }
    requires tile { tile < tile_count lists.old.size }
    requires rect { rect ≡ tile_rect lists.old.size tile }
    requires real { IsReal rect }
    requires room { IsShort 239999 lists.old }
    ensures bins { length lists.new.bins ≡ length lists.old.bins }
    ensures sound { OnOk result (IsLists lists.new) }
    ensures added { OnOk result (ChangesAt tile (AddsTriangle edges.now (tile_rect lists.old.size tile) current number) lists.old lists.new) }
{
    let Class::Cut(mask) = classify(edges, rect) else {
        return Ok(());
    };
    put_in_force(lists, tile, current)?;
    push_behind(lists, tile, Word::Tri(number, EdgeMask::new(mask)))?;
    note_counted(&mut lists.counted, tile, current.counted);
    Ok(())
}

/// Adds a triangle to each tile that its bounds meet.
#[inline(always)]
pub(crate) fn add_to_tiles<A: Allocator + Copy>(
    lists: &mut Lists<A>,
    setup: &TriSetup,
    current: Current,
    number: u16,
) -> Result<(), AllocError>
    requires sound { IsLists lists.old }
    requires room { IsShort 239997 lists.old }
    ensures bins { length lists.new.bins ≡ length lists.old.bins }
    ensures sound { OnOk result (IsLists lists.new) }
    ensures added { OnOk result (EachChanges (λ k. TakesTriangle setup.now.plane.triangle setup.now.bounds (tile_rect lists.old.size k) current number) lists.old lists.new) }
{
    let size = lists.size;
    let along = tiles_along(size.width);
    let bounds = setup.bounds.rect();
    let left = bounds.left / TILE_SIDE;
    let top = bounds.top / TILE_SIDE;
    let right = tiles_along(bounds.right.min(size.width));
    let bottom = tiles_along(bounds.bottom.min(size.height));
    if left >= right || top >= bottom {
        return Ok(());
    }
    'rows: for row in top..bottom {
        'columns: for column in left..right {
            let rect = rect_at(size, column, row);
            let tile = row * along + column;
            add_triangle(lists, tile, rect, &setup.edges, current, number)?;
        }
    }
    Ok(())
}

/// Whether two words are the two kinds of clears.
fn are_both_clears(first: Word, second: Word) -> bool
    ensures { IsTrue result → AreBothClears (first ∷ second ∷ []) }
{
    match (first, second) {
        (Word::ClearC(_), Word::ClearDs(_)) => true,
        (Word::ClearDs(_), Word::ClearC(_)) => true,
        _ => false,
    }
}

/// The number of a tile's last word, if it is the clear of the other kind and no triangle of the tile is counted: then this
/// clear and that one hide all that stands before them.
fn clear_to_keep<A: Allocator + Copy>(lists: &Lists<A>, tile: u32, word: Word) -> Option<u32>
    requires sound { IsLists lists.now }
    requires tile { tile < tile_count lists.now.size }
    ensures { IfSome result (λ number. CanCut number word (at lists.now tile)) }
{
    if lists.counted[tile as usize] {
        return None;
    }
    let number = *lists.bins.tail(tile).last()?;
    let first = decode(number)?;
    if are_both_clears(first, word) {
        Some(number)
    } else {
        None
    }
}

/// Leaves a tile with both clears alone.
fn cut<A: Allocator + Copy>(
    lists: &mut Lists<A>,
    tile: u32,
    number: u32,
    word: Word,
) -> Result<(), AllocError>
    requires sound { IsLists lists.old }
    requires tile { tile < tile_count lists.old.size }
    requires room { IsShort 239999 lists.old }
    requires can { CanCut number word (at lists.old tile) }
    ensures bins { length lists.new.bins ≡ length lists.old.bins }
    ensures sound { OnOk result (IsLists lists.new) }
    ensures cut { OnOk result (ChangesAt tile (λ o n. n ≡ both_left number word o) lists.old lists.new) }
{
    lists.bins.cut(tile);
    push_number(&mut lists.bins, tile, number)?;
    push_number(&mut lists.bins, tile, encode(word))
}

/// Adds a clear to a tile's list, and drops the words that it and the one before it hide.
fn add_clear<A: Allocator + Copy>(
    lists: &mut Lists<A>,
    tile: u32,
    word: Word,
) -> Result<(), AllocError>
    requires sound { IsLists lists.old }
    requires tile { tile < tile_count lists.old.size }
    requires room { IsShort 239999 lists.old }
    ensures bins { length lists.new.bins ≡ length lists.old.bins }
    ensures sound { OnOk result (IsLists lists.new) }
    ensures taken { OnOk result (ChangesAt tile (TakesClear word) lists.old lists.new) }
{
    match clear_to_keep(lists, tile, word) {
        Some(number) => cut(lists, tile, number, word),
        None => push_word(lists, tile, word),
    }
}

/// Adds a clear to every tile, which leaves the state in force, or drops it with all that is hidden.
pub(crate) fn add_to_all<A: Allocator + Copy>(
    lists: &mut Lists<A>,
    word: Word,
) -> Result<(), AllocError>
    requires sound { IsLists lists.old }
    requires room { IsShort 239998 lists.old }
    ensures bins { length lists.new.bins ≡ length lists.old.bins }
    ensures sound { OnOk result (IsLists lists.new) }
    ensures added { OnOk result (EachChanges (λ k. TakesClear word) lists.old lists.new) }
{
    for tile in 0..tile_count(lists.size) {
        add_clear(lists, tile, word)?;
    }
    Ok(())
}
