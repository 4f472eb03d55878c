//! A triangle's word on a tile's block.

ghost use Rattle.std.specs.Prelude.{◌≡◌, ◌≤◌, ℕ, Some, IfSome, IsNone, IsTrue};
ghost use Rattle.gfxspec.specs.Items.{is_in_rect};
ghost use Rattle.gfxspec.specs.Raster.{centre, covers};
ghost use Rattle.gfxspec.specs.Tiles.{IsIn};
ghost use Rattle.tileword.specs.EdgeMask.{edge_bits};
ghost use Rattle.classify.specs.Region.{IsClassOf};
ghost use Rattle.classify.specs.declared.Class.TheVariants.{Cut};
ghost use Rattle.meaning.specs.Over.{sum_over};
ghost use Rattle.binner.specs.Program.{triangle_by};
ghost use Rattle.binner.specs.Meaning.{IsBounded};
ghost use Rattle.tileprog.specs.Hidden.{DepthsLie, IsWhole};
ghost use Rattle.tileprog.specs.Painting.{stands_for};
ghost use Rattle.tileprog.specs.Passing.{triangle_count, IsTile};
ghost use Rattle.tileprog.specs.Strokes.{IsWithin};
ghost use Rattle.tileprog.specs.Under.{DrewUnder};

use crate::alike::{alike_outcome, is_open, run_alike, run_open};
use crate::brush::make_brush;
use crate::brushes::DepthBrush;
use crate::draw::{draw, draw_quads};
use crate::hidden::{asks_plane, bounds_after, is_hidden, is_large, keep_after};
use crate::kind::{Tests, tests_of};
use crate::paint::write_under;
use binner::{ShortRect, StateEntry, TriSetup};
use gfxspec::PixelRect;
use std::alloc::Allocator;
use tileblock::{TileBlock, TilePixels};
use tileword::EdgeMask;

/// The pixels of a tile that lie in a triangle's bounds.
fn clipped(rect: PixelRect, bounds: &ShortRect) -> PixelRect
    ensures left { rect.left ≤ result.left }
    ensures top { rect.top ≤ result.top }
    ensures right { result.right ≤ rect.right }
    ensures bottom { result.bottom ≤ rect.bottom }
    ensures pixels { (u v : ℕ) → IsIn rect u v → is_in_rect result u v ≡ is_in_rect bounds.now u v }
{
    let bounds = bounds.rect();
    PixelRect {
        left: rect.left.max(bounds.left),
        top: rect.top.max(bounds.top),
        right: rect.right.min(bounds.right),
        bottom: rect.bottom.min(bounds.bottom),
    }
}

/// A triangle under a state entry over the pixels of a clip rectangle in a tile, of whose colours these bits are still to be flipped; the
/// answer is how many pass.
#[inline(never)]
fn draw_under(
    block: &mut TilePixels,
    triangle: &TriSetup,
    mask: &EdgeMask,
    entry: &StateEntry,
    clip: &PixelRect,
    flip: u32,
) -> u32
    requires tile { IsTile block.old.rect }
    requires class { IsClassOf (Cut (edge_bits mask.now)) triangle.now.plane.triangle block.old.rect }
    requires bounded { IsBounded triangle.now entry.now }
    requires within { IsWithin clip.now block.old.rect }
    requires inside { (u v : ℕ) → IsIn block.old.rect u v → is_in_rect clip.now u v ≡ is_in_rect triangle.now.bounds u v }
    ensures { DrewUnder mask.now triangle.now entry.now flip block.old block.new result }
{
    let write = write_under(&entry.blend, triangle.rgba, flip);
    let brush = make_brush(entry.depth_stencil, triangle.front, entry.reference, write);
    draw(block, triangle, mask.bits(), &brush, *clip)
}

/// A small triangle under a state entry, as `draw_under` draws it, in columns of four pixels; nothing is drawn where a stencil takes part, no
/// depth is tested, or its depths aren't sure or have a bias.
#[inline(always)]
fn draw_quads_under(
    block: &mut TilePixels,
    triangle: &TriSetup,
    mask: EdgeMask,
    entry: &StateEntry,
    clip: PixelRect,
    flip: u32,
) -> Option<u32>
    requires tile { IsTile block.old.rect }
    requires class { IsClassOf (Cut (edge_bits mask)) triangle.now.plane.triangle block.old.rect }
    requires bounded { IsBounded triangle.now entry.now }
    requires within { IsWithin clip block.old.rect }
    requires inside { (u v : ℕ) → IsIn block.old.rect u v → is_in_rect clip u v ≡ is_in_rect triangle.now.bounds u v }
    ensures drew { IfSome result (DrewUnder mask triangle.now entry.now flip block.old block.new) }
    ensures none { IsNone result → block.new ≡ block.old }
{
    let Tests::Depth(func, write) = tests_of(&entry.depth_stencil) else {
        return None;
    };
    let colors = write_under(&entry.blend, triangle.rgba, flip);
    let brush = make_brush(entry.depth_stencil, triangle.front, entry.reference, colors);
    let tested = DepthBrush {
        func,
        write,
        keep: colors.keep,
        brush,
    };
    draw_quads(block, triangle, mask.bits(), &tested, clip)
}

/// A small triangle under a state entry, in columns of four pixels where it can be.
#[inline(always)]
fn draw_small_under(
    block: &mut TilePixels,
    triangle: &TriSetup,
    mask: &EdgeMask,
    entry: &StateEntry,
    clip: &PixelRect,
    flip: u32,
) -> u32
    requires tile { IsTile block.old.rect }
    requires class { IsClassOf (Cut (edge_bits mask.now)) triangle.now.plane.triangle block.old.rect }
    requires bounded { IsBounded triangle.now entry.now }
    requires within { IsWithin clip.now block.old.rect }
    requires inside { (u v : ℕ) → IsIn block.old.rect u v → is_in_rect clip.now u v ≡ is_in_rect triangle.now.bounds u v }
    ensures { DrewUnder mask.now triangle.now entry.now flip block.old block.new result }
{
    match draw_quads_under(block, triangle, *mask, entry, *clip, flip) {
        Some(passed) => passed,
        None => draw_under(block, triangle, mask, entry, clip, flip),
    }
}

/// Whether a triangle reaches each pixel of a tile, of which it reaches those of the clip rectangle that the named edges
/// leave.
fn is_whole(rect: PixelRect, clip: PixelRect, mask: EdgeMask) -> bool
    ensures { IsTrue result → IsWhole rect clip mask }
{
    !mask.edge0
        && !mask.edge1
        && !mask.edge2
        && clip.left <= rect.left
        && clip.top <= rect.top
        && rect.right <= clip.right
        && rect.bottom <= clip.bottom
}

/// What the depths of a triangle lie between at the pixels of a tile that it covers, where an edge may cut the tile: by its vertices, and
/// by its plane over the whole tile.
fn cut_range(triangle: &TriSetup, rect: PixelRect) -> (u32, u32)
    requires tile { IsTile rect }
    ensures { DepthsLie triangle.now rect result.0 result.1 }
{
    let (least, greatest) = (triangle.least_depth, triangle.greatest_depth);
    let Some((near, far)) = triangle.plane.range_about(rect) else {
        return (least, greatest);
    };
    (least.max(near), greatest.min(far))
}

/// What the depths of a triangle lie between at the pixels of a tile that it covers: by its vertices, and, if that is asked, by its
/// plane.
fn depth_range(triangle: &TriSetup, rect: PixelRect, asked: bool, whole: bool) -> (u32, u32)
    requires tile { IsTile rect }
    requires whole { IsTrue whole → (u v : ℕ) → IsIn rect u v → IsTrue (covers triangle.now.plane.triangle (centre u v)) }
    ensures { DepthsLie triangle.now rect result.0 result.1 }
{
    if !asked {
        return (triangle.least_depth, triangle.greatest_depth);
    }
    if whole {
        return triangle.plane.range(rect);
    }
    cut_range(triangle, rect)
}

/// A triangle that is less wide and less high than a tile, over the pixels of a clip rectangle: its vertices tell as much of its depths
/// as its plane does, and whole tiles aren't asked about.
#[inline(always)]
fn run_small(
    block: &mut TilePixels,
    triangle: &TriSetup,
    mask: &EdgeMask,
    entry: &StateEntry,
    clip: &PixelRect,
    flip: u32,
) -> u32
    requires tile { IsTile block.old.rect }
    requires class { IsClassOf (Cut (edge_bits mask.now)) triangle.now.plane.triangle block.old.rect }
    requires bounded { IsBounded triangle.now entry.now }
    requires within { IsWithin clip.now block.old.rect }
    requires inside { (u v : ℕ) → IsIn block.old.rect u v → is_in_rect clip.now u v ≡ is_in_rect triangle.now.bounds u v }
    ensures { DrewUnder mask.now triangle.now entry.now flip block.old block.new result }
{
    let stored = block.depth_bounds();
    let (least, greatest) = (triangle.least_depth, triangle.greatest_depth);
    let after = bounds_after(entry, least, greatest, false, stored);
    let passed = draw_small_under(block, triangle, mask, entry, clip, flip);
    keep_after(block, after, entry.depth_stencil.func(), passed);
    passed
}

/// A triangle that is as wide or as high as a tile, over the pixels of a clip rectangle; the answer is how many pixels pass.
#[inline(never)]
fn run_large(
    block: &mut TilePixels,
    flip: &mut u32,
    triangle: &TriSetup,
    mask: EdgeMask,
    entry: &StateEntry,
    clip: PixelRect,
) -> u32
    requires tile { IsTile block.old.rect }
    requires class { IsClassOf (Cut (edge_bits mask)) triangle.now.plane.triangle block.old.rect }
    requires bounded { IsBounded triangle.now entry.now }
    requires within { IsWithin clip block.old.rect }
    requires inside { (u v : ℕ) → IsIn block.old.rect u v → is_in_rect clip u v ≡ is_in_rect triangle.now.bounds u v }
    ensures rect { block.new.rect ≡ block.old.rect }
    ensures pixels { (u v : ℕ) → IsIn block.old.rect u v → stands_for flip.new block.new u v ≡ triangle_by mask (Some triangle.now) (Some entry.now) u v (stands_for flip.old block.old u v) }
    ensures count { result ≡ sum_over block.old.rect (triangle_count mask triangle.now entry.now block.old) }
    ensures few { result ≤ 1024 }
{
    let rect = block.rect();
    let whole = is_whole(rect, clip, mask);
    let open = is_open(entry, whole);
    if open {
        return run_open(block, flip, triangle, entry);
    }
    let stored = block.depth_bounds();
    let asked = asks_plane(entry, stored);
    let (least, greatest) = depth_range(triangle, rect, asked, whole);
    let hidden = is_hidden(entry, least, greatest, stored);
    if hidden {
        return 0;
    }
    let outcome = alike_outcome(triangle, entry, least, greatest, whole, stored);
    if let Some(deep) = outcome {
        return run_alike(block, triangle, entry, deep);
    }
    let after = bounds_after(entry, least, greatest, whole, stored);
    let passed = draw_under(block, triangle, &mask, entry, &clip, *flip);
    keep_after(block, after, entry.depth_stencil.func(), passed);
    passed
}

/// A triangle under a state entry over a tile, of whose colours bits may still have to be flipped; the answer is how many pixels pass.
/// It stands by itself, so that a word whose triangle is hidden pays for none of what it keeps.
#[inline(never)]
fn run_triangle(
    block: &mut TilePixels,
    flip: &mut u32,
    triangle: &TriSetup,
    mask: EdgeMask,
    entry: &StateEntry,
) -> u32
    requires tile { IsTile block.old.rect }
    requires class { IsClassOf (Cut (edge_bits mask)) triangle.now.plane.triangle block.old.rect }
    requires bounded { IsBounded triangle.now entry.now }
    ensures rect { block.new.rect ≡ block.old.rect }
    ensures pixels { (u v : ℕ) → IsIn block.old.rect u v → stands_for flip.new block.new u v ≡ triangle_by mask (Some triangle.now) (Some entry.now) u v (stands_for flip.old block.old u v) }
    ensures count { result ≡ sum_over block.old.rect (triangle_count mask triangle.now entry.now block.old) }
    ensures few { result ≤ 1024 }
{
    let rect = block.rect();
    let clip = clipped(rect, &triangle.bounds);
    if clip.left >= clip.right || clip.top >= clip.bottom {
        return 0;
    }
    if !is_large(triangle.bounds.rect()) {
        return run_small(block, triangle, &mask, entry, &clip, *flip);
    }
    run_large(block, flip, triangle, mask, entry, clip)
}

/// A triangle under a state entry over a tile, of whose colours bits may still have to be flipped; the answer is how many pixels pass.
/// Nothing else is asked where the depths of its vertices tell that it is hidden.
#[inline(always)]
pub(crate) fn run_unless_hidden<A: Allocator>(
    block: &mut TileBlock<A>,
    flip: &mut u32,
    triangle: &TriSetup,
    mask: EdgeMask,
    entry: &StateEntry,
) -> u32
    requires tile { IsTile block.old.rect }
    requires class { IsClassOf (Cut (edge_bits mask)) triangle.now.plane.triangle block.old.rect }
    requires bounded { IsBounded triangle.now entry.now }
    ensures rect { block.new.rect ≡ block.old.rect }
    ensures pixels { (u v : ℕ) → IsIn block.old.rect u v → stands_for flip.new block.new u v ≡ triangle_by mask (Some triangle.now) (Some entry.now) u v (stands_for flip.old block.old u v) }
    ensures count { result ≡ sum_over block.old.rect (triangle_count mask triangle.now entry.now block.old) }
    ensures few { result ≤ 1024 }
{
    let stored = block.depth_bounds();
    let hidden = is_hidden(entry, triangle.least_depth, triangle.greatest_depth, stored);
    if hidden {
        return 0;
    }
    run_triangle(block.pixels_mut(), flip, triangle, mask, entry)
}
