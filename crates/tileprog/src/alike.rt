//! Words whose triangle does the same at each pixel of a tile: no loop over columns is needed, and no depth is walked.

ghost use Rattle.std.specs.Prelude.{◌≡◌, ◌<◌, ◌≤◌, ◌-◌, ◌*◌, ℕ, Bool, IsTrue, IfSome, if◌then◌else◌};
ghost use Rattle.std.specs.Int.{to_le_bytes, w32};
ghost use Rattle.gfxspec.specs.Color.{written_color};
ghost use Rattle.gfxspec.specs.DepthStencil.{depth_passes};
ghost use Rattle.gfxspec.specs.Tiles.{IsIn, IsInTile};
ghost use Rattle.depthplane.specs.Place.{depth_of};
ghost use Rattle.lanes.specs.Stencil.{has};
ghost use Rattle.tileblock.specs.Block.{pixel_at};
ghost use Rattle.meaning.specs.Over.{sum_over};
ghost use Rattle.binner.specs.Program.{outcome, drawn};
ghost use Rattle.tileprog.specs.Counting.{one_if};
ghost use Rattle.tileprog.specs.Kinds.{tests_of};
ghost use Rattle.tileprog.specs.declared.kind.Tests.TheVariants.{Open};
ghost use Rattle.tileprog.specs.Painting.{stands_for};
ghost use Rattle.tileprog.specs.Passing.{IsTile};
ghost use Rattle.tileprog.specs.Alike.{opposite, HasOutcome, IsAlike, AreBytes, operated, Changed};

use crate::hidden::none_passes;
use crate::paint::paint_tile;
use crate::spans::operate_rows;
use binner::{StateEntry, TriSetup};
use gfxspec::{Compare, PixelRect};
use lanes::StencilTest;
use logicop::ColorWrite;
use states::{BlendState, DepthStencilState};
use tileblock::{DepthBounds, TilePixels};

/// The comparison that holds where another doesn't.
#[inline(always)]
pub(crate) fn opposite(func: Compare) -> Compare
    ensures { result ≡ opposite func }
{
    match func {
        Compare::Never => Compare::Always,
        Compare::Less => Compare::GreaterEqual,
        Compare::Equal => Compare::NotEqual,
        Compare::LessEqual => Compare::Greater,
        Compare::Greater => Compare::LessEqual,
        Compare::NotEqual => Compare::Equal,
        Compare::GreaterEqual => Compare::Less,
        Compare::Always => Compare::Never,
    }
}

/// Whether the depth test passes, if depths from `least` to `greatest` have one outcome against all stored ones.
fn depth_outcome(
    entry: &StateEntry,
    least: u32,
    greatest: u32,
    stored: Option<DepthBounds>,
) -> Option<bool>
    ensures { IfSome result (HasOutcome entry.now.depth_stencil least greatest stored) }
{
    let state = entry.depth_stencil;
    if !state.depth() {
        return Some(true);
    }
    let Some(known) = stored else {
        return None;
    };
    let func = state.func();
    let fails = none_passes(func, least, greatest, known);
    if fails {
        return Some(false);
    }
    let passes = none_passes(opposite(func), least, greatest, known);
    if passes {
        return Some(true);
    }
    None
}

/// Whether a colour under a blend state leaves each stored colour as it is.
fn keeps_colors(blend: BlendState, rgba: [u8; 4]) -> bool
    ensures { IsTrue result → (n : ℕ) → written_color blend rgba (to_le_bytes w32 n) ≡ to_le_bytes w32 n }
{
    let write = ColorWrite::of_state(&blend, u32::from_le_bytes(rgba));
    write.keep == u32::MAX && write.flip == 0
}

/// Whether a triangle changes no more than stencil values, and each by the same operation, where the depth test passes
/// everywhere or nowhere.
fn is_alike(triangle: &TriSetup, entry: &StateEntry, deep: bool) -> bool
    ensures { IsTrue result → IsAlike triangle.now entry.now deep }
{
    let state = entry.depth_stencil;
    let face = if triangle.front {
        state.front()
    } else {
        state.back()
    };
    if !state.stencil() || face.func != Compare::Always {
        return false;
    }
    if !deep {
        return true;
    }
    if state.depth() && state.write() {
        return false;
    }
    keeps_colors(entry.blend, triangle.rgba)
}

/// Whether the depth test passes at the pixels of a tile, where a triangle of depths from `least` to `greatest` reaches all of
/// them and does the same at each.
pub(crate) fn alike_outcome(
    triangle: &TriSetup,
    entry: &StateEntry,
    least: u32,
    greatest: u32,
    whole: bool,
    stored: Option<DepthBounds>,
) -> Option<bool>
    ensures whole { IfSome result (λ deep. IsTrue whole) }
    ensures alike { IfSome result (IsAlike triangle.now entry.now) }
    ensures outcome { IfSome result (HasOutcome entry.now.depth_stencil least greatest stored) }
{
    let state = entry.depth_stencil;
    if !whole || !state.stencil() {
        return None;
    }
    let Some(deep) = depth_outcome(entry, least, greatest, stored) else {
        return None;
    };
    let alike = is_alike(triangle, entry, deep);
    if alike { Some(deep) } else { None }
}

/// The stencil values of a tile are bytes. Nothing that is read is used, so nothing is left of the loop when it is compiled.
#[inline(always)]
fn read_bytes(block: &TilePixels)
    requires { IsInTile block.now.rect }
    ensures { AreBytes block.now }
{
    let _rect = block.rect();
    for at in 0..128u32 {
        let _stored = block.stencil_span(at % 4, at / 4);
    }
}

/// Stores in each pixel of a tile what the stencil's operation leaves where the stencil test passes, two rows of a span at a time; bit
/// j of `bits` says whether the depth test passes in lane j.
#[inline(always)]
fn operate(block: &mut TilePixels, test: &StencilTest, deep: bool, bits: u8)
    requires tile { IsInTile block.old.rect }
    requires bits { (j : ℕ) → j < 8 → has bits j ≡ deep }
    ensures { Changed (operated test.now deep) block.old block.new }
{
    let keeps = test.keeps(255, 255, bits);
    if keeps {
        read_bytes(block);
        return;
    }
    for pair in 0..64u32 {
        operate_rows(block, pair / 16, 2 * (pair % 16), deep, test);
    }
}

/// How many pixels a tile has.
fn pixels_in(rect: PixelRect) -> u32
    requires { IsTile rect }
    ensures value { result ≡ (rect.right - rect.left) * (rect.bottom - rect.top) }
    ensures few { result ≤ 1024 }
{
    (rect.right - rect.left) * (rect.bottom - rect.top)
}

/// The stencil test of a state, of one face and with one reference. It isn't inlined: so its numbers lie in memory, eight bytes each, where loops read
/// them. In registers each was taken apart into its bytes.
#[inline(never)]
fn stencil_test(state: &DepthStencilState, front: bool, reference: u8) -> StencilTest
    ensures { result ≡ record { setting = state.now; face = if front then state.now.front else state.now.back; reference = reference } }
{
    StencilTest::of(state, front, reference)
}

/// A triangle that does the same at each pixel of a tile, all of which it reaches; the answer is how many pass.
#[inline(never)]
pub(crate) fn run_alike(
    block: &mut TilePixels,
    triangle: &TriSetup,
    entry: &StateEntry,
    deep: bool,
) -> u32
    requires tile { IsTile block.old.rect }
    requires alike { IsAlike triangle.now entry.now deep }
    requires outcome { (u v : ℕ) → IsIn block.old.rect u v → depth_passes entry.now.depth_stencil (depth_of triangle.now.plane u v) (pixel_at block.old u v).ds.depth ≡ deep }
    ensures rect { block.new.rect ≡ block.old.rect }
    ensures pixels { (flip u v : ℕ) → IsIn block.old.rect u v → stands_for flip block.new u v
        ≡ drawn triangle.now entry.now (outcome triangle.now entry.now u v (stands_for flip block.old u v)) (stands_for flip block.old u v) }
    ensures count { result ≡ sum_over block.old.rect (λ u v. one_if (outcome triangle.now entry.now u v (pixel_at block.old u v)).passed) }
    ensures few { result ≤ 1024 }
{
    let rect = block.rect();
    let test = stencil_test(&entry.depth_stencil, triangle.front, entry.reference);
    if deep {
        operate(block, &test, true, 255);
        return pixels_in(rect);
    }
    operate(block, &test, false, 0);
    0
}

/// Whether a triangle that reaches all pixels of a tile tests nothing there.
pub(crate) fn is_open(entry: &StateEntry, whole: bool) -> bool
    ensures whole { IsTrue result → IsTrue whole }
    ensures open { IsTrue result → tests_of entry.now.depth_stencil ≡ Open }
{
    let state = entry.depth_stencil;
    if !whole || state.stencil() || state.depth() {
        return false;
    }
    true
}

/// A triangle that tests nothing over a tile, all pixels of which it reaches; the answer is how many there are.
#[inline(never)]
pub(crate) fn run_open(
    block: &mut TilePixels,
    flip: &mut u32,
    triangle: &TriSetup,
    entry: &StateEntry,
) -> u32
    requires tile { IsTile block.old.rect }
    requires open { tests_of entry.now.depth_stencil ≡ Open }
    ensures rect { block.new.rect ≡ block.old.rect }
    ensures pixels { (u v : ℕ) → IsIn block.old.rect u v → stands_for flip.new block.new u v
        ≡ drawn triangle.now entry.now (outcome triangle.now entry.now u v (stands_for flip.old block.old u v)) (stands_for flip.old block.old u v) }
    ensures count { result ≡ sum_over block.old.rect (λ u v. one_if (outcome triangle.now entry.now u v (pixel_at block.old u v)).passed) }
    ensures few { result ≤ 1024 }
{
    let rect = block.rect();
    paint_tile(block, flip, &entry.blend, triangle.rgba);
    pixels_in(rect)
}
