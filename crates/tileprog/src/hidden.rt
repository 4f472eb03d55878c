//! Whether a triangle can't pass the depth test at any pixel of a tile.

ghost use Rattle.std.specs.Prelude.{◌≡◌, IsTrue, IfSome};
ghost use Rattle.tileblock.specs.Bounds.{LieBetween};
ghost use Rattle.tileprog.specs.Hidden.{none_passes, greatest_after, IsHidden, AreAfter};

use binner::StateEntry;
use gfxspec::{Compare, PixelRect};
use tileblock::{DepthBounds, TilePixels};

/// Whether a triangle's bounds are as wide or as high as a tile. The vertices of a smaller one tell about as much of its depths as its
/// plane does.
#[inline(always)]
pub(crate) fn is_large(bounds: PixelRect) -> bool {
    let width = bounds.right.wrapping_sub(bounds.left);
    let height = bounds.bottom.wrapping_sub(bounds.top);
    width | height >= 32
}

/// Whether a large triangle's plane is asked what its depths lie between: where depth is tested, and something is known of the stored
/// depths.
pub(crate) fn asks_plane(entry: &StateEntry, stored: Option<DepthBounds>) -> bool {
    entry.depth_stencil.depth() && stored.is_some()
}

/// No depth from `least` to `greatest` passes against any of the stored ones.
#[inline]
pub(crate) fn none_passes(func: Compare, least: u32, greatest: u32, stored: DepthBounds) -> bool
    ensures { result ≡ none_passes func least greatest stored.least stored.greatest }
{
    match func {
        Compare::Never => true,
        Compare::Less => stored.greatest <= least,
        Compare::Equal => greatest < stored.least || stored.greatest < least,
        Compare::LessEqual => stored.greatest < least,
        Compare::Greater => greatest <= stored.least,
        Compare::NotEqual => {
            least == greatest && (stored.least == stored.greatest && least == stored.least)
        }
        Compare::GreaterEqual => greatest < stored.least,
        Compare::Always => false,
    }
}

/// Whether depths from `least` to `greatest` change nothing under an entry, against what is stored.
pub(crate) fn is_hidden(
    entry: &StateEntry,
    least: u32,
    greatest: u32,
    stored: Option<DepthBounds>,
) -> bool
    ensures { IsTrue result → IsHidden entry.now.depth_stencil least greatest stored }
{
    let state = entry.depth_stencil;
    let Some(known) = stored else {
        return false;
    };
    if state.stencil() || !state.depth() {
        return false;
    }
    none_passes(state.func(), least, greatest, known)
}

/// The greatest depth of a tile after a triangle that stores depths, on the whole tile or on a part of it.
fn greatest_after(func: Compare, whole: bool, stored: u32, greatest: u32) -> u32
    ensures { result ≡ greatest_after func whole stored greatest }
{
    match func {
        Compare::Less | Compare::LessEqual => { if whole { stored.min(greatest) } else { stored } }
        Compare::Never
        | Compare::Equal
        | Compare::Greater
        | Compare::NotEqual
        | Compare::GreaterEqual
        | Compare::Always => stored.max(greatest),
    }
}

/// What the depths of a tile lie between after a triangle whose depths are `least` to `greatest`, where that has to be
/// kept: a block that stores no depth keeps what it knows.
pub(crate) fn bounds_after(
    entry: &StateEntry,
    least: u32,
    greatest: u32,
    whole: bool,
    stored: Option<DepthBounds>,
) -> Option<DepthBounds>
    ensures { IfSome result (AreAfter entry.now.depth_stencil least greatest whole stored) }
{
    let state = entry.depth_stencil;
    let Some(known) = stored else {
        return None;
    };
    if state.stencil() || !state.depth() || !state.write() {
        return None;
    }
    Some(DepthBounds {
        least: known.least.min(least),
        greatest: greatest_after(state.func(), whole, known.greatest, greatest),
    })
}

/// So many pixels of a tile have to pass before a look at all its depths is worth its time.
const MANY: u32 = 256;

/// So many pixels has a whole tile.
const ALL: u32 = 1024;

/// Whether a look at all depths of a block is worth its time, behind a triangle of which so many pixels passed. Where it is nearer than
/// each stored depth of a whole tile, its own depths are exact bounds.
fn is_look_worth(func: Compare, passed: u32) -> bool {
    if passed < MANY {
        return false;
    }
    passed < ALL || (func != Compare::Less && func != Compare::LessEqual)
}

/// Keeps what the depths of a block lie between, where that is known. Behind a triangle of which many pixels passed, all depths are
/// looked at, so that the bounds are exact again.
pub(crate) fn keep_after(
    block: &mut TilePixels,
    after: Option<DepthBounds>,
    func: Compare,
    passed: u32,
)
    requires { IfSome after (λ d. LieBetween block.old d.least d.greatest) }
    ensures { block.new ≡ block.old }
{
    let Some(known) = after else {
        return;
    };
    let worth = is_look_worth(func, passed);
    if worth {
        block.measure_bounds();
        return;
    }
    block.keep_bounds(known.least, known.greatest);
}
