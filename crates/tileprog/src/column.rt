//! A column of spans.

ghost use Rattle.std.specs.Prelude.{◌≡◌, ◌<◌, ◌≤◌, ◌+◌, ◌&&◌, nat_le, nat_lt, ℕ};
ghost use Rattle.lanes.specs.Stencil.{has};

use depthplane::Plane;
use gfxspec::PixelRect;
use tileblock::DepthBounds;

/// A column of spans of a tile, eight pixels wide, of which a clip rectangle leaves a part, with the triangle that is drawn there.
#[derive(Clone, Copy)]
pub(crate) struct Column<'a> {
    pub(crate) plane: &'a Plane,
    /// What the depths of the triangle lie between wherever it covers.
    pub(crate) corners: DepthBounds,
    /// The first of the eight columns of pixels, on the target.
    pub(crate) x: u32,
    /// The number of the span in a row of the tile.
    pub(crate) span: u32,
    pub(crate) clip: PixelRect,
    /// The lanes that lie in the clip's columns.
    pub(crate) within: u8,
    /// The edges that are still to be tested, edge i as bit i.
    pub(crate) mask: u8,
    pub(crate) ghost lanes: { (j : ℕ) → j < 8 → has within j ≡ (nat_le clip.left (x + j) && nat_lt (x + j) clip.right) },
}

/// The lanes of a span beginning at x that lie in the columns from `left` on and before `right`.
fn lanes_within(x: u32, left: u32, right: u32) -> u8
    requires some { left < right }
    requires begun { left < x + 8 }
    requires ended { x < right }
    ensures { (j : ℕ) → j < 8 → has result j ≡ (nat_le left (x + j) && nat_lt (x + j) right) }
{
    let from = left.saturating_sub(x);
    let to = (right - x).min(8);
    ((1u32 << to) - (1u32 << from)) as u8
}

/// The column of a clip rectangle that begins at x, of a triangle whose depths lie between two.
pub(crate) fn column_of<'a>(
    x: u32,
    span: u32,
    clip: PixelRect,
    plane: &'a Plane,
    mask: u8,
    corners: DepthBounds,
) -> Column<'a>
    requires some { clip.left < clip.right }
    requires begun { clip.left < x + 8 }
    requires ended { x < clip.right }
    ensures x { result.x ≡ x }
    ensures span { result.span ≡ span }
    ensures clip { result.clip ≡ clip }
    ensures plane { result.plane.now ≡ plane.now }
    ensures mask { result.mask ≡ mask }
    ensures corners { result.corners ≡ corners }
{
    Column {
        x,
        span,
        clip,
        within: lanes_within(x, clip.left, clip.right),
        plane,
        mask,
        corners,
    }
}
