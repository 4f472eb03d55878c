//! Triangles are snapped and made ready here, once for all tiles.

ghost use Rattle.std.specs.Prelude.{◌≡◌, ◌<◌, ◌≤◌, ◌&&◌, if◌then◌else◌, ℕ, IfSome, IsNone, false, IsTrue};
ghost use Rattle.gfxspec.specs.Limits.{side_bound};
ghost use Rattle.gfxspec.specs.DepthStencil.{DepthStencilSetting};
ghost use Rattle.gfxspec.specs.Raster.{centre, covers};
ghost use Rattle.gfxspec.specs.Items.{face_setting, in_scissor, is_in_rect, reaches};
ghost use Rattle.assemble.specs.Triangle.{primitive_of};
ghost use Rattle.command.specs.Seen.{state_value};
ghost use Rattle.binner.specs.Ready.{IsReady, common_rect};
ghost use Rattle.binner.specs.Meaning.{IsSetupOf};

use crate::setup::TriSetup;
use crate::short_rect::ShortRect;
use assemble::{culled, facing_by_area};
use cmdlist::State;
use depthplane::{Plane, with_bias};
use edges::EdgeSet;
use gfxspec::{Facing, PixelRect, Size, Vertex};
use snap::{Sides, SnapTri};

/// The pixels of two rectangles.
fn common(a: PixelRect, b: PixelRect) -> PixelRect
    ensures { result ≡ common_rect a b }
{
    PixelRect {
        left: a.left.max(b.left),
        top: a.top.max(b.top),
        right: a.right.min(b.right),
        bottom: a.bottom.min(b.bottom),
    }
}

/// The pixels that a triangle can reach: those in its bounds that an enabled scissor rectangle lets through.
#[inline(always)]
fn within_reach(edges: &EdgeSet, state: &State<'_>) -> PixelRect
    ensures right { result.right ≤ side_bound }
    ensures bottom { result.bottom ≤ side_bound }
    ensures reach { (x y : ℕ) → x < side_bound → y < side_bound
        → (is_in_rect result x y && covers edges.now (centre x y)) ≡ (covers edges.now (centre x y) && in_scissor (state_value state.now) x y) }
{
    if state.raster.scissor() {
        common(edges.bounds(), state.scissor)
    } else {
        edges.bounds()
    }
}

/// Whether a triangle uses the front operations.
fn is_front(facing: Facing) -> bool
    ensures { (s : DepthStencilSetting) → (if result then s.front else s.back) ≡ face_setting facing s }
{
    match facing {
        Facing::Front => true,
        Facing::Back | Facing::Empty => false,
    }
}

/// Whether a rectangle has a pixel of a target.
fn is_seen(bounds: PixelRect, size: Size) -> bool
    ensures wide { IsTrue result → bounds.left < bounds.right }
    ensures high { IsTrue result → bounds.top < bounds.bottom }
    ensures unseen { result ≡ false → (x y : ℕ) → x < size.width → y < size.height → is_in_rect bounds x y ≡ false }
{
    bounds.left < bounds.right.min(size.width) && bounds.top < bounds.bottom.min(size.height)
}

/// A triangle under these settings, unless it is dropped or reaches no pixel of the target; the leading vertex is first.
#[inline(always)]
#[tactic(auto, using(gfxspec::proofs::Threes::All_three))]
pub(crate) fn prepared(vertices: &[Vertex; 3], state: &State<'_>, size: Size) -> Option<TriSetup>
    requires { IsReady (primitive_of (record { v = vertices.now })) }
    ensures setup { IfSome result (λ setup. IsSetupOf setup (primitive_of (record { v = vertices.now })) (state_value state.now)) }
    ensures dropped { IsNone result → (x y : ℕ) → x < side_bound → y < side_bound → x < size.width → y < size.height
        → reaches (primitive_of (record { v = vertices.now })) (state_value state.now) x y ≡ false }
{
    let [first, second, third] = vertices;
    let corners = SnapTri::of(first, second, third);
    let sides = Sides::of(&corners);
    let facing = facing_by_area(sides.area, state.raster.front_ccw());
    if culled(state.raster.cull(), facing) {
        return None;
    }
    let edges = EdgeSet::of_sides(&sides)?;
    let bounds = within_reach(&edges, state);
    if !is_seen(bounds, size) {
        return None;
    }
    let bias = state.raster.depth_bias();
    let plane = Plane::of_sides(&sides, [first.z, second.z, third.z], bias);
    Some(TriSetup {
        edges,
        plane,
        bounds: ShortRect::of(bounds),
        front: is_front(facing),
        rgba: first.rgba,
        least_depth: with_bias(first.z.min(second.z).min(third.z), bias),
        greatest_depth: with_bias(first.z.max(second.z).max(third.z), bias),
    })
}
