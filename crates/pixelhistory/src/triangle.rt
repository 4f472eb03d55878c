//! What a triangle does to one pixel.

ghost use Rattle.std.specs.Prelude.{◌≡◌, ◌<◌, ◌↔◌, ◌&&◌, ℕ, List, true, false, IsTrue, All, IfSome, IsNone, if◌then◌else◌};
ghost use Rattle.gfxspec.specs.Limits.{side_bound};
ghost use Rattle.gfxspec.specs.Vertices.{IsDepth};
ghost use Rattle.gfxspec.specs.Raster.{centre, covers, edge, edge_holds};
ghost use Rattle.gfxspec.specs.Facing.{is_culled};
ghost use Rattle.gfxspec.specs.DepthStencil.{DepthStencilSetting};
ghost use Rattle.gfxspec.specs.Assembly.{Primitive};
ghost use Rattle.gfxspec.specs.Items.{Drawn, snapped_triangle, is_in_rect, in_scissor, face_setting, facing as facing_of, depth_of as depth_of_primitive, reaches};
ghost use Rattle.snap.specs.Corners.{triangle_of};
ghost use Rattle.depthplane.specs.Plane.{deep_of};
ghost use Rattle.depthplane.specs.Place.{depth_of};
ghost use Rattle.assemble.specs.Triangle.{primitive_of};
ghost use Rattle.command.specs.Seen.{state_value};
ghost use Rattle.binner.specs.Ready.{IsReady};
ghost use Rattle.pixelevents.specs.History.{event};

use crate::tests_apart::{depth_alone, stencil_alone};
use assemble::{culled, facing};
use cmdlist::State;
use depthplane::Plane;
use depthstencil::test;
use edges::EdgeSet;
use gfxspec::{Facing, Pixel, PixelRect, Vertex};
use logicop::write;
use pixelevents::Event;
use snap::SnapTri;

/// Whether an edge holds at the centre of a pixel.
fn is_held(edges: &EdgeSet, i: usize, x: u32, y: u32) -> bool
    requires edge { i < 3 }
    requires x { x < side_bound }
    requires y { y < side_bound }
    ensures { IsTrue result ↔ IsTrue (edge_holds (edge edges.now i) (centre x y)) }
{
    edges.at(i, x, y) >= 0
}

/// Whether three tests hold.
fn all_three(first: bool, second: bool, third: bool) -> bool
    ensures { result ≡ (first && (second && third)) }
{
    first && (second && third)
}

/// Whether a triangle covers the centre of a pixel.
fn is_covered(corners: &SnapTri, x: u32, y: u32) -> bool
    requires x { x < side_bound }
    requires y { y < side_bound }
    ensures { result ≡ covers (triangle_of corners.now) (centre x y) }
{
    let Some(edges) = EdgeSet::of(corners) else {
        return false;
    };
    let first = is_held(&edges, 0, x, y);
    let second = is_held(&edges, 1, x, y);
    let third = is_held(&edges, 2, x, y);
    all_three(first, second, third)
}

/// Whether a rectangle has a pixel.
fn is_inside(rect: PixelRect, x: u32, y: u32) -> bool
    ensures { result ≡ is_in_rect rect x y }
{
    rect.left <= x && x < rect.right && rect.top <= y && y < rect.bottom
}

/// Whether an enabled scissor rectangle lets a pixel through.
fn lets_through(state: &State<'_>, x: u32, y: u32) -> bool
    ensures { result ≡ in_scissor (state_value state.now) x y }
{
    !state.raster.scissor() || is_inside(state.scissor, x, y)
}

/// Whether a triangle that faces so reaches a pixel.
fn is_reached(corners: &SnapTri, faces: Facing, state: &State<'_>, x: u32, y: u32) -> bool
    requires x { x < side_bound }
    requires y { y < side_bound }
    ensures { (p : Primitive) → triangle_of corners.now ≡ snapped_triangle p → faces ≡ facing_of p (state_value state.now) → result ≡ reaches p (state_value state.now) x y }
{
    let kept = !culled(state.raster.cull(), faces);
    let covered = is_covered(corners, x, y);
    let through = lets_through(state, x, y);
    kept && covered && through
}

/// The depth of a triangle at a pixel that it covers, moved by a bias.
fn depth_there(corners: &SnapTri, depths: [u32; 3], bias: i32, x: u32, y: u32) -> u32
    requires x { x < side_bound }
    requires y { y < side_bound }
    requires depths { All IsDepth depths }
    requires covered { IsTrue (covers (triangle_of corners.now) (centre x y)) }
    ensures { result ≡ depth_of (deep_of corners.now depths bias) x y }
{
    let plane = Plane::of_biased(corners, depths, bias);
    let walk = plane.walk(x, y);
    walk.depth()
}

/// Whether a triangle uses the front operations.
fn is_front(faces: Facing) -> bool
    ensures { (s : DepthStencilSetting) → (if result then s.front else s.back) ≡ face_setting faces s }
{
    match faces {
        Facing::Front => true,
        Facing::Back | Facing::Empty => false,
    }
}

/// What a triangle of this colour does with this depth to a pixel that it reaches.
fn event_there(
    item: u64,
    rgba: [u8; 4],
    depth: u32,
    front: bool,
    state: &State<'_>,
    old: Pixel,
) -> Event
    ensures { (p : Primitive) (opened : List ℕ) (x y : ℕ) → p.first.rgba ≡ rgba → depth ≡ depth_of_primitive p (state_value state.now) x y
        → ((d : DepthStencilSetting) → (if front then d.front else d.back) ≡ face_setting (facing_of p (state_value state.now)) d)
        → reaches p (state_value state.now) x y ≡ true
        → result ≡ event item (Drawn p (state_value state.now) opened) x y old }
{
    let tests = test(&state.depth_stencil, front, state.reference, depth, old.ds);
    Event {
        item,
        stencil_passed: stencil_alone(&state.depth_stencil, front, state.reference, old.ds),
        depth_passed: depth_alone(&state.depth_stencil, depth, old.ds),
        passed: tests.passed,
        before: old,
        after: Pixel {
            rgba: if tests.passed {
                write(&state.blend, rgba, old.rgba)
            } else {
                old.rgba
            },
            ds: tests.after,
        },
    }
}

/// What the triangle of an item does to a pixel, if it reaches it.
pub fn event_of(
    item: u64,
    vertices: &[Vertex; 3],
    state: &State<'_>,
    x: u32,
    y: u32,
    old: Pixel,
) -> Option<Event>
    requires ready { IsReady (primitive_of (record { v = vertices.now })) }
    requires x { x < side_bound }
    requires y { y < side_bound }
    ensures some { (opened : List ℕ) → IfSome result (λ e. (reaches (primitive_of (record { v = vertices.now })) (state_value state.now) x y ≡ true) × (e ≡ event item (Drawn (primitive_of (record { v = vertices.now })) (state_value state.now) opened) x y old)) }
    ensures none { IsNone result → reaches (primitive_of (record { v = vertices.now })) (state_value state.now) x y ≡ false }
{
    let [first, second, third] = vertices;
    let corners = SnapTri::of(first, second, third);
    let faces = facing(&corners, state.raster.front_ccw());
    if !is_reached(&corners, faces, state, x, y) {
        return None;
    }
    let depths = [first.z, second.z, third.z];
    let depth = depth_there(&corners, depths, state.raster.depth_bias(), x, y);
    Some(event_there(item, first.rgba, depth, is_front(faces), state, old))
}
