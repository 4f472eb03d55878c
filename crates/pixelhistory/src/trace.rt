//! The history of a pixel, item by item.

ghost use Rattle.std.specs.Prelude.{◌≡◌, ◌<◌, ◌+◌, ◌^◌, ◌∷◌, [], ℕ, List, length, true, IsTrue, OnOk, Some};
ghost use Rattle.std.specs.List.{list_all};
ghost use Rattle.gfxspec.specs.Limits.{side_bound};
ghost use Rattle.gfxspec.specs.Refusals.{is_in_range};
ghost use Rattle.gfxspec.specs.Items.{Drawn, ColorCleared, DepthStencilCleared};
ghost use Rattle.gfxspec.specs.Recorded.{drawn_items};
ghost use Rattle.assemble.specs.Triangle.{primitive_of};
ghost use Rattle.assemble.specs.Drawing.{IsInRange, triangles_of};
ghost use Rattle.command.specs.Seen.{state_value};
ghost use Rattle.binner.specs.Ready.{IsReady};
ghost use Rattle.pixelhistory.specs.Tracing.{Adds, GoesPast};

use crate::triangle::event_of;
use assemble::{Draw, triangles};
use cmdlist::State;
use gfxspec::{DEPTH_MAX, DepthStencil, Pixel, Vertex};
use pixelevents::Event;
use std::alloc::{AllocError, Allocator};

/// What a pixel holds so far, how many items were looked at, and what those did that touched it.
#[derive(Drop)]
pub struct Trace<A: Allocator> {
    pub pixel: Pixel,
    pub items: u64,
    pub events: Vec<Event, A>,
}

impl<A: Allocator> Trace<A> {
    ghost use Rattle.pixelhistory.specs.Tracing.{IsTraceOf};

    /// The trace of a pixel of a new target.
    pub fn new(alloc: A) -> Self
        ensures { (x y : ℕ) → IsTraceOf [] x y result }
    {
        Trace {
            pixel: Pixel {
                rgba: [0; 4],
                ds: DepthStencil {
                    depth: DEPTH_MAX,
                    stencil: 0,
                },
            },
            items: 0,
            events: Vec::new(alloc),
        }
    }
}

/// Goes past one item, with the event of it if there is one.
fn add<A: Allocator>(trace: &mut Trace<A>, event: Option<Event>) -> Result<(), AllocError>
    requires { trace.old.items < 2 ^ 63 }
    ensures { OnOk result (Adds event trace.old trace.new) }
{
    trace.items += 1;
    if let Some(event) = event {
        trace.pixel = event.after;
        trace.events.push(event)?;
    }
    Ok(())
}

/// Goes past a clear that leaves this.
fn add_clear<A: Allocator>(trace: &mut Trace<A>, after: Pixel) -> Result<(), AllocError>
    requires { trace.old.items < 2 ^ 63 }
    ensures { OnOk result (Adds (Some (record { item = trace.old.items; stencil_passed = true; depth_passed = true; passed = true; before = trace.old.pixel; after = after })) trace.old trace.new) }
{
    let event = Event {
        item: trace.items,
        stencil_passed: true,
        depth_passed: true,
        passed: true,
        before: trace.pixel,
        after,
    };
    add(trace, Some(event))
}

/// Goes past a clear of the colour.
pub(crate) fn trace_color_clear<A: Allocator>(
    trace: &mut Trace<A>,
    rgba: [u8; 4],
) -> Result<(), AllocError>
    requires { trace.old.items < 2 ^ 63 }
    ensures { (x y : ℕ) → OnOk result (GoesPast (ColorCleared rgba ∷ []) x y trace.old trace.new) }
{
    let after = Pixel {
        rgba,
        ds: trace.pixel.ds,
    };
    add_clear(trace, after)
}

/// Goes past a clear of depth and stencil.
pub(crate) fn trace_depth_stencil_clear<A: Allocator>(
    trace: &mut Trace<A>,
    depth: u32,
    stencil: u8,
) -> Result<(), AllocError>
    requires { trace.old.items < 2 ^ 63 }
    ensures { (x y : ℕ) → OnOk result (GoesPast (DepthStencilCleared depth stencil ∷ []) x y trace.old trace.new) }
{
    let after = Pixel {
        rgba: trace.pixel.rgba,
        ds: DepthStencil { depth, stencil },
    };
    add_clear(trace, after)
}

/// Goes past a triangle.
fn trace_triangle<A: Allocator>(
    trace: &mut Trace<A>,
    vertices: &[Vertex; 3],
    state: &State<'_>,
    x: u32,
    y: u32,
) -> Result<(), AllocError>
    requires ready { IsReady (primitive_of (record { v = vertices.now })) }
    requires x { x < side_bound }
    requires y { y < side_bound }
    requires few { trace.old.items < 2 ^ 63 }
    ensures { (opened : List ℕ) → OnOk result (GoesPast (Drawn (primitive_of (record { v = vertices.now })) (state_value state.now) opened ∷ []) x y trace.old trace.new) }
{
    let event = event_of(trace.items, vertices, state, x, y, trace.pixel);
    add(trace, event)
}

/// Goes past the triangles of a draw.
pub(crate) fn trace_draw<A: Allocator>(
    trace: &mut Trace<A>,
    draw: &Draw<'_>,
    state: &State<'_>,
    x: u32,
    y: u32,
) -> Result<(), AllocError>
    requires range { IsInRange draw.now }
    requires vertices { IsTrue (list_all is_in_range draw.now.vertices.now) }
    requires x { x < side_bound }
    requires y { y < side_bound }
    requires few { trace.old.items + length (triangles_of draw.now) < 2 ^ 63 }
    ensures { (opened : List ℕ) → OnOk result (GoesPast (drawn_items (state_value state.now) opened (triangles_of draw.now)) x y trace.old trace.new) }
{
    for tri in triangles(draw) {
        trace_triangle(trace, &tri.v, state, x, y)?;
    }
    Ok(())
}
