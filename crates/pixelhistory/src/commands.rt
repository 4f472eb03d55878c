//! The history of a pixel under a command.

ghost use Rattle.std.specs.Prelude.{◌<◌, ◌+◌, ◌^◌, ℕ, List, OnOk};
ghost use Rattle.gfxspec.specs.Limits.{side_bound};
ghost use Rattle.meaning.specs.OneMore.{triangles_of as count_of, performed_items};
ghost use Rattle.command.specs.Seen.{state_value, command_value};
ghost use Rattle.cmdlist.specs.Drawable.{IsDrawable, told};
ghost use Rattle.pixelhistory.specs.Tracing.{GoesPast};

use crate::trace::{Trace, trace_color_clear, trace_depth_stencil_clear, trace_draw};
use cmdlist::{Command, Drawing, State, drawing_of};
use std::alloc::{AllocError, Allocator};

/// Goes past what a command draws or clears under a state, unless the state's predicate withholds it.
pub(crate) fn trace_performed<A: Allocator + Copy>(
    trace: &mut Trace<A>,
    command: &Command<A>,
    state: &State<'_>,
    results: &[bool; 64],
    x: u32,
    y: u32,
) -> Result<(), AllocError>
    requires drawable { IsDrawable (state_value state.now) (command_value command.now) }
    requires x { x < side_bound }
    requires y { y < side_bound }
    requires few { trace.old.items + count_of (state_value state.now) (command_value command.now) + 1 < 2 ^ 63 }
    ensures { (opened : List ℕ) → OnOk result (GoesPast (performed_items (told results.now) (state_value state.now) opened (command_value command.now)) x y trace.old trace.new) }
{
    match drawing_of(command, state, results) {
        Drawing::Nothing => Ok(()),
        Drawing::Triangles(draw) => trace_draw(trace, &draw, state, x, y),
        Drawing::ClearColor(rgba) => trace_color_clear(trace, rgba),
        Drawing::ClearDepthStencil(value) => {
            trace_depth_stencil_clear(trace, value.depth, value.stencil)
        }
    }
}
