//! The history of a pixel under what contexts have recorded.

ghost use Rattle.std.specs.Prelude.{◌<◌, OnOk};
ghost use Rattle.gfxspec.specs.Limits.{side_bound};
ghost use Rattle.cmdlist.specs.Drawable.{told};
ghost use Rattle.pixelhistory.specs.declared.session.StepsOf.TheVariants.{List};
ghost use Rattle.pixelhistory.specs.Passing.{PassesList};

use crate::session::{SessionTrace, StepsOf, trace_list};
use cmdlist::{CommandList, DeferredContext};
use std::alloc::{AllocError, Allocator};

/// Goes past what a context has recorded so far, each command a step of its own or all of one, under the results of
/// queries before it.
pub fn trace_recorded<A: Allocator + Copy>(
    trace: &mut SessionTrace<A>,
    context: &DeferredContext<A>,
    results: &[bool; 64],
    steps: StepsOf,
    x: u32,
    y: u32,
) -> Result<(), AllocError>
    requires x { x < side_bound }
    requires y { y < side_bound }
    ensures { OnOk result (PassesList (told results.now) context.now steps x y trace.old trace.new) }
{
    trace_list(trace, context.commands(), results, steps, x, y)
}

/// Goes past a finished list, which one step executes, under the results of queries before it.
pub fn trace_finished<A: Allocator + Copy>(
    trace: &mut SessionTrace<A>,
    list: &CommandList<A>,
    results: &[bool; 64],
    x: u32,
    y: u32,
) -> Result<(), AllocError>
    requires x { x < side_bound }
    requires y { y < side_bound }
    ensures { OnOk result (PassesList (told results.now) list.now List x y trace.old trace.new) }
{
    trace_list(trace, list.commands(), results, StepsOf::List, x, y)
}
