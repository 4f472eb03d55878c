//! The immediate context with the trace of a pixel beside it.

ghost use Rattle.std.specs.Prelude.{◌<◌};

use immediate::ImmediateContext;
use pixelhistory::SessionTrace;
use std::alloc::Allocator;

/// An immediate context, and the trace of a pixel of its target.
#[derive(Drop)]
pub(crate) struct TracedContext<A: Allocator> {
    pub(crate) context: ImmediateContext<A>,
    pub(crate) trace: SessionTrace<A>,
    pub(crate) x: u32,
    pub(crate) y: u32,
    pub(crate) ghost inside: { (x < context.surface.size.width) × (y < context.surface.size.height) },
}
