//! Calls as data: a test that makes ten of them, each with a `?` of its own, is proved ten times as slowly as a row of ten.

use cmdlist::{CommandList, DeferredContext, DeviceContext};
use gfxspec::{GfxError, Topology, Vertex};
use std::alloc::Allocator;

/// A call of a context.
#[derive(Clone, Copy)]
pub enum Call<'a> {
    /// The vertices of the draws behind it.
    SetVertices(&'a [Vertex]),
    /// The indices of the draws behind it.
    SetIndices(&'a [u16]),
    /// How vertices make triangles.
    SetTopology(Topology),
    /// A count, and the first place.
    Draw(u32, u32),
    /// A count, the first place, and what is added to each index.
    DrawIndexed(u32, u32, i32),
    /// Red, green, blue and alpha.
    ClearColor([u8; 4]),
    /// Depth and stencil.
    ClearDepthStencil(u32, u8),
    /// The number of a query.
    Begin(u32),
    /// The number of a query.
    End(u32),
}

/// Makes a call.
fn make<C: DeviceContext>(context: &mut C, call: &Call<'_>) -> Result<(), GfxError> {
    match *call {
        Call::SetVertices(vertices) => context.ia_set_vertices(vertices),
        Call::SetIndices(indices) => context.ia_set_indices(indices),
        Call::SetTopology(topology) => context.ia_set_topology(topology),
        Call::Draw(count, start) => context.draw(count, start),
        Call::DrawIndexed(count, start, base) => context.draw_indexed(count, start, base),
        Call::ClearColor(rgba) => context.clear_color(rgba),
        Call::ClearDepthStencil(depth, stencil) => context.clear_depth_stencil(depth, stencil),
        Call::Begin(query) => context.begin(query),
        Call::End(query) => context.end(query),
    }
}

/// Makes the calls in their order, up to the first that is refused.
pub fn record_all<C: DeviceContext>(context: &mut C, calls: &[Call<'_>]) -> Result<(), GfxError> {
    for call in calls {
        make(context, call)?;
    }
    Ok(())
}

/// A list of calls.
pub fn list_of<A: Allocator + Copy>(
    alloc: A,
    calls: &[Call<'_>],
) -> Result<CommandList<A>, GfxError> {
    let mut context = DeferredContext::new(alloc);
    record_all(&mut context, calls)?;
    context.finish(false)
}
