//! The calls that record, by the handle of a deferred context.

ghost use Rattle.std.specs.Prelude.{◌≡◌, ◌∷◌, [], false, is_none, option_map, Some, None};
ghost use Rattle.gfxspec.specs.Commands.{SetVertices, SetIndices, SetTopology, SetRaster, SetScissor, SetDepthStencil, SetBlend, SetPredication, Draw, DrawIndexed, ClearColor, ClearDepthStencil, Begin, End};
ghost use Rattle.device_calls.specs.Descriptions.{topology_numbered, raster_described, depth_stencil_described, blend_described};
ghost use Rattle.device_calls.specs.Answers.{ContextRecords};

use crate::descriptions::{
    BlendDescription, DepthStencilDescription, RasterDescription, blend_of, depth_stencil_of,
    raster_of, topology_of,
};
use crate::numbers::{NOT_DESCRIBED, told};
use cmdlist::DeviceContext;
use gfxspec::{PixelRect, Vertex};
use handles::ContextHandle;
use std::alloc::Global;

/// Sets the vertices. Refused with VertexCount, VertexRange, ListTooLong, OutOfMemory.
#[unsafe(no_mangle)]
pub extern "C" fn yz_handle_context_set_vertices(
    alloc: Global,
    handle: &mut ContextHandle,
    vertices: &[Vertex],
) -> u32
    requires { is_none handle.old.value ≡ false }
    ensures { ContextRecords handle.old.value (Some (SetVertices vertices.now)) handle.new.value result }
{
    let mut context = handle.take(alloc);
    let answer = told(context.ia_set_vertices(vertices));
    handle.put(context);
    answer
}

/// Sets the indices. Refused with VertexCount, ListTooLong, OutOfMemory.
#[unsafe(no_mangle)]
pub extern "C" fn yz_handle_context_set_indices(
    alloc: Global,
    handle: &mut ContextHandle,
    indices: &[u16],
) -> u32
    requires { is_none handle.old.value ≡ false }
    ensures { ContextRecords handle.old.value (Some (SetIndices indices.now)) handle.new.value result }
{
    let mut context = handle.take(alloc);
    let answer = told(context.ia_set_indices(indices));
    handle.put(context);
    answer
}

/// Sets the topology, by its number. Refused with ListTooLong, OutOfMemory.
#[unsafe(no_mangle)]
pub extern "C" fn yz_handle_context_set_topology(
    alloc: Global,
    handle: &mut ContextHandle,
    topology: u32,
) -> u32
    requires { is_none handle.old.value ≡ false }
    ensures { ContextRecords handle.old.value (option_map SetTopology (topology_numbered topology)) handle.new.value result }
{
    match topology_of(topology) {
        Some(topology) => {
            let mut context = handle.take(alloc);
            let answer = told(context.ia_set_topology(topology));
            handle.put(context);
            answer
        }
        None => NOT_DESCRIBED,
    }
}

/// Sets the rasterizer state. Refused with ListTooLong, OutOfMemory.
#[unsafe(no_mangle)]
pub extern "C" fn yz_handle_context_set_raster(
    alloc: Global,
    handle: &mut ContextHandle,
    raster: &RasterDescription,
) -> u32
    requires { is_none handle.old.value ≡ false }
    ensures { ContextRecords handle.old.value (option_map SetRaster (raster_described raster.now)) handle.new.value result }
{
    match raster_of(raster) {
        Some(raster) => {
            let mut context = handle.take(alloc);
            let answer = told(context.rs_set_state(raster));
            handle.put(context);
            answer
        }
        None => NOT_DESCRIBED,
    }
}

/// Sets the scissor rectangle. Refused with ScissorRect, ListTooLong, OutOfMemory.
#[unsafe(no_mangle)]
pub extern "C" fn yz_handle_context_set_scissor(
    alloc: Global,
    handle: &mut ContextHandle,
    left: u32,
    top: u32,
    right: u32,
    bottom: u32,
) -> u32
    requires { is_none handle.old.value ≡ false }
    ensures { ContextRecords handle.old.value (Some (SetScissor (record { left = left; top = top; right = right; bottom = bottom }))) handle.new.value result }
{
    let mut context = handle.take(alloc);
    let answer = told(context.rs_set_scissor(PixelRect {
        left,
        top,
        right,
        bottom,
    }));
    handle.put(context);
    answer
}

/// Sets the depth-stencil state with its reference. Refused with ListTooLong, OutOfMemory.
#[unsafe(no_mangle)]
pub extern "C" fn yz_handle_context_set_depth_stencil(
    alloc: Global,
    handle: &mut ContextHandle,
    state: &DepthStencilDescription,
    reference: u8,
) -> u32
    requires { is_none handle.old.value ≡ false }
    ensures { ContextRecords handle.old.value (option_map (λ s. SetDepthStencil s reference) (depth_stencil_described state.now)) handle.new.value result }
{
    match depth_stencil_of(state) {
        Some(state) => {
            let mut context = handle.take(alloc);
            let answer = told(context.om_set_depth_stencil(state, reference));
            handle.put(context);
            answer
        }
        None => NOT_DESCRIBED,
    }
}

/// Sets the blend state. Refused with ListTooLong, OutOfMemory.
#[unsafe(no_mangle)]
pub extern "C" fn yz_handle_context_set_blend(
    alloc: Global,
    handle: &mut ContextHandle,
    blend: &BlendDescription,
) -> u32
    requires { is_none handle.old.value ≡ false }
    ensures { ContextRecords handle.old.value (option_map SetBlend (blend_described blend.now)) handle.new.value result }
{
    match blend_of(blend) {
        Some(blend) => {
            let mut context = handle.take(alloc);
            let answer = told(context.om_set_blend(blend));
            handle.put(context);
            answer
        }
        None => NOT_DESCRIBED,
    }
}

/// Sets the predicate. Refused with QueryNumber, PredicateInList, ListTooLong, OutOfMemory.
#[unsafe(no_mangle)]
pub extern "C" fn yz_handle_context_set_predication(
    alloc: Global,
    handle: &mut ContextHandle,
    query: u32,
    value: bool,
) -> u32
    requires { is_none handle.old.value ≡ false }
    ensures { ContextRecords handle.old.value (Some (SetPredication (Some (query, value)))) handle.new.value result }
{
    let mut context = handle.take(alloc);
    let answer = told(context.set_predication(Some((query, value))));
    handle.put(context);
    answer
}

/// Sets no predicate. Refused with ListTooLong, OutOfMemory.
#[unsafe(no_mangle)]
pub extern "C" fn yz_handle_context_clear_predication(
    alloc: Global,
    handle: &mut ContextHandle,
) -> u32
    requires { is_none handle.old.value ≡ false }
    ensures { ContextRecords handle.old.value (Some (SetPredication None)) handle.new.value result }
{
    let mut context = handle.take(alloc);
    let answer = told(context.set_predication(None));
    handle.put(context);
    answer
}

/// Draws vertices. Refused with TopologyUnset, DrawRange, ListTooLong, OutOfMemory.
#[unsafe(no_mangle)]
pub extern "C" fn yz_handle_context_draw(
    alloc: Global,
    handle: &mut ContextHandle,
    count: u32,
    start: u32,
) -> u32
    requires { is_none handle.old.value ≡ false }
    ensures { ContextRecords handle.old.value (Some (Draw count start)) handle.new.value result }
{
    let mut context = handle.take(alloc);
    let answer = told(context.draw(count, start));
    handle.put(context);
    answer
}

/// Draws vertices by indices. Refused with TopologyUnset, DrawRange, IndexRange, ListTooLong, OutOfMemory.
#[unsafe(no_mangle)]
pub extern "C" fn yz_handle_context_draw_indexed(
    alloc: Global,
    handle: &mut ContextHandle,
    count: u32,
    start: u32,
    base: i32,
) -> u32
    requires { is_none handle.old.value ≡ false }
    ensures { ContextRecords handle.old.value (Some (DrawIndexed count start base)) handle.new.value result }
{
    let mut context = handle.take(alloc);
    let answer = told(context.draw_indexed(count, start, base));
    handle.put(context);
    answer
}

/// Clears the colour. Refused with ListTooLong, OutOfMemory.
#[unsafe(no_mangle)]
pub extern "C" fn yz_handle_context_clear_color(
    alloc: Global,
    handle: &mut ContextHandle,
    red: u8,
    green: u8,
    blue: u8,
    alpha: u8,
) -> u32
    requires { is_none handle.old.value ≡ false }
    ensures { ContextRecords handle.old.value (Some (ClearColor (red ∷ green ∷ blue ∷ alpha ∷ []))) handle.new.value result }
{
    let mut context = handle.take(alloc);
    let answer = told(context.clear_color([red, green, blue, alpha]));
    handle.put(context);
    answer
}

/// Clears depth and stencil. Refused with VertexRange, ListTooLong, OutOfMemory.
#[unsafe(no_mangle)]
pub extern "C" fn yz_handle_context_clear_depth_stencil(
    alloc: Global,
    handle: &mut ContextHandle,
    depth: u32,
    stencil: u8,
) -> u32
    requires { is_none handle.old.value ≡ false }
    ensures { ContextRecords handle.old.value (Some (ClearDepthStencil depth stencil)) handle.new.value result }
{
    let mut context = handle.take(alloc);
    let answer = told(context.clear_depth_stencil(depth, stencil));
    handle.put(context);
    answer
}

/// Begins a query. Refused with QueryNumber, QueryOpen, PredicateInList, TooManyIssues, ListTooLong, OutOfMemory.
#[unsafe(no_mangle)]
pub extern "C" fn yz_handle_context_begin(
    alloc: Global,
    handle: &mut ContextHandle,
    query: u32,
) -> u32
    requires { is_none handle.old.value ≡ false }
    ensures { ContextRecords handle.old.value (Some (Begin query)) handle.new.value result }
{
    let mut context = handle.take(alloc);
    let answer = told(context.begin(query));
    handle.put(context);
    answer
}

/// Ends a query. Refused with QueryNumber, QueryNotOpen, ListTooLong, OutOfMemory.
#[unsafe(no_mangle)]
pub extern "C" fn yz_handle_context_end(
    alloc: Global,
    handle: &mut ContextHandle,
    query: u32,
) -> u32
    requires { is_none handle.old.value ≡ false }
    ensures { ContextRecords handle.old.value (Some (End query)) handle.new.value result }
{
    let mut context = handle.take(alloc);
    let answer = told(context.end(query));
    handle.put(context);
    answer
}
