//! The calls that record, by the handle of a device.

ghost use Rattle.std.specs.Prelude.{◌≡◌, ◌∷◌, [], false, is_none, option_map, Some, None};
ghost use Rattle.gfxspec.specs.Commands.{SetVertices, SetIndices, SetTopology, SetRaster, SetScissor, SetDepthStencil, SetBlend, SetPredication, Draw, DrawIndexed, ClearColor, ClearDepthStencil, Begin, End};
ghost use Rattle.device_calls.specs.Descriptions.{topology_numbered, raster_described, depth_stencil_described, blend_described};
ghost use Rattle.device_calls.specs.Answers.{DeviceRecords};

use crate::descriptions::{
    BlendDescription, DepthStencilDescription, RasterDescription, blend_of, depth_stencil_of,
    raster_of, topology_of,
};
use crate::numbers::{NOT_DESCRIBED, told};
use cmdlist::DeviceContext;
use gfxspec::{PixelRect, Vertex};
use handles::DeviceHandle;
use std::alloc::Global;

/// Sets the vertices. Refused with VertexCount, VertexRange, ListTooLong, OutOfMemory.
#[unsafe(no_mangle)]
pub extern "C" fn yz_handle_device_set_vertices(
    alloc: Global,
    device: &mut DeviceHandle,
    vertices: &[Vertex],
) -> u32
    requires { is_none device.old.value ≡ false }
    ensures { DeviceRecords device.old.value (Some (SetVertices vertices.now)) device.new.value result }
{
    let mut context = device.take(alloc);
    let answer = told(context.ia_set_vertices(vertices));
    device.put(context);
    answer
}

/// Sets the indices. Refused with VertexCount, ListTooLong, OutOfMemory.
#[unsafe(no_mangle)]
pub extern "C" fn yz_handle_device_set_indices(
    alloc: Global,
    device: &mut DeviceHandle,
    indices: &[u16],
) -> u32
    requires { is_none device.old.value ≡ false }
    ensures { DeviceRecords device.old.value (Some (SetIndices indices.now)) device.new.value result }
{
    let mut context = device.take(alloc);
    let answer = told(context.ia_set_indices(indices));
    device.put(context);
    answer
}

/// Sets the topology, by its number. Refused with ListTooLong, OutOfMemory.
#[unsafe(no_mangle)]
pub extern "C" fn yz_handle_device_set_topology(
    alloc: Global,
    device: &mut DeviceHandle,
    topology: u32,
) -> u32
    requires { is_none device.old.value ≡ false }
    ensures { DeviceRecords device.old.value (option_map SetTopology (topology_numbered topology)) device.new.value result }
{
    match topology_of(topology) {
        Some(topology) => {
            let mut context = device.take(alloc);
            let answer = told(context.ia_set_topology(topology));
            device.put(context);
            answer
        }
        None => NOT_DESCRIBED,
    }
}

/// Sets the rasterizer state. Refused with ListTooLong, OutOfMemory.
#[unsafe(no_mangle)]
pub extern "C" fn yz_handle_device_set_raster(
    alloc: Global,
    device: &mut DeviceHandle,
    raster: &RasterDescription,
) -> u32
    requires { is_none device.old.value ≡ false }
    ensures { DeviceRecords device.old.value (option_map SetRaster (raster_described raster.now)) device.new.value result }
{
    match raster_of(raster) {
        Some(raster) => {
            let mut context = device.take(alloc);
            let answer = told(context.rs_set_state(raster));
            device.put(context);
            answer
        }
        None => NOT_DESCRIBED,
    }
}

/// Sets the scissor rectangle. Refused with ScissorRect, ListTooLong, OutOfMemory.
#[unsafe(no_mangle)]
pub extern "C" fn yz_handle_device_set_scissor(
    alloc: Global,
    device: &mut DeviceHandle,
    left: u32,
    top: u32,
    right: u32,
    bottom: u32,
) -> u32
    requires { is_none device.old.value ≡ false }
    ensures { DeviceRecords device.old.value (Some (SetScissor (record { left = left; top = top; right = right; bottom = bottom }))) device.new.value result }
{
    let mut context = device.take(alloc);
    let answer = told(context.rs_set_scissor(PixelRect {
        left,
        top,
        right,
        bottom,
    }));
    device.put(context);
    answer
}

/// Sets the depth-stencil state with its reference. Refused with ListTooLong, OutOfMemory.
#[unsafe(no_mangle)]
pub extern "C" fn yz_handle_device_set_depth_stencil(
    alloc: Global,
    device: &mut DeviceHandle,
    state: &DepthStencilDescription,
    reference: u8,
) -> u32
    requires { is_none device.old.value ≡ false }
    ensures { DeviceRecords device.old.value (option_map (λ s. SetDepthStencil s reference) (depth_stencil_described state.now)) device.new.value result }
{
    match depth_stencil_of(state) {
        Some(state) => {
            let mut context = device.take(alloc);
            let answer = told(context.om_set_depth_stencil(state, reference));
            device.put(context);
            answer
        }
        None => NOT_DESCRIBED,
    }
}

/// Sets the blend state. Refused with ListTooLong, OutOfMemory.
#[unsafe(no_mangle)]
pub extern "C" fn yz_handle_device_set_blend(
    alloc: Global,
    device: &mut DeviceHandle,
    blend: &BlendDescription,
) -> u32
    requires { is_none device.old.value ≡ false }
    ensures { DeviceRecords device.old.value (option_map SetBlend (blend_described blend.now)) device.new.value result }
{
    match blend_of(blend) {
        Some(blend) => {
            let mut context = device.take(alloc);
            let answer = told(context.om_set_blend(blend));
            device.put(context);
            answer
        }
        None => NOT_DESCRIBED,
    }
}

/// Sets the predicate. Refused with QueryNumber, PredicateInList, ListTooLong, OutOfMemory.
#[unsafe(no_mangle)]
pub extern "C" fn yz_handle_device_set_predication(
    alloc: Global,
    device: &mut DeviceHandle,
    query: u32,
    value: bool,
) -> u32
    requires { is_none device.old.value ≡ false }
    ensures { DeviceRecords device.old.value (Some (SetPredication (Some (query, value)))) device.new.value result }
{
    let mut context = device.take(alloc);
    let answer = told(context.set_predication(Some((query, value))));
    device.put(context);
    answer
}

/// Sets no predicate. Refused with ListTooLong, OutOfMemory.
#[unsafe(no_mangle)]
pub extern "C" fn yz_handle_device_clear_predication(
    alloc: Global,
    device: &mut DeviceHandle,
) -> u32
    requires { is_none device.old.value ≡ false }
    ensures { DeviceRecords device.old.value (Some (SetPredication None)) device.new.value result }
{
    let mut context = device.take(alloc);
    let answer = told(context.set_predication(None));
    device.put(context);
    answer
}

/// Draws vertices. Refused with TopologyUnset, DrawRange, ListTooLong, OutOfMemory.
#[unsafe(no_mangle)]
pub extern "C" fn yz_handle_device_draw(
    alloc: Global,
    device: &mut DeviceHandle,
    count: u32,
    start: u32,
) -> u32
    requires { is_none device.old.value ≡ false }
    ensures { DeviceRecords device.old.value (Some (Draw count start)) device.new.value result }
{
    let mut context = device.take(alloc);
    let answer = told(context.draw(count, start));
    device.put(context);
    answer
}

/// Draws vertices by indices. Refused with TopologyUnset, DrawRange, IndexRange, ListTooLong, OutOfMemory.
#[unsafe(no_mangle)]
pub extern "C" fn yz_handle_device_draw_indexed(
    alloc: Global,
    device: &mut DeviceHandle,
    count: u32,
    start: u32,
    base: i32,
) -> u32
    requires { is_none device.old.value ≡ false }
    ensures { DeviceRecords device.old.value (Some (DrawIndexed count start base)) device.new.value result }
{
    let mut context = device.take(alloc);
    let answer = told(context.draw_indexed(count, start, base));
    device.put(context);
    answer
}

/// Clears the colour. Refused with ListTooLong, OutOfMemory.
#[unsafe(no_mangle)]
pub extern "C" fn yz_handle_device_clear_color(
    alloc: Global,
    device: &mut DeviceHandle,
    red: u8,
    green: u8,
    blue: u8,
    alpha: u8,
) -> u32
    requires { is_none device.old.value ≡ false }
    ensures { DeviceRecords device.old.value (Some (ClearColor (red ∷ green ∷ blue ∷ alpha ∷ []))) device.new.value result }
{
    let mut context = device.take(alloc);
    let answer = told(context.clear_color([red, green, blue, alpha]));
    device.put(context);
    answer
}

/// Clears depth and stencil. Refused with VertexRange, ListTooLong, OutOfMemory.
#[unsafe(no_mangle)]
pub extern "C" fn yz_handle_device_clear_depth_stencil(
    alloc: Global,
    device: &mut DeviceHandle,
    depth: u32,
    stencil: u8,
) -> u32
    requires { is_none device.old.value ≡ false }
    ensures { DeviceRecords device.old.value (Some (ClearDepthStencil depth stencil)) device.new.value result }
{
    let mut context = device.take(alloc);
    let answer = told(context.clear_depth_stencil(depth, stencil));
    device.put(context);
    answer
}

/// Begins a query. Refused with QueryNumber, QueryOpen, PredicateInList, TooManyIssues, ListTooLong, OutOfMemory.
#[unsafe(no_mangle)]
pub extern "C" fn yz_handle_device_begin(
    alloc: Global,
    device: &mut DeviceHandle,
    query: u32,
) -> u32
    requires { is_none device.old.value ≡ false }
    ensures { DeviceRecords device.old.value (Some (Begin query)) device.new.value result }
{
    let mut context = device.take(alloc);
    let answer = told(context.begin(query));
    device.put(context);
    answer
}

/// Ends a query. Refused with QueryNumber, QueryNotOpen, ListTooLong, OutOfMemory.
#[unsafe(no_mangle)]
pub extern "C" fn yz_handle_device_end(alloc: Global, device: &mut DeviceHandle, query: u32) -> u32
    requires { is_none device.old.value ≡ false }
    ensures { DeviceRecords device.old.value (Some (End query)) device.new.value result }
{
    let mut context = device.take(alloc);
    let answer = told(context.end(query));
    device.put(context);
    answer
}
