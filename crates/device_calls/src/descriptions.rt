//! States as C describes them: choices by the numbers of the Direct3D 11 headers, switches by 0 or anything else.

ghost use Rattle.std.specs.Prelude.{◌≡◌, ◌<◌, ◌≤◌, IfSome, IfNone};
ghost use Rattle.states.specs.ColorMask.{mask_bits};
ghost use Rattle.device_calls.specs.Descriptions.{cull_numbered, topology_numbered, compare_numbered, stencil_op_numbered, logic_op_numbered, face_described, raster_described, depth_stencil_described, blend_described};

use gfxspec::{Compare, Cull, LogicOp, StencilOp, Topology};
use states::{
    BlendDesc, BlendState, ColorMask, DepthStencilDesc, DepthStencilState, Face, RasterDesc,
    RasterState,
};

/// A rasterizer state.
#[repr(C)]
#[derive(Clone, Copy)]
pub struct RasterDescription {
    pub cull: u32,
    pub front_ccw: u32,
    pub scissor: u32,
    pub depth_bias: i32,
}

/// What is done to the stencil value of triangles that face one way.
#[repr(C)]
#[derive(Clone, Copy)]
pub struct FaceDescription {
    pub fail: u32,
    pub depth_fail: u32,
    pub pass: u32,
    pub compare: u32,
}

/// A depth-stencil state.
#[repr(C)]
#[derive(Clone, Copy)]
pub struct DepthStencilDescription {
    pub depth: u32,
    pub write: u32,
    pub compare: u32,
    pub stencil: u32,
    pub front: FaceDescription,
    pub back: FaceDescription,
    pub read_mask: u8,
    pub write_mask: u8,
}

/// A blend state: the logic operation, and the channels that are written, red by 1, green 2, blue 4, alpha 8.
#[repr(C)]
#[derive(Clone, Copy)]
pub struct BlendDescription {
    pub logic: u32,
    pub op: u32,
    pub mask: u32,
}

/// By number.
fn cull_of(number: u32) -> Option<Cull>
    ensures { result ≡ cull_numbered number }
{
    Cull::from_number(number)
}

/// By number.
pub(crate) fn topology_of(number: u32) -> Option<Topology>
    ensures { result ≡ topology_numbered number }
{
    Topology::from_number(number)
}

/// By number.
fn compare_of(number: u32) -> Option<Compare>
    ensures { result ≡ compare_numbered number }
{
    Compare::from_number(number)
}

/// By number.
fn stencil_op_of(number: u32) -> Option<StencilOp>
    ensures { result ≡ stencil_op_numbered number }
{
    StencilOp::from_number(number)
}

/// By number.
fn logic_op_of(number: u32) -> Option<LogicOp>
    ensures { result ≡ logic_op_numbered number }
{
    LogicOp::from_number(number)
}

/// A rasterizer state, if it is one.
pub(crate) fn raster_of(raster: &RasterDescription) -> Option<RasterState>
    ensures { result ≡ raster_described raster.now }
{
    let cull = cull_of(raster.cull)?;
    Some(RasterState::new(RasterDesc {
        cull,
        front_ccw: raster.front_ccw != 0,
        scissor: raster.scissor != 0,
        depth_bias: raster.depth_bias,
    }))
}

/// A face, if it is one.
fn face_of(face: &FaceDescription) -> Option<Face>
    ensures { result ≡ face_described face.now }
{
    let fail = stencil_op_of(face.fail)?;
    let depth_fail = stencil_op_of(face.depth_fail)?;
    let pass = stencil_op_of(face.pass)?;
    let func = compare_of(face.compare)?;
    Some(Face {
        fail,
        depth_fail,
        pass,
        func,
    })
}

/// A depth-stencil state, if it is one.
pub(crate) fn depth_stencil_of(state: &DepthStencilDescription) -> Option<DepthStencilState>
    ensures { result ≡ depth_stencil_described state.now }
{
    let func = compare_of(state.compare)?;
    let front = face_of(&state.front)?;
    let back = face_of(&state.back)?;
    Some(DepthStencilState::new(DepthStencilDesc {
        depth: state.depth != 0,
        write: state.write != 0,
        func,
        stencil: state.stencil != 0,
        read_mask: state.read_mask,
        write_mask: state.write_mask,
        front,
        back,
    }))
}

/// A set of channels, if it is one.
fn mask_of(mask: u32) -> Option<ColorMask>
    ensures some { IfSome result (λ channels. (mask_bits channels ≡ mask) × (mask < 16)) }
    ensures none { IfNone result (16 ≤ mask) }
{
    if mask >= 16 {
        return None;
    }
    ColorMask::from_bits(mask as u8)
}

/// A blend state, if it is one.
pub(crate) fn blend_of(blend: &BlendDescription) -> Option<BlendState>
    ensures { result ≡ blend_described blend.now }
{
    let op = logic_op_of(blend.op)?;
    let mask = mask_of(blend.mask)?;
    Some(BlendState::new(BlendDesc {
        logic: blend.logic != 0,
        op,
        mask,
    }))
}
