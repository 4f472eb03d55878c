//! Each call of a device context, made as a method.

use cmdlist::DeviceContext;
use gfxspec::{
    Compare, Cull, DEPTH_MAX, GfxError, LogicOp, PixelRect, StencilOp, Topology, Vertex,
};
use immediate::ImmediateContext;
use states::{
    BlendDesc, BlendState, ColorMask, DepthStencilDesc, DepthStencilState, Face, RasterDesc,
    RasterState,
};
use std::alloc::{Allocator, Global};
use std::test::Fail;

/// A corner in pixels, at the depth 1,000.
fn corner(x: i32, y: i32, shade: u8) -> Vertex {
    Vertex {
        x: x.wrapping_mul(65_536),
        y: y.wrapping_mul(65_536),
        z: 1_000,
        rgba: [shade; 4],
    }
}

/// Sets the rasterizer state and the scissor: back faces are drawn in the two columns at the left.
fn set_rasterizer<C: DeviceContext>(context: &mut C) -> Result<(), GfxError> {
    context.rs_set_state(RasterState::new(RasterDesc {
        cull: Cull::Front,
        front_ccw: true,
        scissor: true,
        depth_bias: 0,
    }))?;
    context.rs_set_scissor(PixelRect {
        left: 0,
        top: 0,
        right: 2,
        bottom: 4,
    })
}

/// Sets the state of the output merger: any depth passes, the stencil becomes the reference 5, and colours are joined by
/// exclusive or, but for blue.
fn set_output_merger<C: DeviceContext>(context: &mut C) -> Result<(), GfxError> {
    let face = Face {
        fail: StencilOp::Keep,
        depth_fail: StencilOp::Keep,
        pass: StencilOp::Replace,
        func: Compare::Always,
    };
    let state = DepthStencilState::new(DepthStencilDesc {
        depth: true,
        write: true,
        func: Compare::Always,
        stencil: true,
        read_mask: 255,
        write_mask: 255,
        front: face,
        back: face,
    });
    context.om_set_depth_stencil(state, 5)?;
    context.om_set_blend(BlendState::new(BlendDesc {
        logic: true,
        op: LogicOp::Xor,
        mask: ColorMask {
            red: true,
            green: true,
            blue: false,
            alpha: true,
        },
    }))
}

/// Sets vertices, indices and topology: a triangle over the target, whose first corner is the last vertex.
fn set_input<C: DeviceContext>(context: &mut C) -> Result<(), GfxError> {
    let corners = [corner(0, 0, 1), corner(16, 0, 2), corner(0, 16, 6)];
    context.ia_set_vertices(&corners)?;
    context.ia_set_indices(&[2, 0, 1])?;
    context.ia_set_topology(Topology::TriangleList)
}

/// Clears the target, and draws by indices under query 2.
fn draw_counted<C: DeviceContext>(context: &mut C) -> Result<(), GfxError> {
    context.clear_color([3; 4])?;
    context.clear_depth_stencil(DEPTH_MAX, 9)?;
    context.begin(2)?;
    context.draw_indexed(3, 0, 0)?;
    context.end(2)
}

/// Draws under a predicate by which nothing is drawn: query 2 counted pixels.
fn draw_in_vain<C: DeviceContext>(context: &mut C) -> Result<(), GfxError> {
    context.set_predication(Some((2, true)))?;
    context.draw(3, 0)?;
    context.set_predication(None)
}

/// Sets each state, and draws.
fn record_each<C: DeviceContext>(context: &mut C) -> Result<(), GfxError> {
    set_rasterizer(context)?;
    set_output_merger(context)?;
    set_input(context)?;
    draw_counted(context)
}

/// The colour, depth and stencil of a pixel.
fn shown<A: Allocator + Copy + Send>(
    context: &mut ImmediateContext<A>,
    x: u32,
) -> Result<([u8; 4], u32, u8), GfxError> {
    let pixel = context.pixel_alone(x, 1)?;
    let rgba = pixel.rgba;
    Ok((rgba, pixel.ds.depth, pixel.ds.stencil))
}

#[test]
fn each_call_as_a_method(rt: HostRuntime) -> Result<(), Fail> {
    let alloc: Global = rt.alloc();
    let mut context = ImmediateContext::new(alloc, 4, 4)?;
    record_each(&mut context)?;
    assert!(rt; context.get_data_alone(2)? == 8);
    draw_in_vain(&mut context)?;
    assert!(rt; shown(&mut context, 1)? == ([5, 5, 3, 5], 1_000, 5));
    assert!(rt; shown(&mut context, 2)? == ([3; 4], DEPTH_MAX, 9));
    Ok(())
}
