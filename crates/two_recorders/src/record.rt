//! A recorder: it records the lists of its half, and sends each once it is finished.

ghost use Rattle.std.specs.Prelude.{◌≡◌, ◌<◌, ◌≤◌};

use crate::figures::{HEIGHT, strip};
use device::{
    BlendDesc, BlendState, ColorMask, CommandList, Compare, Cull, DeferredContext,
    DepthStencilDesc, DepthStencilState, DeviceContext, Face, GfxError, LogicOp, PixelRect,
    PortPass, Ports, RasterDesc, RasterState, StencilOp, Topology,
};
use std::alloc::Global;
use std::sync::Wait;
use std::thread;
use std::thread::Threads;

/// The ports by which lists go to the caller.
pub(crate) type ListPorts = Ports<CommandList<Global>, Global>;

/// The right of a recorder to send.
pub(crate) type ListPass = PortPass<CommandList<Global>>;

/// How many lists each recorder sends.
pub(crate) const TURNS: u32 = 3;

/// The first query of a half; it has one for each turn.
pub(crate) fn first_query(half: u32) -> u32
    ensures { result ≤ 8 }
{
    if half == 0 { 0 } else { 8 }
}

/// The state of all lists of a half: both faces, within its columns, with the stencil one more where something is drawn.
fn set_states(context: &mut DeferredContext<Global>, half: u32) -> Result<(), GfxError> {
    let (left, right) = if half == 0 { (0, 64) } else { (64, 128) };
    context.rs_set_state(RasterState::new(RasterDesc {
        cull: Cull::None,
        front_ccw: false,
        scissor: true,
        depth_bias: 0,
    }))?;
    context.rs_set_scissor(PixelRect {
        left,
        top: 0,
        right,
        bottom: HEIGHT,
    })?;
    context.om_set_depth_stencil(counting(), 0)?;
    context.ia_set_topology(Topology::TriangleStrip)
}

/// Depth is tested and written, and the stencil counts what passes.
fn counting() -> DepthStencilState {
    let face = Face {
        fail: StencilOp::Keep,
        depth_fail: StencilOp::Keep,
        pass: StencilOp::IncrSat,
        func: Compare::Always,
    };
    DepthStencilState::new(DepthStencilDesc {
        depth: true,
        write: true,
        func: Compare::Less,
        stencil: true,
        read_mask: 255,
        write_mask: 255,
        front: face,
        back: face,
    })
}

/// Written by XOR, without alpha.
fn by_xor() -> BlendState {
    BlendState::new(BlendDesc {
        logic: true,
        op: LogicOp::Xor,
        mask: ColorMask {
            alpha: false,
            ..ColorMask::all()
        },
    })
}

/// Records the list of a turn. The context keeps its state for the next.
fn record_turn(
    context: &mut DeferredContext<Global>,
    half: u32,
    turn: u32,
) -> Result<CommandList<Global>, GfxError>
    requires { turn < 3 }
{
    let query = first_query(half) + turn;
    if turn == 2 {
        context.om_set_blend(by_xor())?;
    }
    context.ia_set_vertices(&strip(half, turn))?;
    context.begin(query)?;
    context.draw(4, 0)?;
    context.end(query)?;
    context.finish(true)
}

/// Records and sends the lists of the half that has the port's number.
fn send_turns<R: Wait>(
    rt: &R,
    alloc: Global,
    ports: &ListPorts,
    pass: &mut ListPass,
) -> Result<(), GfxError>
    requires { pass.old.queue ≡ ports.now.queue }
    ensures { (pass.new.queue ≡ ports.now.queue) × (pass.new.port ≡ pass.old.port) }
{
    let half = pass.port();
    let mut context = DeferredContext::new(alloc);
    set_states(&mut context, half)?;
    for turn in 0..TURNS {
        let list = record_turn(&mut context, half, turn)?;
        if let Err((refusal, _)) = ports.submit(rt, pass, list) {
            return Err(refusal);
        }
    }
    Ok(())
}

/// Records and sends the lists of a half. The pass comes back.
fn record_half<R: Wait>(
    rt: &R,
    alloc: Global,
    ports: &ListPorts,
    pass: ListPass,
) -> (ListPass, Result<(), GfxError>)
    requires { pass.queue ≡ ports.now.queue }
    ensures { (result.0.queue ≡ ports.now.queue) × (result.0.port ≡ pass.port) }
{
    let mut pass = pass;
    let sent = send_turns(rt, alloc, ports, &mut pass);
    (pass, sent)
}

/// Both recorders, each in a thread of its own. Their passes come back.
pub(crate) fn record_both<R: Threads + Wait + Sync>(
    rt: &R,
    alloc: Global,
    ports: &ListPorts,
    left: ListPass,
    right: ListPass,
) -> (ListPass, ListPass, Result<(), GfxError>)
    requires { (left.queue ≡ ports.now.queue) × (right.queue ≡ ports.now.queue) }
    ensures left { (result.0.queue ≡ ports.now.queue) × (result.0.port ≡ left.port) }
    ensures right { (result.1.queue ≡ ports.now.queue) × (result.1.port ≡ right.port) }
{
    let (left, right) = thread::join(
        rt,
        move ||
            requires { left.queue ≡ ports.now.queue }
            ensures { (result.0.queue ≡ ports.entry.now.queue) × (result.0.port ≡ left.port) }
        { record_half(rt, alloc, ports, left) },
        move ||
            requires { right.queue ≡ ports.now.queue }
            ensures { (result.0.queue ≡ ports.entry.now.queue) × (result.0.port ≡ right.port) }
        { record_half(rt, alloc, ports, right) },
    );
    (left.0, right.0, left.1.and(right.1))
}
