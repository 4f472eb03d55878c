//! Each growth refused in turn, and how many growths questions and pixels ask for.

use cmdlist::{CommandList, DeviceContext};
use gfxspec::{DEPTH_MAX, GfxError, Topology, Vertex};
use immediate::ImmediateContext;
use refusing::Refusing;
use std::alloc::Allocator;
use std::test::Fail;
use test_tools::{Call, list_of};

/// A corner in pixels, with its grey.
fn corner(x: i32, y: i32, grey: u8) -> Vertex {
    Vertex {
        x: x.wrapping_mul(65_536),
        y: y.wrapping_mul(65_536),
        z: 0,
        rgba: [grey; 4],
    }
}

fn flush<A: Allocator + Copy + Send>(context: &mut ImmediateContext<A>) -> Result<(), GfxError> {
    context.flush_alone()
}

fn execute<A: Allocator + Copy + Send>(
    context: &mut ImmediateContext<A>,
    list: &CommandList<A>,
) -> Result<(), GfxError> {
    context.execute_alone(list, true)
}

fn count<A: Allocator + Copy + Send>(context: &mut ImmediateContext<A>) -> Result<u64, GfxError> {
    context.get_data_alone(0)
}

fn grey<A: Allocator + Copy + Send>(
    context: &mut ImmediateContext<A>,
    x: u32,
) -> Result<u8, GfxError> {
    match context.pixel_alone(x, 0) {
        Ok(pixel) => Ok(pixel.rgba[0]),
        Err(refusal) => Err(refusal),
    }
}

/// A call that records, or one that runs what is pending.
#[derive(Clone, Copy)]
enum Step {
    Vertices,
    Topology,
    Begin,
    Draw,
    End,
    Flush,
    Count,
}

fn take<A: Allocator + Copy + Send>(
    context: &mut ImmediateContext<A>,
    step: Step,
) -> Result<(), GfxError> {
    match step {
        Step::Vertices => {
            context.ia_set_vertices(&[corner(0, 0, 1), corner(4, 0, 2), corner(0, 4, 3)])
        }
        Step::Topology => context.ia_set_topology(Topology::TriangleList),
        Step::Begin => context.begin(0),
        Step::Draw => context.draw(3, 0),
        Step::End => context.end(0),
        Step::Flush => flush(context),
        Step::Count => {
            count(context)?;
            Ok(())
        }
    }
}

/// Takes each step, and once more where memory is refused.
fn insist<A: Allocator + Copy + Send>(
    context: &mut ImmediateContext<A>,
    steps: &[Step],
) -> Result<(), GfxError> {
    for step in steps {
        match take(context, *step) {
            Err(GfxError::OutOfMemory) => take(context, *step)?,
            first => first?,
        }
    }
    Ok(())
}

/// A new context, asked for once more where memory is refused.
fn context_again<A: Allocator + Copy + Send>(alloc: A) -> Result<ImmediateContext<A>, GfxError> {
    match ImmediateContext::new(alloc, 4, 4) {
        Err(GfxError::OutOfMemory) => ImmediateContext::new(alloc, 4, 4),
        first => first,
    }
}

/// A list that clears colours, depths and stencils.
fn clearing_both<A: Allocator + Copy>(alloc: A) -> Result<CommandList<A>, GfxError> {
    let calls = [
        Call::ClearColor([9; 4]),
        Call::ClearDepthStencil(DEPTH_MAX, 0),
    ];
    list_of(alloc, &calls)
}

fn clearing_again<A: Allocator + Copy>(alloc: A) -> Result<CommandList<A>, GfxError> {
    match clearing_both(alloc) {
        Err(GfxError::OutOfMemory) => clearing_both(alloc),
        first => first,
    }
}

fn execute_again<A: Allocator + Copy + Send>(
    context: &mut ImmediateContext<A>,
    list: &CommandList<A>,
) -> Result<(), GfxError> {
    match execute(context, list) {
        Err(GfxError::OutOfMemory) => execute(context, list),
        first => first,
    }
}

/// The greys of the first row.
fn row<A: Allocator + Copy + Send>(context: &mut ImmediateContext<A>) -> Result<[u8; 4], GfxError> {
    let mut row = [0; 4];
    for x in 0..4u32 {
        row[x as usize] = grey(context, x)?;
    }
    Ok(row)
}

const COUNTED: [Step; 5] = [
    Step::Vertices,
    Step::Topology,
    Step::Begin,
    Step::Draw,
    Step::End,
];

const AGAIN: [Step; 3] = [Step::Draw, Step::Flush, Step::Count];

/// A counted triangle, a list that clears, and the triangle again.
fn draw_around<A: Allocator + Copy + Send>(
    context: &mut ImmediateContext<A>,
    list: &CommandList<A>,
) -> Result<(), GfxError> {
    insist(context, &COUNTED)?;
    execute_again(context, list)?;
    insist(context, &AGAIN)
}

/// Draws the scene on a new context, and answers its count and its first row.
fn draw_and_ask<A: Allocator + Copy + Send>(
    context: &mut ImmediateContext<A>,
    list: &CommandList<A>,
) -> Result<(u64, [u8; 4]), GfxError> {
    draw_around(context, list)?;
    Ok((count(context)?, row(context)?))
}

fn scene<A: Allocator + Copy + Send>(alloc: A) -> Result<(u64, [u8; 4]), GfxError> {
    let list = clearing_again(alloc)?;
    let mut context = context_again(alloc)?;
    draw_and_ask(&mut context, &list)
}

// Each call that is refused is made once more, and the scene is the same.
#[test]
fn each_growth_refused_in_turn(rt: HostRuntime) -> Result<(), Fail> {
    for n in 1..1000u64 {
        let refusing = Refusing::new(rt.alloc(), n);
        let (count, row) = scene(&refusing)?;
        assert!(rt; count == 6 && row == [1, 1, 1, 9], "growth {n}");
        if !refusing.refused() {
            assert!(rt; n > 10);
            return Ok(());
        }
    }
    panic!(rt; "a scene asks for no more than so many growths")
}

/// Clears and flushes, and then flushes and asks for a pixel so many times more.
fn ask_often<A: Allocator + Copy + Send>(
    context: &mut ImmediateContext<A>,
    times: u32,
) -> Result<(), GfxError> {
    context.clear_color([1; 4])?;
    flush(context)?;
    for _ in 0..times {
        flush(context)?;
        grey(context, 0)?;
    }
    Ok(())
}

/// Draws one half of a square.
fn draw_half<A: Allocator + Copy + Send>(
    context: &mut ImmediateContext<A>,
    side: i32,
) -> Result<(), GfxError> {
    context.ia_set_vertices(&[corner(0, 0, 1), corner(side, 0, 2), corner(0, side, 3)])?;
    context.ia_set_topology(Topology::TriangleList)?;
    context.draw(3, 0)?;
    flush(context)
}

/// A list that draws so many of the corners of a strip in a tile.
fn strip_of<A: Allocator + Copy>(
    alloc: A,
    strip: &[Vertex],
    corners: u32,
) -> Result<CommandList<A>, GfxError> {
    let calls = [
        Call::SetVertices(strip),
        Call::SetTopology(Topology::TriangleStrip),
        Call::Draw(corners, 0),
    ];
    list_of(alloc, &calls)
}

/// The grey that a list which draws a strip of so many corners, 42 at most, leaves on its first triangle.
fn executed_strip<A: Allocator + Copy + Send>(alloc: A, corners: u32) -> Result<u8, GfxError> {
    let mut strip = Vec::with_capacity(alloc, 42)?;
    for i in 0..42i32 {
        strip.push(corner(i / 2, 8 - 8 * (i % 2), 1))?;
    }
    let list = strip_of(alloc, strip.as_slice(), corners)?;
    let mut context = ImmediateContext::new(alloc, 32, 32)?;
    context.enqueue_execution_alone(&list, true)?;
    Ok(context.pixel_alone(0, 7)?.rgba[0])
}

/// What a context is asked to do.
#[derive(Clone, Copy)]
enum Work {
    /// To flush and show a pixel so many times.
    Ask(u32),
    /// To draw half of a square of this side.
    Half(i32),
}

/// Makes a context and lets it work.
fn work_with<A: Allocator + Copy + Send>(alloc: A, work: Work) -> Result<(), GfxError> {
    let mut context = ImmediateContext::new(alloc, 32, 32)?;
    match work {
        Work::Ask(times) => ask_often(&mut context, times),
        Work::Half(side) => draw_half(&mut context, side),
    }
}

#[test]
fn questions_of_a_settled_context_take_no_memory(rt: HostRuntime) -> Result<(), Fail> {
    let few = Refusing::new(rt.alloc(), 0);
    work_with(&few, Work::Ask(0))?;
    let many = Refusing::new(rt.alloc(), 0);
    work_with(&many, Work::Ask(100))?;
    assert!(rt; few.count() == many.count());
    Ok(())
}

// A triangle of three pixels takes as many growths as one that covers the tile.
#[test]
fn pixels_take_no_memory(rt: HostRuntime) -> Result<(), Fail> {
    let few = Refusing::new(rt.alloc(), 0);
    work_with(&few, Work::Half(2))?;
    let many = Refusing::new(rt.alloc(), 0);
    work_with(&many, Work::Half(64))?;
    assert!(rt; few.count() == many.count());
    Ok(())
}

// Forty triangles that are executed take as many growths as one.
#[test]
fn triangles_have_room_at_once(rt: HostRuntime) -> Result<(), Fail> {
    let one = Refusing::new(rt.alloc(), 0);
    assert!(rt; executed_strip(&one, 3)? == 1);
    let forty = Refusing::new(rt.alloc(), 0);
    assert!(rt; executed_strip(&forty, 42)? == 1);
    assert!(rt; one.count() == forty.count());
    Ok(())
}
