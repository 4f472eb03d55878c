//! Lists that a crew compiles in segments: its threads meet over them, what they draw is what the caller draws alone, and each
//! growth may be refused.

use cmdlist::CommandList;
use gfxspec::{GfxError, Size, Topology, Vertex};
use immediate::{ImmediateContext, RunCrew};
use refusing::Refusing;
use std::alloc::{Allocator, Global};
use std::sync::Wait;
use std::test::Fail;
use std::thread;
use std::thread::Threads;
use test_tools::{AllAtOnce, Call, list_of};
use workers::{Bells, Gate, NoGate, start_crews};

const SIZE: Size = Size {
    width: 40,
    height: 33,
};

/// Three for each triangle: more triangles than a crew leaves whole.
const CORNERS: u32 = 690;

/// Corners of triangles that lie all over the target, many behind or at the depth of others, each of a colour of its own.
fn corners<A: Allocator>(alloc: A) -> Result<Vec<Vertex, A>, GfxError> {
    let mut vertices = Vec::new(alloc);
    for number in 0..CORNERS {
        let place = number.wrapping_mul(7_919) % 1_321;
        vertices.push(Vertex {
            x: (place % 41 * 65_536) as i32,
            y: (place / 41 * 65_536) as i32,
            z: number / 3 % 7 * 1_000_000,
            rgba: [(number / 3) as u8, (number / 768) as u8, 5, 6],
        })?;
    }
    Ok(vertices)
}

/// What is added to each index.
const BASE: i32 = -40;

/// Indices of the corners that lie from another place on, in another order.
fn indices<A: Allocator>(alloc: A) -> Result<Vec<u16, A>, GfxError> {
    let mut indices = Vec::new(alloc);
    for number in 0..910u32 {
        indices.push((number.wrapping_mul(77) % 600 + 70) as u16)?;
    }
    Ok(indices)
}

/// A list of three large draws of these vertices, one of them by indices, with a clear between them, and a small one at its end.
fn large_of<'x, A: Allocator + Copy>(
    alloc: A,
    vertices: &'x [Vertex],
    indices: &'x [u16],
) -> Result<CommandList<A>, GfxError> {
    list_of(
        alloc,
        &[
            Call::SetVertices(vertices),
            Call::SetIndices(indices),
            Call::SetTopology(Topology::TriangleList),
            Call::Draw(CORNERS, 0),
            Call::ClearDepthStencil(5_500_000, 3),
            Call::DrawIndexed(900, 7, BASE),
            Call::SetTopology(Topology::TriangleStrip),
            Call::Draw(290, 50),
            Call::SetTopology(Topology::TriangleList),
            Call::Draw(7, 3),
        ],
    )
}

/// A large list.
fn large_list<A: Allocator + Copy>(alloc: A) -> Result<CommandList<A>, GfxError> {
    let vertices = corners(alloc)?;
    let indices = indices(alloc)?;
    large_of(alloc, vertices.as_slice(), indices.as_slice())
}

/// A list of one triangle of these vertices.
fn small_of<A: Allocator + Copy>(
    alloc: A,
    vertices: &[Vertex],
) -> Result<CommandList<A>, GfxError> {
    list_of(
        alloc,
        &[
            Call::SetVertices(vertices),
            Call::SetTopology(Topology::TriangleList),
            Call::Draw(3, 300),
        ],
    )
}

/// A small list.
fn small_list<A: Allocator + Copy>(alloc: A) -> Result<CommandList<A>, GfxError> {
    let vertices = corners(alloc)?;
    small_of(alloc, vertices.as_slice())
}

/// What a pixel of a context holds, as a number.
fn pixel_of<A: Allocator + Copy + Send>(
    context: &mut ImmediateContext<A>,
    x: u32,
    y: u32,
) -> Result<u64, GfxError> {
    let pixel = context.pixel_alone(x, y)?;
    let color = u64::from(pixel.rgba[0])
        .wrapping_mul(256)
        .wrapping_add(u64::from(pixel.rgba[1]));
    Ok(
        color
            .wrapping_mul(16_777_216)
            .wrapping_add(u64::from(pixel.ds.depth)),
    )
}

/// A number that tells what each third pixel of each third row of a context holds.
fn shown<A: Allocator + Copy + Send>(context: &mut ImmediateContext<A>) -> Result<u64, GfxError> {
    let mut sum = 0_u64;
    for y in 0..11u32 {
        for x in 0..13u32 {
            let pixel = pixel_of(context, x * 3, y * 3)?;
            sum = sum.wrapping_mul(31).wrapping_add(pixel);
        }
    }
    Ok(sum)
}

/// What is shown once a large list ran.
fn drawn_alone<A: Allocator + Copy + Send>(alloc: A) -> Result<u64, GfxError> {
    let list = large_list(alloc)?;
    let mut context = ImmediateContext::new(alloc, SIZE.width, SIZE.height)?;
    context.execute_alone(&list, true)?;
    shown(&mut context)
}

/// The same by a crew.
fn drawn_by_crew<A: Allocator + Copy + Send + Sync, R: Threads + Wait + Sync, G: Gate>(
    alloc: A,
    crew: &RunCrew<'_, '_, A, R, G>,
) -> Result<u64, GfxError> {
    let list = large_list(alloc)?;
    let mut context = ImmediateContext::new(alloc, SIZE.width, SIZE.height)?;
    context.enqueue_execution_by_crew(&list, true, crew)?;
    context.flush_by_crew(crew)?;
    shown(&mut context)
}

/// The same with the threads of the crew, which go home at the end.
fn drawn_with_threads<A: Allocator + Copy + Send + Sync, R: Threads + Wait + Sync, G: Gate + Sync>(
    alloc: A,
    crew: &RunCrew<'_, '_, A, R, G>,
) -> Result<u64, GfxError> {
    thread::scope(thread::scope_env(), crew.rt, |scope| {
        start_crews(crew.rt, scope, &crew.compiling, &crew.drawing, crew.gate);
        let drawn = drawn_by_crew(alloc, crew);
        crew.close();
        drawn
    })
}

// A list of many segments, by crews of some sizes.
#[test]
fn segments_draw_what_the_list_draws(rt: HostRuntime) -> Result<(), Fail> {
    let alloc: Global = rt.alloc();
    let wanted = drawn_alone(alloc)?;
    for workers in [1u32, 3, 15] {
        let bells = Bells::new(workers);
        let crew = RunCrew::new(&rt, &alloc, &bells, &NoGate);
        let found = drawn_with_threads(alloc, &crew)?;
        assert!(rt; found == wanted, "{workers} workers");
    }
    Ok(())
}

// Where no thread starts the caller compiles what it offered.
#[test]
fn no_thread_compiles(rt: HostRuntime) -> Result<(), Fail> {
    let alloc: Global = rt.alloc();
    let bells = Bells::new(15);
    let crew = RunCrew::new(&rt, &alloc, &bells, &NoGate);
    let found = drawn_by_crew(alloc, &crew)?;
    assert!(rt; found == drawn_alone(alloc)?);
    Ok(())
}

/// What is shown once executions that waited ran as one: small, large, and a small one again, by a crew or alone.
fn gathered<A: Allocator + Copy + Send + Sync, R: Threads + Wait + Sync, G: Gate>(
    alloc: A,
    crew: &RunCrew<'_, '_, A, R, G>,
    alone: bool,
) -> Result<u64, GfxError> {
    let (large, small) = (large_list(alloc)?, small_list(alloc)?);
    let mut context = ImmediateContext::new(alloc, SIZE.width, SIZE.height)?;
    for list in [&small, &large, &small] {
        if alone {
            context.enqueue_execution_alone(list, true)?;
        } else {
            context.enqueue_execution_by_crew(list, true, crew)?;
        }
    }
    if !alone {
        context.flush_by_crew(crew)?;
    }
    shown(&mut context)
}

// Executions that run as one draw what they draw one by one.
#[test]
fn executions_run_as_one(rt: HostRuntime) -> Result<(), Fail> {
    let alloc: Global = rt.alloc();
    let bells = Bells::new(3);
    let crew = RunCrew::new(&rt, &alloc, &bells, &NoGate);
    let mut context = ImmediateContext::new(alloc, SIZE.width, SIZE.height)?;
    context.execute_alone(&small_list(alloc)?, true)?;
    context.execute_alone(&large_list(alloc)?, true)?;
    context.execute_alone(&small_list(alloc)?, true)?;
    let wanted = shown(&mut context)?;
    assert!(rt; gathered(alloc, &crew, true)? == wanted);
    assert!(rt; gathered(alloc, &crew, false)? == wanted);
    Ok(())
}

// Three threads and the caller come to the first window of each.
#[test]
fn a_crew_meets_over_windows(rt: HostRuntime) -> Result<(), Fail> {
    let alloc: Global = rt.alloc();
    let bells = Bells::new(3);
    let gate = AllAtOnce::new(4);
    let crew = RunCrew::new(&rt, &alloc, &bells, &gate);
    let found = drawn_with_threads(alloc, &crew)?;
    assert!(rt; found == drawn_alone(alloc)?);
    assert!(rt; gate.all_came());
    Ok(())
}

/// A large list over an allocator that refuses a growth, and once more where it is refused.
fn insisting<A: Allocator + Copy + Send + Sync, R: Threads + Wait + Sync>(
    rt: &R,
    alloc: A,
    lent: &A,
) -> Result<u64, GfxError> {
    let bells = Bells::new(3);
    let crew = RunCrew::new(rt, lent, &bells, &NoGate);
    match drawn_with_threads(alloc, &crew) {
        Err(GfxError::OutOfMemory) => drawn_with_threads(alloc, &crew),
        first => first,
    }
}

// Each growth refused in turn, those of segments and windows too.
#[test]
fn each_growth_refused_in_turn(rt: HostRuntime) -> Result<(), Fail> {
    let wanted = drawn_alone(rt.alloc())?;
    for n in 1..2_000u64 {
        let refusing = Refusing::new(rt.alloc(), n);
        let alloc = &refusing;
        let found = insisting(&rt, alloc, &alloc)?;
        assert!(rt; found == wanted, "growth {n}");
        if !refusing.refused() {
            assert!(rt; n > 50, "{n} growths");
            return Ok(());
        }
    }
    panic!(rt; "a list asks for no more than so many growths")
}
