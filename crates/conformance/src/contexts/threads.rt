//! The calls that take a number of threads: as many meet as are asked for, and the answers are those of the scene.

use gfxspec::{GfxError, Topology, Vertex};
use immediate::ImmediateContext;
use refusing::Refusing;
use std::alloc::Allocator;
use std::test::Fail;
use std::thread::Threads;
use test_tools::{AllAtOnce, Call, list_of, record_all};
use workers::{Gate, NoGate};

/// A call that runs what is pending by a number of threads.
#[derive(Clone, Copy)]
enum Threaded {
    Flush,
    Execute,
    Pixel,
    GetData,
}

const ALL: [Threaded; 4] = [
    Threaded::Flush,
    Threaded::Execute,
    Threaded::Pixel,
    Threaded::GetData,
];

/// A corner in pixels.
fn corner(x: i32, y: i32) -> Vertex {
    Vertex {
        x: x.wrapping_mul(65_536),
        y: y.wrapping_mul(65_536),
        z: 0,
        rgba: [7; 4],
    }
}

/// A target of sixteen tiles, with a draw pending over all of it that query 0 counts.
fn drawn<A: Allocator + Copy + Send>(alloc: A) -> Result<ImmediateContext<A>, GfxError> {
    let corners = [
        corner(0, 0),
        corner(128, 0),
        corner(0, 128),
        corner(128, 128),
    ];
    let calls = [
        Call::SetVertices(&corners),
        Call::SetTopology(Topology::TriangleStrip),
        Call::Begin(0),
        Call::Draw(4, 0),
        Call::End(0),
    ];
    let mut context = ImmediateContext::new(alloc, 128, 128)?;
    record_all(&mut context, &calls)?;
    Ok(context)
}

/// Executes a list that clears the colours, behind what is pending.
fn execute<A: Allocator + Copy + Send + Sync, R: Threads + Sync, G: Gate + Sync>(
    rt: &R,
    alloc: A,
    context: &mut ImmediateContext<A>,
    workers: u32,
    gate: &G,
) -> Result<(), GfxError> {
    let list = list_of(alloc, &[Call::ClearColor([9; 4])])?;
    context.execute(rt, &list, true, workers, gate)
}

/// What a call answers: a count, the red of a pixel, or nothing.
fn answer<A: Allocator + Copy + Send + Sync, R: Threads + Sync, G: Gate + Sync>(
    rt: &R,
    alloc: A,
    context: &mut ImmediateContext<A>,
    call: Threaded,
    workers: u32,
    gate: &G,
) -> Result<u64, GfxError> {
    match call {
        Threaded::Flush => {
            context.flush(rt, workers, gate)?;
            Ok(0)
        }
        Threaded::Execute => {
            execute(rt, alloc, context, workers, gate)?;
            Ok(0)
        }
        Threaded::Pixel => {
            let pixel = context.pixel(rt, 127, 127, workers, gate)?;
            Ok(u64::from(pixel.rgba[0]))
        }
        Threaded::GetData => context.get_data(rt, 0, workers, gate),
    }
}

/// What a call is to answer, and the red that it leaves.
fn wanted(call: Threaded) -> (u64, u8) {
    match call {
        Threaded::Flush => (0, 7),
        Threaded::Execute => (0, 9),
        Threaded::Pixel => (7, 7),
        Threaded::GetData => (16_384, 7),
    }
}

/// Whether a call answers on a new context what it is to, and leaves that; where memory is refused, it is made once more.
fn is_right<A: Allocator + Copy + Send + Sync, R: Threads + Sync, G: Gate + Sync>(
    rt: &R,
    alloc: A,
    call: Threaded,
    workers: u32,
    gate: &G,
) -> Result<bool, GfxError> {
    let mut context = drawn(alloc)?;
    let answered = match answer(rt, alloc, &mut context, call, workers, gate) {
        Err(GfxError::OutOfMemory) => answer(rt, alloc, &mut context, call, workers, gate)?,
        first => first?,
    };
    let left = (
        context.get_data_alone(0)?,
        context.pixel_alone(64, 1)?.rgba[0],
    );
    let (answer, red) = wanted(call);
    Ok(answered == answer && left == (16_384, red))
}

// As many threads and the caller come to their first tile in each call.
#[test]
fn as_many_threads_meet_as_are_asked_for(rt: HostRuntime) -> Result<(), Fail> {
    for call in ALL {
        for workers in [1u32, 3, 15] {
            let gate = AllAtOnce::new(u64::from(workers) + 1);
            assert!(rt;
                is_right(&rt, rt.alloc(), call, workers, &gate)?,
                "{workers} threads"
            );
            assert!(rt; gate.all_came(), "{workers} threads");
        }
    }
    Ok(())
}

// With none the caller is alone.
#[test]
fn no_thread_is_as_alone(rt: HostRuntime) -> Result<(), Fail> {
    for call in ALL {
        assert!(rt; is_right(&rt, rt.alloc(), call, 0, &NoGate)?);
    }
    Ok(())
}

/// The same over an allocator that refuses a growth; where making the context is refused, once more.
fn insisting<A: Allocator + Copy + Send + Sync, R: Threads + Sync>(
    rt: &R,
    alloc: A,
    call: Threaded,
) -> Result<bool, GfxError> {
    match is_right(rt, alloc, call, 3, &NoGate) {
        Err(GfxError::OutOfMemory) => is_right(rt, alloc, call, 3, &NoGate),
        first => first,
    }
}

// Each growth of each call refused in turn.
#[test]
fn each_growth_of_each_call_refused_in_turn(rt: HostRuntime) -> Result<(), Fail> {
    for call in ALL {
        let mut growths = 0_u64;
        for n in 1..1000u64 {
            let refusing = Refusing::new(rt.alloc(), n);
            assert!(rt; insisting(&rt, &refusing, call)?, "growth {n}");
            if !refusing.refused() {
                growths = n;
                break;
            }
        }
        assert!(rt;
            growths > 10,
            "a call asks for some growths, and for fewer than a thousand"
        );
    }
    Ok(())
}
