//! A crew of threads: its threads meet at a run, over many runs it answers as the caller alone, and the caller draws what no
//! thread and no memory is there for.

use cmdlist::CommandList;
use gfxspec::{GfxError, Topology, Vertex};
use immediate::{ImmediateContext, RunCrew};
use refusing::Refusing;
use std::alloc::{Allocator, Global};
use std::sync::Wait;
use std::sync::atomic::Ordering::SeqCst;
use std::sync::atomic::{AtomicBool, AtomicU64};
use std::test::Fail;
use std::thread;
use std::thread::Threads;
use test_tools::{AllAtOnce, Call, Meeting, list_of, record_all};
use workers::{Bells, Gate, NoGate, start_crews};

/// A corner in pixels.
fn corner(x: i32, y: i32) -> Vertex {
    Vertex {
        x: x.wrapping_mul(65_536),
        y: y.wrapping_mul(65_536),
        z: 0,
        rgba: [7; 4],
    }
}

/// Sixteen times the same triangle: so many pixels that threads are woken for it.
fn sixteen_triangles() -> [Vertex; 48] {
    let mut corners = [corner(0, 0); 48];
    for triangle in 0..16usize {
        corners[3 * triangle + 1] = corner(70, 0);
        corners[3 * triangle + 2] = corner(0, 60);
    }
    corners
}

/// A list that clears the colours and counts triangles over two of six tiles and more.
fn clearing<A: Allocator + Copy>(alloc: A, shade: u8) -> Result<CommandList<A>, GfxError> {
    let corners = sixteen_triangles();
    list_of(
        alloc,
        &[
            Call::ClearColor([shade; 4]),
            Call::SetVertices(&corners),
            Call::SetTopology(Topology::TriangleList),
            Call::Begin(0),
            Call::Draw(48, 0),
            Call::End(0),
        ],
    )
}

/// What a run leaves: the count of the triangle, and shades inside and outside of it.
type Left = (u64, u8, u8);

/// What an executed list left, by the answers to questions.
fn left<A: Allocator + Copy + Send>(context: &mut ImmediateContext<A>) -> Result<Left, GfxError> {
    let count = context.get_data_alone(0)?;
    let inside = context.pixel_alone(1, 1)?;
    let outside = context.pixel_alone(95, 63)?;
    Ok((count, inside.rgba[0], outside.rgba[0]))
}

/// Executes a list alone, and asks.
fn left_alone<A: Allocator + Copy + Send>(
    context: &mut ImmediateContext<A>,
    list: &CommandList<A>,
) -> Result<Left, GfxError> {
    context.execute_alone(list, false)?;
    left(context)
}

/// Executes a list by a crew, and asks.
fn left_by_crew<A: Allocator + Copy + Send + Sync, R: Threads + Wait + Sync, G: Gate>(
    context: &mut ImmediateContext<A>,
    list: &CommandList<A>,
    crew: &RunCrew<'_, '_, A, R, G>,
) -> Result<Left, GfxError> {
    context.enqueue_execution_by_crew(list, false, crew)?;
    context.flush_by_crew(crew)?;
    left(context)
}

/// Executes the lists of so many shades by a crew and alone, and says for how many the answers were the same.
fn same_answers<A: Allocator + Copy + Send + Sync, R: Threads + Wait + Sync, G: Gate>(
    alloc: A,
    crew: &RunCrew<'_, '_, A, R, G>,
    shades: u8,
) -> Result<u64, GfxError> {
    let mut one = ImmediateContext::new(alloc, 96, 64)?;
    let mut many = ImmediateContext::new(alloc, 96, 64)?;
    let mut same = 0_u64;
    for shade in 0..shades {
        let list = clearing(alloc, shade)?;
        if left_by_crew(&mut many, &list, crew)? == left_alone(&mut one, &list)? {
            same = same.wrapping_add(1);
        }
    }
    Ok(same)
}

/// The same with the threads of the crew, which go home at the end.
fn same_with_threads<A: Allocator + Copy + Send + Sync, R: Threads + Wait + Sync, G: Gate + Sync>(
    alloc: A,
    crew: &RunCrew<'_, '_, A, R, G>,
    shades: u8,
) -> Result<u64, GfxError> {
    thread::scope(thread::scope_env(), crew.rt, |scope| {
        start_crews(crew.rt, scope, &crew.compiling, &crew.drawing, crew.gate);
        let same = same_answers(alloc, crew, shades);
        crew.close();
        same
    })
}

// Three threads and the caller come to the first claim of the first run, and the crew goes on for a hundred.
#[test]
fn a_crew_meets_and_stays(rt: HostRuntime) -> Result<(), Fail> {
    let alloc: Global = rt.alloc();
    let bells = Bells::new(3);
    let gate = AllAtOnce::new(4);
    let crew = RunCrew::new(&rt, &alloc, &bells, &gate);
    let same = same_with_threads(alloc, &crew, 100)?;
    assert!(rt; same == 100);
    assert!(rt; gate.all_came());
    Ok(())
}

// More workers than the six tiles of a run.
#[test]
fn fifteen_for_six_tiles(rt: HostRuntime) -> Result<(), Fail> {
    let alloc: Global = rt.alloc();
    let bells = Bells::new(15);
    let crew = RunCrew::new(&rt, &alloc, &bells, &NoGate);
    let same = same_with_threads(alloc, &crew, 100)?;
    assert!(rt; same == 100);
    Ok(())
}

// Where no thread starts the caller takes back what it offered, and draws all tiles.
#[test]
fn no_thread_starts(rt: HostRuntime) -> Result<(), Fail> {
    let alloc: Global = rt.alloc();
    let bells = Bells::new(15);
    let crew = RunCrew::new(&rt, &alloc, &bells, &NoGate);
    let same = same_answers(alloc, &crew, 10)?;
    assert!(rt; same == 10);
    Ok(())
}

/// Counts the claims of all workers beside the caller.
#[derive(Drop)]
struct Others {
    claims: AtomicU64,
}

impl Gate for Others {
    fn before_claim(&self, worker: u32, _turn: u64) {
        if worker > 0 {
            self.claims.fetch_add(1, SeqCst);
        }
    }

    fn after_hand_in(&self, _worker: u32, _turn: u64) {}
}

/// Clears a target by a crew, as often as there are shades from one on.
fn clear_often<R: Threads + Wait + Sync, G: Gate + Sync>(
    context: &mut ImmediateContext<Global>,
    crew: &RunCrew<'_, '_, Global, R, G>,
    first: u8,
) -> Result<(), GfxError> {
    let mut answer = Ok(());
    for shade in first..100u8 {
        answer = answer.and(record_all(context, &[Call::ClearColor([shade; 4])]));
        answer = answer.and(context.flush_by_crew(crew));
    }
    answer
}

/// Clears a target of so many pixels a side by the threads of a crew once, and then 99 times: how many claims others than the
/// caller made for the first, and for all.
fn claims_of_others<R: Threads + Wait + Sync>(
    alloc: Global,
    crew: &RunCrew<'_, '_, Global, R, Others>,
    side: u32,
) -> Result<(u64, u64), GfxError> {
    let mut context = ImmediateContext::new(alloc, side, side)?;
    thread::scope(thread::scope_env(), crew.rt, |scope| {
        start_crews(crew.rt, scope, &crew.compiling, &crew.drawing, crew.gate);
        let one = clear_often(&mut context, crew, 99);
        let first = crew.gate.claims.load(SeqCst);
        let many = clear_often(&mut context, crew, 1);
        crew.close();
        one.and(many)?;
        Ok((first, crew.gate.claims.load(SeqCst)))
    })
}

// A run of one tile is the caller's alone.
#[test]
fn one_tile_is_offered_to_nobody(rt: HostRuntime) -> Result<(), Fail> {
    let alloc: Global = rt.alloc();
    let bells = Bells::new(3);
    let gate = Others {
        claims: AtomicU64::new(0),
    };
    let crew = RunCrew::new(&rt, &alloc, &bells, &gate);
    let (_, claims) = claims_of_others(alloc, &crew, 32)?;
    assert!(rt; claims == 0);
    Ok(())
}

// What draws little is the caller's alone, but for the first run.
#[test]
fn little_is_offered_to_nobody(rt: HostRuntime) -> Result<(), Fail> {
    let alloc: Global = rt.alloc();
    let bells = Bells::new(3);
    let gate = Others {
        claims: AtomicU64::new(0),
    };
    let crew = RunCrew::new(&rt, &alloc, &bells, &gate);
    let (first, claims) = claims_of_others(alloc, &crew, 96)?;
    assert!(rt; claims == first);
    Ok(())
}

/// Once it is told to, holds the first claims of a run until four workers have come to theirs.
#[derive(Drop)]
struct LaterMeeting {
    is_on: AtomicBool,
    first_claims: Meeting,
}

impl Gate for LaterMeeting {
    fn before_claim(&self, _worker: u32, turn: u64) {
        if turn == 0 && self.is_on.load(SeqCst) {
            self.first_claims.wait();
        }
    }

    fn after_hand_in(&self, _worker: u32, _turn: u64) {}
}

/// Clears a target of two tiles by a crew, and then one of 81, at which its threads meet.
fn clear_few_and_many<R: Threads + Wait + Sync>(
    alloc: Global,
    crew: &RunCrew<'_, '_, Global, R, LaterMeeting>,
) -> Result<(), GfxError> {
    let mut few = ImmediateContext::new(alloc, 64, 32)?;
    let mut many = ImmediateContext::new(alloc, 288, 288)?;
    record_all(&mut few, &[Call::ClearColor([1; 4])])?;
    record_all(&mut many, &[Call::ClearColor([2; 4])])?;
    thread::scope(thread::scope_env(), crew.rt, |scope| {
        start_crews(crew.rt, scope, &crew.compiling, &crew.drawing, crew.gate);
        let cleared = few.flush_by_crew(crew);
        crew.gate.is_on.store(true, SeqCst);
        let cleared = cleared.and(many.flush_by_crew(crew));
        crew.close();
        cleared
    })
}

// The first run asks for one thread, the second for three.
#[test]
fn a_later_run_starts_more_threads(rt: HostRuntime) -> Result<(), Fail> {
    let alloc: Global = rt.alloc();
    let bells = Bells::new(3);
    let gate = LaterMeeting {
        is_on: AtomicBool::new(false),
        first_claims: Meeting::new(4),
    };
    let crew = RunCrew::new(&rt, &alloc, &bells, &gate);
    clear_few_and_many(alloc, &crew)?;
    assert!(rt; gate.first_claims.all_came());
    Ok(())
}

/// Executes three lists over an allocator that refuses a growth, and each call once more where it is refused: for how many
/// the answers were the same.
fn insisting<A: Allocator + Copy + Send + Sync, R: Threads + Wait + Sync>(
    rt: &R,
    alloc: A,
    lent: &A,
) -> Result<u64, GfxError> {
    let bells = Bells::new(3);
    let crew = RunCrew::new(rt, lent, &bells, &NoGate);
    match same_with_threads(alloc, &crew, 3) {
        Err(GfxError::OutOfMemory) => same_with_threads(alloc, &crew, 3),
        first => first,
    }
}

// Each growth refused in turn, those of the crew and of its runs too.
#[test]
fn each_growth_refused_in_turn(rt: HostRuntime) -> Result<(), Fail> {
    for n in 1..1000u64 {
        let refusing = Refusing::new(rt.alloc(), n);
        let alloc = &refusing;
        let same = insisting(&rt, alloc, &alloc)?;
        assert!(rt; same == 3, "growth {n}");
        if !refusing.refused() {
            assert!(rt; n > 50);
            return Ok(());
        }
    }
    panic!(rt; "three runs ask for no more than so many growths")
}
