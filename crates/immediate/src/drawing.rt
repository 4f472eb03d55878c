//! The tiles of compiled lists. Memory is refused before the first tile is taken, and then nothing is changed; where no tile
//! has words no board is made.

ghost use Rattle.std.specs.Prelude.{◌≡◌, ◌≤◌, replicate};
ghost use Rattle.immediate.specs.Engines.{IsEngine, IsDrawnBy, MayDraw};

use crate::crew::RunCrew;
use crate::engine::EngineOf;
use arrayvec::ArrayVec;
use binner::Compiled;
use gfxspec::GfxError;
use std::alloc::Allocator;
use std::sync::Wait;
use std::thread::Threads;
use tileblock::Target;
use tilecore::TileJob;
use tileprog::TileProgram;
use tilerun::{BlockJob, run_alone, run_in_threads, run_with_crew};
use workers::Gate;

/// The counts of a run, or why it was refused, and the first compiled list as it was.
pub(crate) type Drawn<A> = (Result<ArrayVec<u64, 64>, GfxError>, Compiled<A>);

/// A count of 0 for each issue.
fn no_counts(issues: u32) -> ArrayVec<u64, 64>
    requires { issues ≤ 64 }
    ensures { result.items ≡ replicate issues 0 }
{
    let mut counts = ArrayVec::new();
    for _ in 0..issues {
        counts.push(0);
    }
    counts
}

/// The tiles of one list, or of several that run one behind the other, by an engine.
pub(crate) fn draw<A: Allocator + Copy + Send, E: EngineOf<A>>(
    engine: &E,
    program: TileProgram<A>,
    target: &mut Target<A>,
) -> Drawn<A>
    requires engine { IsEngine (E.may_list engine.now) (E.lists engine.now) (E.may_compile engine.now) (E.compiles engine.now) (E.may_draw engine.now) (E.draws engine.now) }
    requires fits { MayDraw program target.old }
    ensures { IsDrawnBy program target.old target.new result }
{
    if program.touched().is_empty() {
        return (Ok(no_counts(program.issues())), program.into_compiled());
    }
    engine.draw(program, target)
}

/// The tiles of a program on the caller's thread.
pub(crate) fn draw_alone<A: Allocator + Copy + Send>(
    alloc: &A,
    program: TileProgram<A>,
    target: &mut Target<A>,
) -> Drawn<A>
    requires { MayDraw program target.old }
    ensures { IsDrawnBy program target.old target.new result }
{
    let (counts, program) = run_alone(alloc, target, program);
    (counts, program.into_compiled())
}

/// The tiles of a program with as many threads beside the caller, which start for it, each of which passes the gate.
pub(crate) fn draw_in_threads<A: Allocator + Copy + Send + Sync, R: Threads + Sync, G: Gate + Sync>(
    rt: &R,
    alloc: &A,
    program: TileProgram<A>,
    target: &mut Target<A>,
    workers: u32,
    gate: &G,
) -> Drawn<A>
    requires fits { MayDraw program target.old }
    requires workers { workers ≤ 15 }
    ensures { IsDrawnBy program target.old target.new result }
{
    let (counts, program) = run_in_threads(rt, alloc, target, program, workers, gate);
    (counts, program.into_compiled())
}

/// The tiles of a program by the threads of a crew beside the caller, which passes the gate too.
pub(crate) fn draw_by_crew<A: Allocator + Copy + Send, R: Wait, G: Gate>(
    crew: &RunCrew<'_, '_, A, R, G>,
    program: TileProgram<A>,
    target: &mut Target<A>,
) -> Drawn<A>
    requires { MayDraw program target.old }
    ensures { IsDrawnBy program target.old target.new result }
{
    let (counts, program) = run_with_crew(crew.rt, &crew.drawing, target, program, crew.gate);
    (counts, program.into_compiled())
}
