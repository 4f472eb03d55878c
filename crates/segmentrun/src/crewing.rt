//! Segments, compiled by the caller or by a crew.

ghost use Rattle.std.specs.Prelude.{◌≡◌, ◌≤◌, ◌+◌, ◌∷◌, ℕ, List, length, IfSome, IfOk, IfErr, Some, false};
ghost use mathlib.Core.Option.{some};
ghost use lib.ListN.{get_elem?};
ghost use Rattle.gfxspec.specs.declared.geometry.Size.{Size};
ghost use Rattle.gfxspec.specs.declared.error.GfxError.TheVariants.{OutOfMemory};
ghost use Rattle.gfxspec.specs.Items.{Item};
ghost use Rattle.gfxspec.specs.Tiles.{tile_count};
ghost use Rattle.binmem.specs.Lists.{no_words};
ghost use Rattle.board.specs.declared.view.Hand.TheVariants.{Empty};
ghost use Rattle.board.specs.Known.{IsSeatOf, AreNew};
ghost use Rattle.cmdlist.specs.Drawable.{told};
ghost use Rattle.binner.specs.Segments.{cut_items, AreCompiled};
ghost use Rattle.segmentrun.specs.declared.job.SegmentJob.{SegmentJob};
ghost use Rattle.segmentrun.specs.declared.job.OpenWindow.{OpenWindow};
ghost use Rattle.segmentrun.specs.declared.job.DoneWindow.{DoneWindow};
ghost use Rattle.segmentrun.specs.Running.{running};
ghost use Rattle.segmentrun.specs.Windows.{joined};
ghost use Rattle.segmentrun.specs.Collected.{AreOfWindows};

use crate::compiling::compile_window;
use crate::job::{OpenWindow, SegmentJob};
use binmem::Bins;
use binner::Compiled;
use board::{Board, Finished, Seat};
use gfxspec::GfxError;
use std::alloc::Allocator;
use std::sync::Wait;
use tilecore::TileJob;
use workers::{Crew, Gate, run_by_crew};

/// A crew that compiles segments.
pub type SegmentCrew<'a, A> = Crew<'a, SegmentJob<A>, A>;

/// A compiled list, and those behind it.
pub type Lists<A> = (Compiled<A>, Vec<Compiled<A>, A>);

/// Places the windows of a job on its board.
fn place_all<'a, A: Allocator + Copy + Send>(
    board: &Board<'a, SegmentJob<A>, A>,
    seat: &mut Seat<SegmentJob<A>>,
    windows: u32,
)
    requires own { IsSeatOf board.now seat.old × (board.now.job.windows ≡ windows) }
    requires first { (seat.old.view.weight ≡ 16) × (seat.old.view.hand ≡ Empty) × (length seat.old.view.placed ≡ 0) }
    ensures own { IsSeatOf board.now seat.new }
    ensures ready { (length seat.new.view.placed ≡ windows) × (seat.new.view.hand ≡ Empty) × (seat.new.view.weight ≡ 16) }
    ensures placed { (p : ℕ) (window : OpenWindow) → get_elem? seat.new.view.placed p ≡ some window → window.number ≡ p }
{
    for number in 0..windows {
        board.place(seat, OpenWindow::new(number));
    }
}

/// The list of the next window. Refused where there was no memory for it.
fn next_list<'a, A: Allocator + Copy + Send>(
    finished: &mut Finished<'a, SegmentJob<A>, A>,
) -> Result<Compiled<A>, GfxError>
    ensures list { IfOk result (λ list. (done : DoneWindow A) × (get_elem? finished.old.results finished.old.next ≡ some done) × (done.compiled ≡ Some list)) }
    ensures next { IfOk result (λ list. (finished.new.next ≡ finished.old.next + 1) × (finished.new.results ≡ finished.old.results)) }
    ensures memory { IfErr result (λ e. e ≡ OutOfMemory) }
{
    match finished.next_tile() {
        Some(done) => done.into_list(),
        None => Err(GfxError::OutOfMemory),
    }
}

/// The lists of all windows, in their order. Refused where there was no memory for one of them.
fn take_lists<'a, A: Allocator + Copy + Send>(
    alloc: A,
    finished: &mut Finished<'a, SegmentJob<A>, A>,
    windows: u32,
) -> Result<Lists<A>, GfxError>
    requires first { (finished.old.next ≡ 0) × (1 ≤ windows) }
    ensures lists { (size : Size) (meant : ℕ → List Item) → AreOfWindows size meant finished.old.results
        → IfOk result (λ lists. AreCompiled size (joined meant windows) (lists.0 ∷ lists.1.items)) }
    ensures memory { IfErr result (λ e. e ≡ OutOfMemory) }
{
    let first = next_list(finished)?;
    let mut behind = Vec::new(alloc);
    for _ in 1..windows {
        behind.push(next_list(finished)?)?;
    }
    Ok((first, behind))
}

/// Runs a job by a crew, over a new board and its seat. The job comes back.
fn run_windows<'a, A: Allocator + Copy + Send, G: Gate, R: Wait>(
    rt: &R,
    crew: &SegmentCrew<'a, A>,
    board: Board<'a, SegmentJob<A>, A>,
    seat: Seat<SegmentJob<A>>,
    job: SegmentJob<A>,
    gate: &G,
) -> (Result<Lists<A>, GfxError>, SegmentJob<A>)
    requires new { AreNew (λ (j : SegmentJob A). j.windows) (λ (j : SegmentJob A). 0) job false board seat }
    requires some { 1 ≤ job.windows }
    ensures compiled { IfOk result.0 (λ lists. AreCompiled job.size (cut_items (told job.results) (running job)) (lists.0 ∷ lists.1.items)) }
    ensures memory { IfErr result.0 (λ e. e ≡ OutOfMemory) }
    ensures back { result.1 ≡ job }
{
    let mut seat = seat;
    let windows = job.tiles();
    place_all(&board, &mut seat, windows);
    let (board, seat, job) = run_by_crew(rt, crew, board, seat, job, gate);
    let Ok(mut finished) = board.close(seat) else {
        unreachable!()
    };
    let lists = take_lists(*crew.allocator(), &mut finished, windows);
    (lists, job)
}

/// The segments of a job as one list, compiled by the caller, with these empty bins or with new ones.
fn compile_here<A: Allocator + Copy>(
    job: &SegmentJob<A>,
    bins: Option<Bins<A>>,
) -> Result<Lists<A>, GfxError>
    requires { IfSome bins (λ bins. bins ≡ no_words (tile_count job.now.size)) }
    ensures compiled { IfOk result (λ lists. AreCompiled job.now.size (cut_items (told job.now.results) (running job.now)) (lists.0 ∷ lists.1.items)) }
    ensures memory { IfErr result (λ e. e ≡ OutOfMemory) }
{
    let compiled = compile_window(job.alloc, job.running(), job.size, &job.results, bins)?;
    Ok((compiled, Vec::new(job.alloc)))
}

/// Compiles the segments of a job on the caller's thread, as one list, with these empty bins or with new ones. Refused with OutOfMemory
/// alone: without memory, and where the list would name more than 65,536 states, triangles or clears. The job comes back as it was.
pub fn compile_alone<A: Allocator + Copy>(
    job: SegmentJob<A>,
    bins: Option<Bins<A>>,
) -> (Result<Lists<A>, GfxError>, SegmentJob<A>)
    requires { IfSome bins (λ bins. bins ≡ no_words (tile_count job.size)) }
    ensures compiled { IfOk result.0 (λ lists. AreCompiled job.size (cut_items (told job.results) (running job)) (lists.0 ∷ lists.1.items)) }
    ensures memory { IfErr result.0 (λ e. e ≡ OutOfMemory) }
    ensures back { result.1 ≡ job }
{
    let lists = compile_here(&job, bins);
    (lists, job)
}

/// `compile_alone` by the threads of a crew beside the caller, where the job has several windows: a list for each of them. It may wait
/// for a thread that has a window in its hands.
pub fn compile_by_crew<'a, A: Allocator + Copy + Send, G: Gate, R: Wait>(
    rt: &R,
    crew: &SegmentCrew<'a, A>,
    job: SegmentJob<A>,
    bins: Option<Bins<A>>,
    gate: &G,
) -> (Result<Lists<A>, GfxError>, SegmentJob<A>)
    requires { IfSome bins (λ bins. bins ≡ no_words (tile_count job.size)) }
    ensures compiled { IfOk result.0 (λ lists. AreCompiled job.size (cut_items (told job.results) (running job)) (lists.0 ∷ lists.1.items)) }
    ensures memory { IfErr result.0 (λ e. e ≡ OutOfMemory) }
    ensures back { result.1 ≡ job }
{
    if job.tiles() < 2 {
        return compile_alone(job, bins);
    }
    match Board::new(crew.allocator(), &job) {
        Ok((board, seat)) => run_windows(rt, crew, board, seat, job, gate),
        Err(refusal) => (Err(refusal), job),
    }
}
