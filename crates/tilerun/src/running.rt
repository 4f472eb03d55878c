//! The tiles of a target go to a board, and come back.

ghost use Rattle.std.specs.Prelude.{◌≡◌, ◌<◌, ◌≤◌, ℕ, length, IfOk, IfErr, OnOk, OnErr};
ghost use Rattle.std.specs.List.{Contains};
ghost use mathlib.Core.Option.{some};
ghost use lib.ListN.{get_elem?};
ghost use Rattle.gfxspec.specs.declared.error.GfxError.TheVariants.{OutOfMemory};
ghost use Rattle.gfxspec.specs.declared.pixel.Pixel.{Pixel};
ghost use Rattle.gfxspec.specs.Tiles.{tile_rect};
ghost use Rattle.tileblock.specs.Surface.{IsWhole, pixel_of};
ghost use Rattle.board.specs.declared.view.Hand.TheVariants.{Empty};
ghost use Rattle.board.specs.Known.{IsSeatOf, IsReady};
ghost use Rattle.board.specs.Views.{handed};
ghost use Rattle.tilerun.specs.Touched.{AreTiles, ShowsBlocks};
ghost use Rattle.tilerun.specs.Drawn.{IsDrawn, AreCounts};
ghost use Rattle.tilerun.specs.Moving.{AreOut, AreBack, IsOut, MayComeBack, HaveRun, Opens};

use crate::block_job::BlockJob;
use arrayvec::ArrayVec;
use board::{Board, Finished, Seat};
use gfxspec::GfxError;
use std::alloc::Allocator;
use std::sync::Wait;
use std::thread::Threads;
use tileblock::{OpenTile, Target, TileBlock};
use workers::{Crew, Gate, drain_alone, run_all, run_by_crew};

// Takes the job's tiles out of the target, and places them.
fn place_all<'a, A: Allocator, J: BlockJob<Block = TileBlock<A>>>(
    board: &Board<'a, J, A>,
    seat: &mut Seat<J>,
    target: &mut Target<A>,
    job: &J,
)
    requires shown { ShowsBlocks J.shown }
    requires own { IsSeatOf board.now seat.old × (job.now ≡ board.now.job) }
    requires first { (seat.old.view.weight ≡ 16) × (seat.old.view.hand ≡ Empty) × (length seat.old.view.placed ≡ 0) }
    requires whole { IsWhole target.old × (J.target_size job.now ≡ target.old.size) }
    ensures own { IsSeatOf board.now seat.new }
    ensures ready { IsReady J.tile_count board.now seat.new × (seat.new.view.weight ≡ 16) }
    ensures out { AreOut J.tile_number J.open_block (J.touched job.now) target.old target.new seat.new.view.placed }
    ensures tiles { AreTiles (J.target_size job.now) (J.touched job.now) }
{
    for (place, tile) in job.touched().iter().enumerate() {
        let OpenTile { number, block } = target.take(*tile);
        board.place(seat, job.open(place as u32, number, block));
    }
}

// Puts the results back where their tiles were.
fn put_back<'a, A: Allocator, J: BlockJob<Block = TileBlock<A>>>(
    finished: &mut Finished<'a, J, A>,
    target: &mut Target<A>,
    job: &J,
)
    requires shown { ShowsBlocks J.shown }
    requires fresh { (finished.old.next ≡ 0) × (length finished.old.results ≡ length (J.touched job.now)) }
    requires out { (t : ℕ) → Contains (J.touched job.now) t → IsOut target.old t }
    requires rects { (p : ℕ) (d : J.Done) (t : ℕ) → get_elem? finished.old.results p ≡ some d
        → get_elem? (J.touched job.now) p ≡ some t → (J.done_block d).rect ≡ tile_rect target.old.size t }
    ensures counts { finished.new.counts ≡ finished.old.counts }
    ensures back { AreBack J.done_block (J.touched job.now) target.old target.new finished.old.results }
{
    for tile in job.touched() {
        let Some(done) = finished.next_tile() else {
            unreachable!()
        };
        target.put(*tile, J::into_block(done));
    }
}

// The counts of all issues.
fn counts_of<'a, A: Allocator, J: BlockJob<Block = TileBlock<A>>>(
    finished: &Finished<'a, J, A>,
    issues: u32,
) -> ArrayVec<u64, 64>
    requires { (length finished.now.counts ≡ issues) × (issues ≤ 64) }
    ensures { result.items ≡ finished.now.counts }
{
    let mut counts = ArrayVec::new();
    for issue in 0..issues {
        counts.push(finished.count(issue));
    }
    counts
}

// Closes the board, puts the results back, and gives the counts.
fn finish<'a, A: Allocator, J: BlockJob<Block = TileBlock<A>>>(
    board: Board<'a, J, A>,
    seat: Seat<J>,
    target: &mut Target<A>,
    job: &J,
) -> ArrayVec<u64, 64>
    requires shown { ShowsBlocks J.shown }
    requires own { IsSeatOf board seat × (job.now ≡ board.job) }
    requires all { handed seat.view ≡ J.tile_count job.now }
    requires placed { MayComeBack J.tile_number J.open_block (J.touched job.now) target.old seat.view.placed }
    ensures run { HaveRun J.open_block (J.drawn job.now) (J.touched job.now) target.old target.new seat.view.placed }
    ensures counts { (opening : ℕ → ℕ → Pixel) → Opens J.open_block seat.view.placed opening
        → AreCounts (J.counted job.now) (J.issue_count job.now) (J.touched job.now) opening result.items }
{
    let Ok(mut finished) = board.close(seat) else {
        unreachable!()
    };
    put_back(&mut finished, target, job);
    counts_of(&finished, job.issues())
}

/// A board on which all tiles of a job stand, claimed by number or in order, and its seat. Refused with OutOfMemory, and then no
/// tile was taken.
fn begin<'a, A: Allocator, J: BlockJob<Block = TileBlock<A>>>(
    alloc: &'a A,
    named: bool,
    target: &mut Target<A>,
    job: &J,
) -> Result<(Board<'a, J, A>, Seat<J>), GfxError>
    requires shown { ShowsBlocks J.shown }
    requires target { IsWhole target.old × (J.target_size job.now ≡ target.old.size) }
    ensures own { IfOk result (λ r. IsSeatOf r.0 r.1 × (job.now ≡ r.0.job) × (r.0.named ≡ named)) }
    ensures ready { IfOk result (λ r. IsReady J.tile_count r.0 r.1 × (r.1.view.weight ≡ 16)) }
    ensures out { IfOk result (λ r. AreOut J.tile_number J.open_block (J.touched job.now) target.old target.new r.1.view.placed) }
    ensures tiles { IfOk result (λ r. AreTiles (J.target_size job.now) (J.touched job.now)) }
    ensures same { OnErr result (target.new ≡ target.old) }
    ensures memory { IfErr result (λ e. e ≡ OutOfMemory) }
{
    let (board, mut seat) = if named {
        Board::new_named(alloc, job)?
    } else {
        Board::new(alloc, job)?
    };
    place_all(&board, &mut seat, target, job);
    Ok((board, seat))
}

/// Runs a job over its tiles of a target, in the order of their places, on the caller's thread, and gives the count of each
/// issue. It waits for nobody. Refused with OutOfMemory, before any tile is taken. The job comes back as it was.
pub fn run_alone<A: Allocator, J: BlockJob<Block = TileBlock<A>>>(
    alloc: &A,
    target: &mut Target<A>,
    job: J,
) -> (Result<ArrayVec<u64, 64>, GfxError>, J)
    requires shown { ShowsBlocks J.shown }
    requires target { IsWhole target.old × (J.target_size job ≡ target.old.size) }
    ensures drawn { OnOk result.0 (IsDrawn (J.drawn job) (J.touched job) target.old target.new) }
    ensures counts { IfOk result.0 (λ counts. AreCounts (J.counted job) (J.issue_count job) (J.touched job) (pixel_of target.old) counts.items) }
    ensures same { OnErr result.0 (target.new ≡ target.old) }
    ensures memory { IfErr result.0 (λ e. e ≡ OutOfMemory) }
    ensures job { result.1 ≡ job }
{
    match begin(alloc, false, target, &job) {
        Ok((board, seat)) => {
            let seat = drain_alone(&board, seat, &job);
            let counts = finish(board, seat, target, &job);
            (Ok(counts), job)
        }
        Err(refusal) => (Err(refusal), job),
    }
}

/// `run_alone` with as many threads beside the caller, which start for it.
pub fn run_in_threads<
    A: Allocator + Sync,
    J: BlockJob<Block = TileBlock<A>> + Sync,
    G: Gate + Sync,
    R: Threads + Sync,
>(
    rt: &R,
    alloc: &A,
    target: &mut Target<A>,
    job: J,
    workers: u32,
    gate: &G,
) -> (Result<ArrayVec<u64, 64>, GfxError>, J)
    requires shown { ShowsBlocks J.shown }
    requires target { IsWhole target.old × (J.target_size job ≡ target.old.size) }
    requires workers { workers ≤ 15 }
    ensures drawn { OnOk result.0 (IsDrawn (J.drawn job) (J.touched job) target.old target.new) }
    ensures counts { IfOk result.0 (λ counts. AreCounts (J.counted job) (J.issue_count job) (J.touched job) (pixel_of target.old) counts.items) }
    ensures same { OnErr result.0 (target.new ≡ target.old) }
    ensures memory { IfErr result.0 (λ e. e ≡ OutOfMemory) }
    ensures job { result.1 ≡ job }
{
    match begin(alloc, true, target, &job) {
        Ok((board, seat)) => {
            let seat = run_all(rt, &board, seat, &job, workers, gate);
            let counts = finish(board, seat, target, &job);
            (Ok(counts), job)
        }
        Err(refusal) => (Err(refusal), job),
    }
}

/// `run_alone` by the threads of a crew beside the caller. It may wait for one that has a tile in its hands.
pub fn run_with_crew<'a, A: Allocator, J: BlockJob<Block = TileBlock<A>> + Drop, G: Gate, R: Wait>(
    rt: &R,
    crew: &Crew<'a, J, A>,
    target: &mut Target<A>,
    job: J,
    gate: &G,
) -> (Result<ArrayVec<u64, 64>, GfxError>, J)
    requires shown { ShowsBlocks J.shown }
    requires target { IsWhole target.old × (J.target_size job ≡ target.old.size) }
    ensures drawn { OnOk result.0 (IsDrawn (J.drawn job) (J.touched job) target.old target.new) }
    ensures counts { IfOk result.0 (λ counts. AreCounts (J.counted job) (J.issue_count job) (J.touched job) (pixel_of target.old) counts.items) }
    ensures same { OnErr result.0 (target.new ≡ target.old) }
    ensures memory { IfErr result.0 (λ e. e ≡ OutOfMemory) }
    ensures job { result.1 ≡ job }
{
    match begin(crew.allocator(), false, target, &job) {
        Ok((board, seat)) => {
            let (board, seat, job) = run_by_crew(rt, crew, board, seat, job, gate);
            let counts = finish(board, seat, target, &job);
            (Ok(counts), job)
        }
        Err(refusal) => (Err(refusal), job),
    }
}
