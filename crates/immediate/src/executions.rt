//! Executions that wait to run as one, and the pending commands among them.

ghost use Rattle.std.specs.Prelude.{true, false, ◌≡◌, [], map, IfSome};
ghost use Rattle.gfxspec.specs.Recorded.{items, issues};
ghost use Rattle.gfxspec.specs.Accepted.{AreAccepted};
ghost use Rattle.immediate.specs.Held.{Executed, held_behind};
ghost use Rattle.immediate.specs.Outputs.{Outputs, performed_over, cut_over};
ghost use Rattle.immediate.specs.Batched.{executed_items};

use crate::room::Room;
use binner::{Segment, cut};
use cmdlist::{Commands, DeferredContext};
use gfxspec::Size;
use segmentrun::SegmentJob;
use std::alloc::Allocator;
use std::marker::Model;
use std::mem::replace;
use std::ops::Range;

/// Lists that wait to run as one, in their order, cut into segments. None of them begins a query.
#[derive(Drop)]
pub(crate) struct Executions<A: Allocator> {
    pub(crate) segments: Vec<Segment<A>, A>,
    pub(crate) taken: Room,
}

impl<A: Allocator> Model for Executions<A> {
    ghost use Rattle.std.specs.Prelude.{List};
    ghost use Rattle.gfxspec.specs.Commands.{Command};

    ghost Value = { List (List Command) };

    ghost view = { λ e. e.segments.items };
}

impl<A: Allocator> Executions<A> {
    ghost use Rattle.std.specs.Prelude.{true, false, ◌≡◌, ◌≤◌, ◌++◌, [], length, drop, IsTrue};
    ghost use Rattle.gfxspec.specs.Recorded.{issues};

    /// No list.
    pub(crate) fn none(alloc: A) -> Self
        ensures { result ≡ [] }
    {
        Executions {
            segments: Vec::new(alloc),
            taken: Room::none(),
        }
    }

    /// Whether there is no segment.
    pub(crate) fn are_none(&self) -> bool
        ensures { IsTrue result → self.now ≡ [] }
    {
        self.segments.is_empty()
    }

    /// How many segments there are.
    pub(crate) fn count(&self) -> usize
        ensures { result ≡ length self.now }
    {
        self.segments.len()
    }

    /// Forgets so many from the first on.
    pub(crate) fn forget(&mut self, count: usize)
        requires { count ≤ length self.old }
        ensures { self.new ≡ drop count self.old }
    {
        self.segments.drain(..count);
        if self.segments.is_empty() {
            self.taken = Room::none();
        }
    }

    /// Puts others behind these. It says whether there was room, and memory for it; if not, nothing is changed.
    fn join(&mut self, others: Executions<A>) -> bool
        ensures joined { result ≡ true → self.new ≡ self.old ++ others }
        ensures same { result ≡ false → self.new ≡ self.old }
    {
        let Executions {
            mut segments,
            taken,
        } = others;
        let all = self.taken.and(taken);
        if !all.is_there() || self.segments.append(&mut segments).is_err() {
            return false;
        }
        self.taken = all;
        true
    }
}

impl<A: Allocator + Copy> Executions<A> {
    ghost use Rattle.std.specs.Prelude.{◌≡◌, ◌≤◌, [], ◌++◌, map, IsTrue, IfSome};
    ghost use Rattle.gfxspec.specs.Limits.{is_size};
    ghost use Rattle.segmentrun.specs.Running.{running};
    ghost use Rattle.immediate.specs.Batched.{part};
    ghost use Rattle.gfxspec.specs.Recorded.{items, issues};
    ghost use Rattle.immediate.specs.Outputs.{Outputs, performed_over, cut_over};

    /// The job of compiling the segments of some places, under these results of the queries: where all draw much, in a window for each
    /// who works. The segments go with it.
    pub(crate) fn job(
        &mut self,
        alloc: A,
        places: Range<usize>,
        size: Size,
        results: &[bool; 64],
        workers: u32,
    ) -> SegmentJob<A>
        requires size { IsTrue (is_size size) }
        requires workers { workers ≤ 15 }
        ensures size { result.size ≡ size }
        ensures results { result.results ≡ results.now }
        ensures segments { result.segments.items ≡ self.old }
        ensures running { running result ≡ part places.start places.end self.old }
    {
        let segments = replace(&mut self.segments, Vec::new(alloc));
        let workers = if self.taken.is_large() { workers } else { 0 };
        SegmentJob::new(alloc, segments, places, size, results, workers)
    }

    /// The segments of a job come back.
    pub(crate) fn take_back(&mut self, job: SegmentJob<A>)
        ensures { self.new ≡ job.segments.items }
    {
        self.segments = job.into_segments();
    }

    /// Adds commands, which so many workers beside the caller are to run. Where they begin a query, and without memory, all are given up.
    pub(crate) fn with(self, alloc: A, commands: &Commands<'_, A>, workers: u32) -> Option<Self>
        ensures unissued { IfSome result (λ e. issues commands.now ≡ []) }
        ensures means { IfSome result (λ e. (output : Outputs) → cut_over output e ≡ cut_over output self ++ items (performed_over output commands.now)) }
    {
        if commands.begin_queries() {
            return None;
        }
        let room = Room::of(commands);
        let triangles = room.triangles_each(workers);
        let mut segments = self.segments;
        let Ok(()) = cut(alloc, commands.as_slice(), triangles, &mut segments) else {
            return None;
        };
        Some(Executions {
            segments,
            taken: self.taken.and(room),
        })
    }
}

/// The pending commands of a context as segments: the kept state alone is none. So many workers beside the caller are to run them.
/// Where they begin a query, and without memory, there are none.
fn pending_segments<A: Allocator + Copy>(
    alloc: A,
    pending: &DeferredContext<A>,
    workers: u32,
) -> Option<Executions<A>>
    ensures unissued { IfSome result (λ e. issues pending.now ≡ []) }
    ensures means { IfSome result (λ e. (output : Outputs) → cut_over output e ≡ items (performed_over output pending.now)) }
{
    let none = Executions::none(alloc);
    if pending.is_kept_state_alone() {
        return Some(none);
    }
    none.with(alloc, &pending.recorded(), workers)
}

/// The segments of the pending commands, and of a list behind them: a list of nothing is none.
fn segments_behind<A: Allocator + Copy>(
    alloc: A,
    pending: &DeferredContext<A>,
    list: &Commands<'_, A>,
    workers: u32,
) -> Option<Executions<A>>
    ensures accepted { IfSome result (λ e. AreAccepted list.now) }
    ensures unissued { IfSome result (λ e. (issues pending.now ≡ []) × (issues list.now ≡ [])) }
    ensures means { IfSome result (λ e. (output : Outputs) → cut_over output e ≡ executed_items output pending.now list.now) }
{
    let before = pending_segments(alloc, pending, workers)?;
    if list.as_slice().is_empty() {
        return Some(before);
    }
    before.with(alloc, list, workers)
}

/// Puts the pending commands and then a list behind what waits. With `restore` the pending list begins anew with the kept state, and
/// without it with the default state; so many workers beside the caller are to run all. It says whether they wait: where they or the
/// list begin a query, have no room, or without memory, nothing is changed.
pub(crate) fn wait<A: Allocator + Copy>(
    waiting: &mut Executions<A>,
    pending: &mut DeferredContext<A>,
    list: &Commands<'_, A>,
    restore: bool,
    workers: u32,
) -> bool
    ensures waits { result ≡ true → (output : Outputs) → Executed list.now restore (held_behind output waiting.old pending.old) (held_behind output waiting.new pending.new) }
    ensures same { result ≡ false → (waiting.new ≡ waiting.old) × (pending.new ≡ pending.old) }
{
    let alloc = *waiting.segments.allocator();
    let Some(more) = segments_behind(alloc, pending, list, workers) else {
        return false;
    };
    let Ok(next) = pending.next(restore) else {
        return false;
    };
    if !waiting.join(more) {
        return false;
    }
    *pending = next;
    true
}
