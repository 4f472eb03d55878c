//! The history of a pixel on the immediate context: which items touched it, what each found and left there, and which tests
//! it passed.
//!
//! The context stores no past command. So the history under the pending commands is known at once, from what is stored; that
//! of a whole session is gathered by a trace that goes past each list before it runs. What waits was gone past when it was
//! executed, and may run at any time.

ghost use Rattle.std.specs.Prelude.{true, if◌then◌else◌, ◌≡◌, ◌<◌, ◌++◌, ◌∷◌, [], List, IfOk, IfErr, OnOk};
ghost use Rattle.gfxspec.specs.Limits.{side_bound};
ghost use Rattle.gfxspec.specs.Recorded.{queries_open};
ghost use Rattle.gfxspec.specs.Refusals.{AnswersBy, flush_rows, pixel_rows, pixel_rows_by, worker_rows};
ghost use Rattle.gfxspec.specs.Session.{Step, Executes, Flushes};
ghost use Rattle.meaning.specs.Standing.{Stands};
ghost use Rattle.pixelhistory.specs.Standing.{Traces, TracesAll};
ghost use Rattle.pixelhistory.specs.declared.session.StepsOf.TheVariants as steps_of;
ghost use Rattle.pixelhistory.specs.Passing.{PassesList};
ghost use Rattle.immediate.specs.Held.{context_of, result_told, Runs, Enqueues, IsRefused, IsExamined};
ghost use Rattle.immediate.specs.Histories.{Asks, IsHistory, IsPassed, placed_event};

use crate::context::ImmediateContext;
use cmdlist::CommandList;
use gfxspec::GfxError;
use pixelevents::{Event, NamedEvent, Origin};
use pixelhistory::{SessionTrace, StepsOf, Trace, trace_finished, trace_recorded};
use std::alloc::{AllocError, Allocator};

/// How many steps an execution is for which no kept state is pending behind it.
fn steps_unkept(restore: bool) -> usize
    ensures { result ≡ (if restore then 0 else 1) }
{
    if restore { 0 } else { 1 }
}

impl<A: Allocator + Copy> ImmediateContext<A> {
    /// Whether a pixel may be asked for. Refused with PixelRange, QueryOpen.
    fn examine_traced(&self, x: u32, y: u32) -> Result<(), GfxError>
        ensures rows { IsExamined (pixel_rows_by (worker_rows 0) self.now.surface.size (queries_open self.now.pending) x y) result }
        ensures inside { OnOk result ((x < self.now.surface.size.width) × (y < self.now.surface.size.height)) }
        ensures small { OnOk result ((x < side_bound) × (y < side_bound)) }
    {
        self.examine_pixel(x, y, 0)?;
        let _size = self.output.target().size();
        Ok(())
    }

    /// Goes past the pending commands with the trace of a pixel. It runs none.
    fn trace_pending(
        &self,
        trace: &mut SessionTrace<A>,
        steps: StepsOf,
        x: u32,
        y: u32,
    ) -> Result<(), AllocError>
        requires x { x < side_bound }
        requires y { y < side_bound }
        ensures { OnOk result (PassesList (result_told self.now) self.now.pending steps x y trace.old trace.new) }
    {
        let told = self.output.told();
        trace_recorded(trace, &self.pending, &told, steps, x, y)
    }

    /// Goes past a list with the trace of a pixel, where it is to be executed with nothing pending that draws. It runs none.
    fn trace_list(
        &self,
        trace: &mut SessionTrace<A>,
        list: &CommandList<A>,
        x: u32,
        y: u32,
    ) -> Result<(), AllocError>
        requires x { x < side_bound }
        requires y { y < side_bound }
        ensures { OnOk result (PassesList (result_told self.now) list.now steps_of.List x y trace.old trace.new) }
    {
        let told = self.output.told();
        trace_finished(trace, list, &told, x, y)
    }

    /// The history of a pixel under the pending commands, from what the target has there, each event with its place among
    /// these. It runs none.
    fn stored_history(&self, x: u32, y: u32) -> Result<Vec<NamedEvent, A>, AllocError>
        requires inside { (x < self.now.surface.size.width) × (y < self.now.surface.size.height) }
        requires small { (x < side_bound) × (y < side_bound) }
        requires settled { self.now.waiting ≡ [] }
        ensures { IfOk result (λ events. IsHistory self.now x y events.items) }
    {
        let mut trace = SessionTrace {
            trace: Trace {
                pixel: self.stored_pixel(x, y),
                items: 0,
                events: Vec::new(self.alloc),
            },
            origins: Vec::new(self.alloc),
            step: 0,
        };
        self.trace_pending(&mut trace, StepsOf::List, x, y)?;
        trace.named_by(
            self.alloc,
            &|event: Event, origin: Origin| -> NamedEvent
                ensures { result ≡ placed_event event origin }
            {
                NamedEvent {
                    event,
                    line: 0,
                    place: origin.place,
                }
            },
        )
    }

    /// Goes past the pending commands with the trace of a pixel, as far as a flush would. It runs none. Refused with QueryOpen,
    /// OutOfMemory.
    fn go_past(&self, trace: &mut SessionTrace<A>, x: u32, y: u32) -> Result<(), GfxError>
        requires x { x < self.now.surface.size.width }
        requires y { y < self.now.surface.size.height }
        ensures traced { (steps : List Step) → Stands self.now.surface.size steps (context_of self.now) → Traces self.now.surface.size steps x y trace.old
            → OnOk result (Traces self.now.surface.size (steps ++ Flushes ∷ []) x y trace.new) }
        ensures small { OnOk result ((x < side_bound) × (y < side_bound)) }
        ensures answer { AnswersBy (flush_rows (queries_open self.now.pending)) result }
    {
        self.examine_run(0)?;
        self.examine_traced(x, y)?;
        self.trace_pending(trace, StepsOf::Each, x, y)?;
        trace.go_on(self.pending.commands().len())?;
        Ok(())
    }

    /// Goes past the pending commands with the trace of a pixel of the target that went along with the runs of a session: it has the
    /// history of all its steps then. It runs nothing. Refused with QueryOpen, OutOfMemory.
    pub fn end_trace(&self, trace: &mut SessionTrace<A>, x: u32, y: u32) -> Result<(), GfxError>
        requires x { x < self.now.surface.size.width }
        requires y { y < self.now.surface.size.height }
        ensures answer { AnswersBy (flush_rows (queries_open self.now.pending)) result }
        ensures whole { (steps : List Step) → Stands self.now.surface.size steps (context_of self.now) → Traces self.now.surface.size steps x y trace.old
            → OnOk result (TracesAll self.now.surface.size steps x y trace.new) }
    {
        self.examine_run(0)?;
        self.examine_traced(x, y)?;
        Ok(self.trace_pending(trace, StepsOf::Each, x, y)?)
    }
}

impl<A: Allocator + Copy + Send> ImmediateContext<A> {
    /// The history of a pixel under the pending commands, from what it holds before them, each event with its place among
    /// these. It runs what waits, where something does, and not the pending commands. Refused with PixelRange, QueryOpen,
    /// OutOfMemory.
    pub fn history_alone(&mut self, x: u32, y: u32) -> Result<Vec<NamedEvent, A>, GfxError>
        ensures asks { Asks (pixel_rows self.old.surface.size (queries_open self.old.pending) x y) self.old self.new result }
        ensures settled { OnOk result (self.new.waiting ≡ []) }
        ensures value { IfOk result (λ events. IsHistory self.old x y events.items) }
    {
        self.examine_traced(x, y)?;
        self.settle_alone()?;
        Ok(self.stored_history(x, y)?)
    }

    /// `flush_alone` with the trace of a pixel of the target, which goes past what is pending. Where it is refused for want of
    /// memory, the trace is of no further use. Refused with QueryOpen, OutOfMemory.
    pub fn flush_traced(
        &mut self,
        trace: &mut SessionTrace<A>,
        x: u32,
        y: u32,
    ) -> Result<(), GfxError>
        requires x { x < self.old.surface.size.width }
        requires y { y < self.old.surface.size.height }
        ensures traced { (steps : List Step) → Stands self.old.surface.size steps (context_of self.old) → Traces self.old.surface.size steps x y trace.old
            → OnOk result (Traces self.old.surface.size (steps ++ Flushes ∷ []) x y trace.new) }
        ensures small { OnOk result ((x < side_bound) × (y < side_bound)) }
        ensures runs { Runs (flush_rows (queries_open self.old.pending)) [] true self.old self.new result }
    {
        self.go_past(trace, x, y)?;
        self.flush_alone()
    }

    /// Goes past the pending commands with the trace of a pixel, and runs them where they begin a query, of which the count may be wanted
    /// next. Refused with QueryOpen, OutOfMemory.
    fn pass_pending(&mut self, trace: &mut SessionTrace<A>, x: u32, y: u32) -> Result<(), GfxError>
        requires x { x < self.old.surface.size.width }
        requires y { y < self.old.surface.size.height }
        ensures traced { (steps : List Step) → Stands self.old.surface.size steps (context_of self.old) → Traces self.old.surface.size steps x y trace.old
            → OnOk result (Traces self.old.surface.size (steps ++ Flushes ∷ []) x y trace.new) }
        ensures small { OnOk result ((x < side_bound) × (y < side_bound)) }
        ensures passed { OnOk result (IsPassed self.old self.new) }
        ensures answer { AnswersBy (flush_rows (queries_open self.old.pending)) result }
        ensures err { IfErr result (λ e. IsRefused e self.old self.new) }
    {
        if self.pending.recorded().begin_queries() {
            return self.flush_traced(trace, x, y);
        }
        self.go_past(trace, x, y)
    }

    /// Goes past the pending commands with the trace of a pixel of the target, and has them wait: they run only where they begin a query, or
    /// have no room. Where it is refused for want of memory, the trace is of no further use. Refused with QueryOpen, OutOfMemory.
    pub fn wait_traced(
        &mut self,
        trace: &mut SessionTrace<A>,
        x: u32,
        y: u32,
    ) -> Result<(), GfxError>
        requires x { x < self.old.surface.size.width }
        requires y { y < self.old.surface.size.height }
        ensures traced { (steps : List Step) → Stands self.old.surface.size steps (context_of self.old) → Traces self.old.surface.size steps x y trace.old
            → OnOk result (Traces self.old.surface.size (steps ++ Flushes ∷ []) x y trace.new) }
        ensures enqueues { Enqueues (flush_rows (queries_open self.old.pending)) [] true self.old self.new result }
    {
        self.pass_pending(trace, x, y)?;
        self.enqueue_pending_alone()
    }

    /// `enqueue_execution_alone` with the trace of a pixel of the target, which goes past what is pending and then past the list. Where it
    /// is refused for want of memory, the trace is of no further use. Refused with QueryOpen, OutOfMemory.
    pub fn execute_traced(
        &mut self,
        list: &CommandList<A>,
        restore: bool,
        trace: &mut SessionTrace<A>,
        x: u32,
        y: u32,
    ) -> Result<(), GfxError>
        requires x { x < self.old.surface.size.width }
        requires y { y < self.old.surface.size.height }
        ensures traced { (steps : List Step) → Stands self.old.surface.size steps (context_of self.old) → Traces self.old.surface.size steps x y trace.old
            → OnOk result (Traces self.old.surface.size (steps ++ Executes list.now restore ∷ []) x y trace.new) }
        ensures enqueues { Enqueues (flush_rows (queries_open self.old.pending)) list.now restore self.old self.new result }
    {
        let _commands = list.commands();
        self.pass_pending(trace, x, y)?;
        self.trace_list(trace, list, x, y)?;
        trace.go_on(steps_unkept(restore))?;
        self.enqueue_execution_alone(list, restore)
    }
}
