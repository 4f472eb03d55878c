//! The calls of an immediate context with the trace of a pixel beside it.
//!
//! The trace goes past each list before it runs or waits, and at the end past what is pending. So it has the items of a whole
//! session, though the context stores none, and nothing runs but for counts that a question or a predicate may want, and where
//! what waits has no room: a question is examined, and its answer is nobody's.

ghost use Rattle.std.specs.Prelude.{◌≡◌, ◌<◌, ◌∷◌, [], ℕ, List, true, OnOk};
ghost use Rattle.gfxspec.specs.declared.geometry.Size.{Size};
ghost use Rattle.gfxspec.specs.Recorded.{queries_open};
ghost use Rattle.gfxspec.specs.Refusals.{AnswersBy, flush_rows};
ghost use Rattle.gfxspec.specs.Session.{Step, Executes, Flushes};
ghost use Rattle.meaning.specs.Standing.{Stands};
ghost use Rattle.pixelhistory.specs.Standing.{TracesAll};
ghost use Rattle.immediate.specs.Held.{context_of, Executed, Stays, Runs, Enqueues};
ghost use Rattle.sessions.specs.Taking.{verb_of, IsHere, RanBy, run_rows, HasRun, TracesOn, TracesRun};
ghost use Rattle.sessions.specs.Histories.{traces_beside};

use crate::run::{Question, RecordsCalls, Running, finished_list};
use crate::traced::TracedContext;
use answers::Answer;
use cmdlist::{Command, CommandList, DeviceContext};
use gfxspec::GfxError;
use immediate::ImmediateContext;
use pixelhistory::SessionTrace;
use recorders::ListSource;
use std::alloc::Allocator;

impl<A: Allocator + Copy + Send> RecordsCalls for TracedContext<A> {
    ghost use Rattle.std.specs.Prelude.{[], true, false};
    ghost use Rattle.immediate.specs.Held.{Executed};
    ghost use Rattle.sessions.specs.Histories.{held_by, traces_beside};

    type Alloc = A;

    ghost held = { held_by };

    ghost flushed = { Executed [] true };

    ghost heard = { false };

    ghost traces = { traces_beside };

    ghost flushed_runs = { λ old new executed. executed };

    fn record_command(&mut self, command: &Command<A>) -> Result<(), GfxError> {
        self.context.record(command)
    }

    fn hears(&self) -> bool {
        false
    }

    fn examine(&self, question: Question) -> Result<(), GfxError> {
        self.context.examine(question)
    }

    fn answer(&self, question: Question) -> Answer {
        self.context.answer(question)
    }
}

impl<A: Allocator + Copy + Send> TracedContext<A> {
    /// A context with the trace of a pixel of its new target.
    pub(crate) fn new(alloc: A, context: ImmediateContext<A>, x: u32, y: u32) -> Self
        requires inside { (x < context.surface.size.width) × (y < context.surface.size.height) }
        ensures held { result.context ≡ context }
        ensures traced { (size : Size) → traces_beside size [] x y result }
    {
        TracedContext {
            context,
            trace: SessionTrace::new(alloc),
            x,
            y,
        }
    }

    /// Runs what waits, which the trace went past.
    fn settle(&mut self) -> Result<(), GfxError>
        ensures ran { HasRun (Stays self.old.context self.new.context) [] result }
        ensures traced { OnOk result (TracesOn traces_beside self.old.context [] self.old self.new) }
    {
        self.context.settle_alone()
    }

    /// Runs the pending commands, behind the trace.
    fn flush(&mut self) -> Result<(), GfxError>
        ensures ran { Runs (flush_rows (queries_open self.old.context.pending)) [] true self.old.context self.new.context result }
        ensures traced { OnOk result (TracesOn traces_beside self.old.context (Flushes ∷ []) self.old self.new) }
    {
        self.context.flush_traced(&mut self.trace, self.x, self.y)
    }

    /// Has the pending commands wait, behind the trace.
    fn wait(&mut self) -> Result<(), GfxError>
        ensures ran { Enqueues (flush_rows (queries_open self.old.context.pending)) [] true self.old.context self.new.context result }
        ensures traced { OnOk result (TracesOn traces_beside self.old.context (Flushes ∷ []) self.old self.new) }
    {
        self.context.wait_traced(&mut self.trace, self.x, self.y)
    }

    /// Executes a list behind the pending commands, both of which the trace goes past and which may wait.
    fn execute(&mut self, list: &CommandList<A>, restore: bool) -> Result<(), GfxError>
        ensures ran { Enqueues (flush_rows (queries_open self.old.context.pending)) list.now restore self.old.context self.new.context result }
        ensures traced { OnOk result (TracesOn traces_beside self.old.context (Executes list.now restore ∷ []) self.old self.new) }
    {
        let place = (self.x, self.y);
        self.context
            .execute_traced(list, restore, &mut self.trace, place.0, place.1)
    }

    /// Goes past what is pending with the trace, which has all of the session then. It runs nothing.
    pub(crate) fn end(&mut self) -> Result<(), GfxError>
        ensures answer { AnswersBy (flush_rows (queries_open self.old.context.pending)) result }
        ensures traced { (steps : List Step) (x y : ℕ) → Stands self.old.context.surface.size steps (context_of self.old.context) → traces_beside self.old.context.surface.size steps x y self.old
            → OnOk result (TracesAll self.old.context.surface.size steps x y self.new.trace) }
    {
        self.context.end_trace(&mut self.trace, self.x, self.y)
    }

    /// Runs what is pending, or executes a list that is here, behind the trace.
    pub(crate) fn run<S: ListSource<CommandList<A>>>(
        &mut self,
        lists: &S,
        running: Running,
    ) -> Result<(), GfxError>
        requires here { IsHere (S.holds lists.now) (verb_of running) }
        ensures ran { HasRun (RanBy (Executed [] true) (S.agrees lists.now) (S.right lists.now) running self.old.context self.new.context) (run_rows running self.old.context) result }
        ensures traced { OnOk result (TracesRun traces_beside (S.agrees lists.now) (S.right lists.now) running self.old.context self.old self.new) }
    {
        match running {
            Running::Settle => self.settle(),
            Running::Flush => self.flush(),
            Running::FlushLine => self.wait(),
            Running::Execute(of, number, restore) => {
                self.execute(finished_list(lists, of, number), restore)
            }
        }
    }
}
