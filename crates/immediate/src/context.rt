//! The immediate context.

ghost use Rattle.std.specs.Prelude.{true, false, ◌≡◌, ◌<◌, ◌≤◌, ◌++◌, [], ℕ, List, map, IfSome, is_none, not, IfOk, IfErr, OnOk, OnErr, MatchOption, MatchResult, Some, None, Ok, Err, unwrap_or, if◌then◌else◌};
ghost use Rattle.std.specs.List.{list_any};
ghost use Rattle.gfxspec.specs.declared.TheConstants.{QUERY_LIMIT};
ghost use Rattle.gfxspec.specs.declared.error.GfxError.TheVariants.{OutOfMemory};
ghost use Rattle.gfxspec.specs.Recorded.{items, issues, queries_open, is_drawing, after_finish};
ghost use Rattle.gfxspec.specs.Refusals.{AnswersBy, flush_rows, pixel_rows, query_rows, flush_rows_by, pixel_rows_by, query_rows_by, worker_rows};
ghost use Rattle.tileblock.specs.Surface.{IsWhole, pixel_of, size_rows};
ghost use Rattle.meaning.specs.Standing.{IsNew};
ghost use Rattle.meaning.specs.Contexts.{result_at};
ghost use Rattle.immediate.specs.Next.{ExecutesNext};
ghost use Rattle.immediate.specs.Outputs.{Outputs};
ghost use Rattle.immediate.specs.declared.task.Task.TheVariants.{Settle};
ghost use Rattle.immediate.specs.Engines.{IsEngine, MayList, IsListed, MayCompile, AreMade, MayDraw, IsDrawnBy};
ghost use Rattle.immediate.specs.Tasks.{Performs};
ghost use Rattle.immediate.specs.Held.{context_of, shown, answered, Stays, Ran, Executed, MayHaveRun, Runs, Enqueues, IsExamined};
ghost use Rattle.command.specs.Seen.{command_value};

use crate::crew::RunCrew;
use crate::drawing::{Drawn, draw_alone, draw_by_crew, draw_in_threads};
use crate::engine::{Engine, EngineBy, EngineOf};
use crate::executions::{Executions, wait};
use crate::output::Output;
use crate::pending::{run_all, run_waiting};
use crate::task::Task;
use binmem::Bins;
use binner::{Compiled, compile, compile_parallel};
use cmdlist::{Command, CommandList, Commands, DeferredContext, DeviceContext};
use gfxspec::{GfxError, Pixel, QUERY_LIMIT, Size, Vertex, WORKER_LIMIT};
use port::{DrainPass, Ports, Submission};
use segmentrun::{Lists, SegmentJob, compile_alone, compile_by_crew};
use std::alloc::Allocator;
use std::marker::Model;
use std::sync::Wait;
use std::thread::Threads;
use tileblock::Target;
use tileprog::TileProgram;
use workers::Gate;

/// Begins the pending list anew behind an execution: with the kept state, which it holds already, or with nothing.
fn begin_anew<A: Allocator + Copy>(alloc: A, pending: &mut DeferredContext<A>, restore: bool)
    ensures { pending.new ≡ (if restore then pending.old else []) }
{
    if !restore {
        *pending = DeferredContext::new(alloc);
    }
}

/// The task of a flush: nothing is executed behind the pending commands, and the state stays.
const FLUSH: Task = Task::Execute { restore: true };

/// The answer for a submission whose list was executed: its port and number, or why the execution was refused, and then it
/// comes back.
fn executed<A: Allocator>(
    next: Submission<CommandList<A>>,
    ran: Result<(), GfxError>,
) -> Result<Option<(u32, u64)>, (GfxError, Option<Submission<CommandList<A>>>)>
    ensures { MatchResult ran (λ _. result ≡ Ok (Some (next.port, next.number))) (λ e. result ≡ Err (e, Some next)) }
{
    match ran {
        Ok(()) => Ok(Some((next.port, next.number))),
        Err(refusal) => Err((refusal, Some(next))),
    }
}

/// The context that executes and answers.
#[derive(Drop)]
pub struct ImmediateContext<A: Allocator> {
    pub(crate) alloc: A,
    pub(crate) output: Output<A>,
    pub(crate) waiting: Executions<A>,
    pub(crate) pending: DeferredContext<A>,
}

impl<A: Allocator> Model for ImmediateContext<A> {
    ghost use Rattle.immediate.specs.Held.{Held};

    ghost Value = { Held };

    ghost view = { λ c. record { surface = c.output.surface; results = c.output.results; waiting = c.waiting; pending = c.pending } };
}

impl<A: Allocator + Copy> ImmediateContext<A> {
    /// The stored pixels: what the pixels hold, where nothing waits and no draw or clear is pending.
    pub fn target(&self) -> &Target<A>
        ensures target { result.now ≡ self.now.surface }
        ensures whole { IsWhole result.now }
        ensures settled { (x y : ℕ) → self.now.waiting ≡ [] → list_any is_drawing self.now.pending ≡ false → pixel_of result.now x y ≡ shown self.now x y }
    {
        self.output.target()
    }

    /// The stored pixel of a place: what it holds, where nothing waits and no draw or clear is pending.
    pub fn stored_pixel(&self, x: u32, y: u32) -> Pixel
        requires inside { (x < self.now.surface.size.width) × (y < self.now.surface.size.height) }
        ensures { result ≡ pixel_of self.now.surface x y }
    {
        self.output.target().pixel(x, y)
    }

    /// The stored count of a query, 0 where it has none: the count of its last issue, where none is pending.
    pub fn counted(&self, query: u32) -> u64
        ensures { result ≡ unwrap_or (result_at self.now.results query) 0 }
    {
        match self.output.result(query) {
            Some(count) => count,
            None => 0,
        }
    }

    /// Whether the pending commands may run with as many threads. Refused with QueryOpen, WorkerCount.
    pub(crate) fn examine_run(&self, workers: u32) -> Result<(), GfxError>
        ensures rows { IsExamined (flush_rows_by (worker_rows workers) (queries_open self.now.pending)) result }
        ensures few { OnOk result (workers ≤ 15) }
    {
        if self.pending.has_open_queries() {
            return Err(GfxError::QueryOpen);
        }
        if workers > WORKER_LIMIT {
            return Err(GfxError::WorkerCount);
        }
        Ok(())
    }

    /// Whether a pixel may be asked for, with as many threads. Refused with PixelRange, QueryOpen, WorkerCount.
    pub fn examine_pixel(&self, x: u32, y: u32, workers: u32) -> Result<(), GfxError>
        ensures rows { IsExamined (pixel_rows_by (worker_rows workers) self.now.surface.size (queries_open self.now.pending) x y) result }
        ensures few { OnOk result (workers ≤ 15) }
        ensures inside { OnOk result ((x < self.now.surface.size.width) × (y < self.now.surface.size.height)) }
    {
        let size = self.output.target().size();
        if x >= size.width || y >= size.height {
            return Err(GfxError::PixelRange);
        }
        self.examine_run(workers)
    }

    /// Whether the count of a query may be asked for, with as many threads. Refused with QueryNumber, QueryOpen, WorkerCount,
    /// NotIssued.
    pub fn examine_query(&self, query: u32, workers: u32) -> Result<(), GfxError>
        ensures rows { IsExamined (query_rows_by (worker_rows workers) (queries_open self.now.pending) (answered self.now query) query) result }
        ensures few { OnOk result (workers ≤ 15) }
        ensures issued { OnOk result ((query < QUERY_LIMIT) × (is_none (answered self.now query) ≡ false)) }
    {
        if query >= QUERY_LIMIT {
            return Err(GfxError::QueryNumber);
        }
        self.examine_run(workers)?;
        if !self.is_issued(query) {
            return Err(GfxError::NotIssued);
        }
        Ok(())
    }

    /// Whether a query has an issue, with no query open: one that ran, or a pending one.
    fn is_issued(&self, query: u32) -> bool
        ensures { result ≡ not (is_none (answered self.now query)) }
    {
        self.output.result(query).is_some() || self.pending.has_begun(query)
    }
}

impl<A: Allocator + Copy + Send> ImmediateContext<A> {
    /// A context with a new target, of a size in pixels. Refused with TargetSize, OutOfMemory.
    pub fn new(alloc: A, width: u32, height: u32) -> Result<Self, GfxError>
        ensures answer { AnswersBy (size_rows (record { width = width; height = height })) result }
        ensures size { IfOk result (λ c. c.surface.size ≡ record { width = width; height = height }) }
        ensures new { IfOk result (λ c. IsNew c.surface.size (context_of c)) }
    {
        let output = Output::new(alloc, width, height)?;
        Ok(ImmediateContext {
            alloc,
            output,
            waiting: Executions::none(alloc),
            pending: DeferredContext::new(alloc),
        })
    }

    /// Runs what waits, and not the pending commands.
    fn settle<E: EngineOf<A>>(&mut self, engine: &E) -> Result<(), GfxError>
        requires engine { IsEngine (E.may_list engine.now) (E.lists engine.now) (E.may_compile engine.now) (E.compiles engine.now) (E.may_draw engine.now) (E.draws engine.now) }
        ensures ok { OnOk result (Stays self.old self.new × (self.new.waiting ≡ [])) }
        ensures memory { IfErr result (λ e. e ≡ OutOfMemory) }
        ensures left { OnErr result (Stays self.old self.new) }
    {
        if self.waiting.are_none() {
            return Ok(());
        }
        run_waiting(&mut self.output, &mut self.waiting, engine)
    }

    /// Runs the pending commands, and then those of a list.
    fn run<E: EngineOf<A>>(
        &mut self,
        list: &Commands<'_, A>,
        restore: bool,
        engine: &E,
    ) -> Result<(), GfxError>
        requires engine { IsEngine (E.may_list engine.now) (E.lists engine.now) (E.may_compile engine.now) (E.compiles engine.now) (E.may_draw engine.now) (E.draws engine.now) }
        ensures ok { OnOk result (Ran list.now restore self.old self.new) }
        ensures memory { IfErr result (λ e. e ≡ OutOfMemory) }
        ensures left { OnErr result (MayHaveRun self.old self.new) }
    {
        run_all(
            &mut self.output,
            &mut self.waiting,
            &mut self.pending,
            engine,
        )?;
        self.output.run(list, engine)?;
        begin_anew(self.alloc, &mut self.pending, restore);
        Ok(())
    }

    /// Leaves the pending commands and those of a list behind them waiting, so many workers beside the caller being to run them. It
    /// says whether they wait; if not, nothing is changed.
    fn wait(&mut self, list: &Commands<'_, A>, restore: bool, workers: u32) -> bool
        ensures waits { result ≡ true → Executed list.now restore self.old self.new }
        ensures same { result ≡ false → self.new ≡ self.old }
    {
        wait(&mut self.waiting, &mut self.pending, list, restore, workers)
    }

    /// Executes a list: it and the pending commands wait, where they begin no query and there is room for them, also once what
    /// waits has run. Else all run at once.
    fn enqueue<E: EngineOf<A>>(
        &mut self,
        list: &Commands<'_, A>,
        restore: bool,
        engine: &E,
    ) -> Result<(), GfxError>
        requires engine { IsEngine (E.may_list engine.now) (E.lists engine.now) (E.may_compile engine.now) (E.compiles engine.now) (E.may_draw engine.now) (E.draws engine.now) }
        ensures ok { OnOk result (Executed list.now restore self.old self.new) }
        ensures memory { IfErr result (λ e. e ≡ OutOfMemory) }
        ensures left { OnErr result (MayHaveRun self.old self.new) }
    {
        if self.pending.recorded().begin_queries() || list.begin_queries() {
            return self.run(list, restore, engine);
        }
        if self.wait(list, restore, engine.workers()) {
            return Ok(());
        }
        self.settle(engine)?;
        if self.wait(list, restore, engine.workers()) {
            return Ok(());
        }
        self.run(list, restore, engine)
    }

    /// Performs a task by an engine.
    fn perform<
        E: Engine<
            Command = Command<A>,
            Bins = Bins<A>,
            Listed = Result<Compiled<A>, (GfxError, Bins<A>)>,
            Job = SegmentJob<A>,
            Lists = (Result<Lists<A>, GfxError>, SegmentJob<A>),
            Target = Target<A>,
            Program = TileProgram<A>,
            Drawn = Drawn<A>,
        >,
    >(&mut self, task: Task, list: &Commands<'_, A>, engine: &E) -> Result<(), GfxError>
        requires engine { IsEngine (E.may_list engine.now) (E.lists engine.now) (E.may_compile engine.now) (E.compiles engine.now) (E.may_draw engine.now) (E.draws engine.now) }
        ensures { Performs task list.now self.old self.new result }
    {
        match task {
            Task::Settle => self.settle(engine),
            Task::Execute { restore } => self.run(list, restore, engine),
            Task::Enqueue { restore } => self.enqueue(list, restore, engine),
        }
    }

    /// Performs a task on the caller's thread.
    fn perform_alone(&mut self, task: Task, list: &Commands<'_, A>) -> Result<(), GfxError>
        ensures { Performs task list.now self.old self.new result }
    {
        let alloc = self.alloc;
        let engine = EngineBy::new(
            0,
            |commands: &[Command<A>], size: Size, results: &[bool; 64], bins: Bins<A>| -> Result<
                Compiled<A>,
                (GfxError, Bins<A>),
            >
                requires { MayList commands.now size bins }
                ensures { IsListed commands.now size results.now result }
            { compile(alloc, commands, size, results, bins) },
            |job: SegmentJob<A>, bins: Option<Bins<A>>| -> (
                Result<Lists<A>, GfxError>,
                SegmentJob<A>,
            )
                requires { MayCompile job bins }
                ensures { AreMade job result }
            { compile_alone(job, bins) },
            |program: TileProgram<A>, target: &mut Target<A>| -> Drawn<A>
                requires { MayDraw program target.old }
                ensures { IsDrawnBy program target.old target.new result }
            { draw_alone(&alloc, program, target) },
        );
        self.perform(task, list, &engine)
    }

    /// Runs the pending commands. It changes no meaning, and leaves the kept state as the one pending command. Refused with
    /// QueryOpen, OutOfMemory.
    pub fn flush_alone(&mut self) -> Result<(), GfxError>
        ensures { Runs (flush_rows (queries_open self.old.pending)) [] true self.old self.new result }
    {
        self.examine_run(0)?;
        self.perform_alone(FLUSH, &Commands::none())
    }

    /// Runs the pending commands, and then those of a list, which begins from the default state. With `restore` the
    /// state stays as it was, and without it becomes the default. Refused with QueryOpen, OutOfMemory.
    pub fn execute_alone(&mut self, list: &CommandList<A>, restore: bool) -> Result<(), GfxError>
        ensures { Runs (flush_rows (queries_open self.old.pending)) list.now restore self.old self.new result }
    {
        self.examine_run(0)?;
        self.perform_alone(Task::Execute { restore }, &list.recorded())
    }

    /// What a pixel holds after all accepted commands; it runs the pending ones. Refused with PixelRange, QueryOpen,
    /// OutOfMemory.
    pub fn pixel_alone(&mut self, x: u32, y: u32) -> Result<Pixel, GfxError>
        ensures runs { Runs (pixel_rows self.old.surface.size (queries_open self.old.pending) x y) [] true self.old self.new result }
        ensures value { IfOk result (λ p. p ≡ shown self.old x y) }
    {
        self.examine_pixel(x, y, 0)?;
        self.perform_alone(FLUSH, &Commands::none())?;
        Ok(self.stored_pixel(x, y))
    }

    /// The count of the last issue of a query that has ended; it runs the pending commands. Refused with QueryNumber,
    /// QueryOpen, NotIssued, OutOfMemory.
    pub fn get_data_alone(&mut self, query: u32) -> Result<u64, GfxError>
        ensures runs { Runs (query_rows (queries_open self.old.pending) (answered self.old query) query) [] true self.old self.new result }
        ensures value { IfOk result (λ count. Some count ≡ answered self.old query) }
    {
        self.examine_query(query, 0)?;
        self.perform_alone(FLUSH, &Commands::none())?;
        Ok(self.counted(query))
    }

    /// Takes the next submission out of the ports, executes its list on the caller's thread, and names it by port and
    /// number. It answers None where the queue is empty, and then nothing runs. Refused with QueryOpen, where nothing is
    /// taken out, and OutOfMemory, where the submission comes back.
    pub fn execute_next_alone<R: Wait>(
        &mut self,
        rt: &R,
        ports: &Ports<CommandList<A>, A>,
        drain: &mut DrainPass<CommandList<A>>,
        restore: bool,
    ) -> Result<Option<(u32, u64)>, (GfxError, Option<Submission<CommandList<A>>>)>
        requires { drain.old.queue ≡ ports.now.queue }
        ensures { ExecutesNext (flush_rows (queries_open self.old.pending)) restore self.old self.new drain.old drain.new result }
    {
        if let Err(refusal) = self.examine_run(0) {
            return Err((refusal, None));
        }
        let Some(next) = ports.next(rt, drain) else {
            return Ok(None);
        };
        let ran = self.execute_alone(&next.list, restore);
        executed(next, ran)
    }

    /// Runs what waits, where something does, and not the pending commands. It changes no meaning. Refused with OutOfMemory alone.
    pub fn settle_alone(&mut self) -> Result<(), GfxError>
        ensures { Performs Settle [] self.old self.new result }
    {
        self.perform_alone(Task::Settle, &Commands::none())
    }

    /// Executes a list, as `execute_alone` does, and may leave it and the pending commands waiting: what waits runs when a call next
    /// runs the pending commands, as one with these. A list that begins a query, or finds no room, runs at once, behind all. Refused
    /// with QueryOpen, OutOfMemory.
    pub fn enqueue_execution_alone(
        &mut self,
        list: &CommandList<A>,
        restore: bool,
    ) -> Result<(), GfxError>
        ensures { Enqueues (flush_rows (queries_open self.old.pending)) list.now restore self.old self.new result }
    {
        self.examine_run(0)?;
        self.perform_alone(Task::Enqueue { restore }, &list.recorded())
    }

    /// What is pending waits, as if a list of nothing were executed behind it, or runs where it begins a query. Refused with QueryOpen,
    /// OutOfMemory.
    pub(crate) fn enqueue_pending_alone(&mut self) -> Result<(), GfxError>
        ensures { Enqueues (flush_rows (queries_open self.old.pending)) [] true self.old self.new result }
    {
        self.examine_run(0)?;
        self.perform_alone(Task::Enqueue { restore: true }, &Commands::none())
    }
}

impl<A: Allocator + Copy + Send + Sync> ImmediateContext<A> {
    /// Performs a task by a crew beside the caller.
    fn perform_by_crew<R: Threads + Wait + Sync, G: Gate>(
        &mut self,
        task: Task,
        list: &Commands<'_, A>,
        crew: &RunCrew<'_, '_, A, R, G>,
    ) -> Result<(), GfxError>
        ensures { Performs task list.now self.old self.new result }
    {
        let alloc = self.alloc;
        let rt = crew.rt;
        let workers = crew.workers();
        let engine = EngineBy::new(
            workers,
            |commands: &[Command<A>], size: Size, results: &[bool; 64], bins: Bins<A>| -> Result<
                Compiled<A>,
                (GfxError, Bins<A>),
            >
                requires { MayList commands.now size bins }
                ensures { IsListed commands.now size results.now result }
            {
                if workers == 0 {
                    return compile(alloc, commands, size, results, bins);
                }
                compile_parallel(rt, alloc, commands, size, results, bins)
            },
            |job: SegmentJob<A>, bins: Option<Bins<A>>| -> (
                Result<Lists<A>, GfxError>,
                SegmentJob<A>,
            )
                requires { MayCompile job bins }
                ensures { AreMade job result }
            { compile_by_crew(crew.rt, &crew.compiling, job, bins, crew.gate) },
            |program: TileProgram<A>, target: &mut Target<A>| -> Drawn<A>
                requires { MayDraw program target.old }
                ensures { IsDrawnBy program target.old target.new result }
            { draw_by_crew(crew, program, target) },
        );
        self.perform(task, list, &engine)
    }

    /// Performs a task with as many threads beside the caller, which start for each of its runs.
    fn perform_in_threads<R: Threads + Sync, G: Gate + Sync>(
        &mut self,
        task: Task,
        list: &Commands<'_, A>,
        rt: &R,
        workers: u32,
        gate: &G,
    ) -> Result<(), GfxError>
        requires workers { workers ≤ 15 }
        ensures { Performs task list.now self.old self.new result }
    {
        if workers == 0 {
            return self.perform_alone(task, list);
        }
        let alloc = self.alloc;
        let engine = EngineBy::new(
            0,
            |commands: &[Command<A>], size: Size, results: &[bool; 64], bins: Bins<A>| -> Result<
                Compiled<A>,
                (GfxError, Bins<A>),
            >
                requires { MayList commands.now size bins }
                ensures { IsListed commands.now size results.now result }
            { compile_parallel(rt, alloc, commands, size, results, bins) },
            |job: SegmentJob<A>, bins: Option<Bins<A>>| -> (
                Result<Lists<A>, GfxError>,
                SegmentJob<A>,
            )
                requires { MayCompile job bins }
                ensures { AreMade job result }
            { compile_alone(job, bins) },
            |program: TileProgram<A>, target: &mut Target<A>| -> Drawn<A>
                requires { MayDraw program target.old × (workers ≤ 15) }
                ensures { IsDrawnBy program target.old target.new result }
            { draw_in_threads(rt, &alloc, program, target, workers, gate) },
        );
        self.perform(task, list, &engine)
    }

    /// `flush_alone` with as many threads beside the caller. Refused with QueryOpen, WorkerCount, OutOfMemory.
    pub fn flush<R: Threads + Sync, G: Gate + Sync>(
        &mut self,
        rt: &R,
        workers: u32,
        gate: &G,
    ) -> Result<(), GfxError>
        ensures { Runs (flush_rows_by (worker_rows workers) (queries_open self.old.pending)) [] true self.old self.new result }
    {
        self.examine_run(workers)?;
        self.perform_in_threads(FLUSH, &Commands::none(), rt, workers, gate)
    }

    /// `execute_alone` with as many threads beside the caller. Refused with QueryOpen, WorkerCount, OutOfMemory.
    pub fn execute<R: Threads + Sync, G: Gate + Sync>(
        &mut self,
        rt: &R,
        list: &CommandList<A>,
        restore: bool,
        workers: u32,
        gate: &G,
    ) -> Result<(), GfxError>
        ensures { Runs (flush_rows_by (worker_rows workers) (queries_open self.old.pending)) list.now restore self.old self.new result }
    {
        self.examine_run(workers)?;
        self.perform_in_threads(
            Task::Execute { restore },
            &list.recorded(),
            rt,
            workers,
            gate,
        )
    }

    /// `pixel_alone` with as many threads beside the caller. Refused with PixelRange, QueryOpen, WorkerCount, OutOfMemory.
    pub fn pixel<R: Threads + Sync, G: Gate + Sync>(
        &mut self,
        rt: &R,
        x: u32,
        y: u32,
        workers: u32,
        gate: &G,
    ) -> Result<Pixel, GfxError>
        ensures runs { Runs (pixel_rows_by (worker_rows workers) self.old.surface.size (queries_open self.old.pending) x y) [] true self.old self.new result }
        ensures value { IfOk result (λ p. p ≡ shown self.old x y) }
    {
        self.examine_pixel(x, y, workers)?;
        self.perform_in_threads(FLUSH, &Commands::none(), rt, workers, gate)?;
        Ok(self.stored_pixel(x, y))
    }

    /// `get_data_alone` with as many threads beside the caller. Refused with QueryNumber, QueryOpen, WorkerCount,
    /// NotIssued, OutOfMemory.
    pub fn get_data<R: Threads + Sync, G: Gate + Sync>(
        &mut self,
        rt: &R,
        query: u32,
        workers: u32,
        gate: &G,
    ) -> Result<u64, GfxError>
        ensures runs { Runs (query_rows_by (worker_rows workers) (queries_open self.old.pending) (answered self.old query) query) [] true self.old self.new result }
        ensures value { IfOk result (λ count. Some count ≡ answered self.old query) }
    {
        self.examine_query(query, workers)?;
        self.perform_in_threads(FLUSH, &Commands::none(), rt, workers, gate)?;
        Ok(self.counted(query))
    }

    /// Takes the next submission out of the ports, executes its list with as many threads beside the caller, and names it
    /// by port and number. It answers None where the queue is empty, and then nothing runs. Refused with QueryOpen,
    /// WorkerCount, where nothing is taken out, and OutOfMemory, where the submission comes back.
    pub fn execute_next<R: Threads + Wait + Sync, G: Gate + Sync>(
        &mut self,
        rt: &R,
        ports: &Ports<CommandList<A>, A>,
        drain: &mut DrainPass<CommandList<A>>,
        restore: bool,
        workers: u32,
        gate: &G,
    ) -> Result<Option<(u32, u64)>, (GfxError, Option<Submission<CommandList<A>>>)>
        requires { drain.old.queue ≡ ports.now.queue }
        ensures { ExecutesNext (flush_rows_by (worker_rows workers) (queries_open self.old.pending)) restore self.old self.new drain.old drain.new result }
    {
        if let Err(refusal) = self.examine_run(workers) {
            return Err((refusal, None));
        }
        let Some(next) = ports.next(rt, drain) else {
            return Ok(None);
        };
        let ran = self.execute(rt, &next.list, restore, workers, gate);
        executed(next, ran)
    }

    /// Runs the pending commands; a crew's threads take tiles beside the caller, and the call may wait for a tile that one of
    /// them has in its hands. Refused with QueryOpen, OutOfMemory.
    pub fn flush_by_crew<R: Threads + Wait + Sync, G: Gate>(
        &mut self,
        crew: &RunCrew<'_, '_, A, R, G>,
    ) -> Result<(), GfxError>
        ensures { Runs (flush_rows (queries_open self.old.pending)) [] true self.old self.new result }
    {
        self.examine_run(0)?;
        self.perform_by_crew(FLUSH, &Commands::none(), crew)
    }

    /// Runs what waits, with a crew beside the caller. It changes no meaning. Refused with OutOfMemory alone.
    pub fn settle_by_crew<R: Threads + Wait + Sync, G: Gate>(
        &mut self,
        crew: &RunCrew<'_, '_, A, R, G>,
    ) -> Result<(), GfxError>
        ensures { Performs Settle [] self.old self.new result }
    {
        self.perform_by_crew(Task::Settle, &Commands::none(), crew)
    }

    /// Executes a list, which may wait with the pending commands; what has to run now runs with a crew beside the caller.
    /// Refused with QueryOpen, OutOfMemory.
    pub fn enqueue_execution_by_crew<R: Threads + Wait + Sync, G: Gate>(
        &mut self,
        list: &CommandList<A>,
        restore: bool,
        crew: &RunCrew<'_, '_, A, R, G>,
    ) -> Result<(), GfxError>
        ensures { Enqueues (flush_rows (queries_open self.old.pending)) list.now restore self.old self.new result }
    {
        self.examine_run(0)?;
        self.perform_by_crew(Task::Enqueue { restore }, &list.recorded(), crew)
    }
}

impl<A: Allocator + Copy + Send> DeviceContext for ImmediateContext<A> {
    ghost use Rattle.std.specs.Prelude.{refl};
    ghost use Rattle.immediate.specs.Held.{held_more};

    ghost recorded = { λ context. context.pending };

    ghost with = { held_more };

    type Alloc = A;

    fn record(&mut self, command: &Command<A>) -> Result<(), GfxError> {
        self.pending.record(command)
    }

    fn ia_set_vertices(&mut self, vertices: &[Vertex]) -> Result<(), GfxError> {
        self.pending.ia_set_vertices(vertices)
    }

    fn ia_set_indices(&mut self, indices: &[u16]) -> Result<(), GfxError> {
        self.pending.ia_set_indices(indices)
    }

    ghost appends = { λ context c. refl };
}
