//! The target and the query results, as the last run left them, and what a run makes of them.

ghost use Rattle.std.specs.Prelude.{true, false, ◌≡◌, ℕ, ◌<◌, ◌≤◌, [], ◌∷◌, Some, None, Ok, Err, map, replicate, slice_index, All, OnOk, IfOk, IfErr, OnErr, IfSome, MatchOption, MatchResult};
ghost use Rattle.gfxspec.specs.declared.error.GfxError.TheVariants.{OutOfMemory};
ghost use Rattle.gfxspec.specs.Items.{opening};
ghost use Rattle.gfxspec.specs.Recorded.{issues};
ghost use Rattle.cmdlist.specs.Drawable.{told};
ghost use Rattle.gfxspec.specs.Predication.{result_of};
ghost use Rattle.gfxspec.specs.Refusals.{AnswersBy};
ghost use Rattle.gfxspec.specs.Accepted.{AreAccepted};
ghost use Rattle.gfxspec.specs.Tiles.{tile_count};
ghost use Rattle.tileblock.specs.Surface.{IsWhole, pixel_of, size_rows};
ghost use Rattle.binmem.specs.Lists.{no_words};
ghost use Rattle.meaning.specs.Contexts.{result_at, with_counts};
ghost use Rattle.command.specs.Seen.{command_value};
ghost use Rattle.binner.specs.Segments.{AreCompiled};
ghost use Rattle.tileprog.specs.Programs.{lists_of};
ghost use Rattle.tileprog.specs.Several.{CanRunBehind};
ghost use Rattle.immediate.specs.Outputs.{HasRun, IsCompiled, cut_over};
ghost use Rattle.immediate.specs.Batched.{HasDrawn, part};
ghost use Rattle.immediate.specs.Engines.{IsEngine};

use crate::counts::store_counts;
use crate::drawing::{Drawn, draw};
use crate::engine::EngineOf;
use crate::executions::Executions;
use crate::room::Room;
use binmem::Bins;
use binner::Compiled;
use cmdlist::{Command, Commands};
use gfxspec::GfxError;
use std::alloc::{AllocError, Allocator};
use std::marker::Model;
use std::ops::Range;
use tileblock::Target;
use tileprog::TileProgram;

/// No query has a count.
fn no_results() -> [Option<u64>; 64]
    ensures { result ≡ replicate 64 None }
{
    [None; 64]
}

/// Whether some pixel was counted.
fn is_counted(count: Option<u64>) -> bool
    ensures { result ≡ result_of count }
{
    match count {
        Some(count) => count > 0,
        None => false,
    }
}

/// The result of each query as a predicate.
fn told_by(results: &[Option<u64>; 64]) -> [bool; 64]
    ensures { (q : ℕ) → told result q ≡ result_of (result_at results.now q) }
{
    let mut told = [false; 64];
    for query in 0..64usize {
        told[query] = is_counted(results[query]);
    }
    told
}

/// Keeps what a drawing of commands leaves: their issues' counts, each under its query, and the bins, empty again.
fn keep<A: Allocator + Copy>(
    drawn: Drawn<A>,
    commands: &Commands<'_, A>,
    results: &mut [Option<u64>; 64],
    bins: &mut Option<Bins<A>>,
) -> Result<(), GfxError>
    ensures kept { MatchResult drawn.0
        (λ counts. (result ≡ Ok tt) × (results.new ≡ with_counts 0 (λ issue. slice_index counts.items issue) (issues commands.now) results.old))
        (λ refusal. (result ≡ Err refusal) × (results.new ≡ results.old)) }
    ensures bins { bins.new ≡ Some (no_words (tile_count drawn.1.size)) }
{
    let (counts, compiled) = drawn;
    *bins = Some(compiled.into_bins());
    let counts = counts?;
    if commands.begin_queries() {
        store_counts(results, commands.as_slice(), counts.as_slice());
    }
    Ok(())
}

/// Lists without issues as a program: one alone takes no memory.
fn program_of<A: Allocator + Copy>(
    alloc: A,
    first: Compiled<A>,
    behind: Vec<Compiled<A>, A>,
) -> Result<TileProgram<A>, AllocError>
    requires unissued { first.issues ≡ 0 }
    requires behind { All (CanRunBehind first.size) behind.items }
    ensures { IfOk result (λ program. lists_of program ≡ first ∷ behind.items) }
{
    if behind.is_empty() {
        return Ok(TileProgram::new(first));
    }
    TileProgram::of_lists(alloc, first, behind)
}

/// A target, the count of each query's last issue, and empty bins that wait for the next list.
#[derive(Drop)]
pub(crate) struct Output<A: Allocator> {
    alloc: A,
    target: Target<A>,
    results: [Option<u64>; 64],
    bins: Option<Bins<A>>,
}

impl<A: Allocator> Model for Output<A> {
    ghost use Rattle.immediate.specs.Outputs.{Outputs, IsOutput};

    ghost Value = { Outputs };

    ghost view = { λ o. record { surface = o.target; results = o.results } };

    ghost invariant = { λ o. IsOutput o.target o.results o.bins };
}

impl<A: Allocator> Output<A> {
    /// The target.
    pub(crate) fn target(&self) -> &Target<A>
        ensures target { result.now ≡ self.now.surface }
        ensures whole { IsWhole result.now }
    {
        &self.target
    }

    /// The count of the last issue of a query that ran.
    pub(crate) fn result(&self, query: u32) -> Option<u64>
        ensures { result ≡ result_at self.now.results query }
    {
        match self.results.get(query as usize) {
            Some(result) => *result,
            None => None,
        }
    }

    /// The result of each query as a predicate, as the last run left it.
    pub(crate) fn told(&self) -> [bool; 64]
        ensures { (q : ℕ) → told result q ≡ result_of (result_at self.now.results q) }
    {
        told_by(&self.results)
    }
}

impl<A: Allocator + Copy + Send> Output<A> {
    /// A new target without results.
    pub(crate) fn new(alloc: A, width: u32, height: u32) -> Result<Self, GfxError>
        ensures answer { AnswersBy (size_rows (record { width = width; height = height })) result }
        ensures size { IfOk result (λ o. o.surface.size ≡ record { width = width; height = height }) }
        ensures opening { IfOk result (λ o. (x y : ℕ) → x < width → y < height → pixel_of o.surface x y ≡ opening) }
        ensures results { IfOk result (λ o. o.results ≡ replicate 64 None) }
    {
        let target = Target::split(alloc, width, height)?;
        Ok(Output {
            alloc,
            target,
            results: no_results(),
            bins: None,
        })
    }

    /// The bins that wait, or new ones.
    fn take_bins(&mut self) -> Result<Bins<A>, GfxError>
        ensures same { self.new ≡ self.old }
        ensures bins { IfOk result (λ bins. bins ≡ no_words (tile_count self.old.surface.size)) }
        ensures memory { IfErr result (λ e. e ≡ OutOfMemory) }
    {
        match self.bins.take() {
            Some(bins) => Ok(bins),
            None => Bins::new(self.alloc, self.target.tiles()),
        }
    }

    /// Compiles commands for the target, under the results of the queries, by an engine. Refused with OutOfMemory alone: then the bins
    /// wait again.
    fn compiled<E: EngineOf<A>>(
        &mut self,
        commands: &[Command<A>],
        engine: &E,
    ) -> Result<Compiled<A>, GfxError>
        requires engine { IsEngine (E.may_list engine.now) (E.lists engine.now) (E.may_compile engine.now) (E.compiles engine.now) (E.may_draw engine.now) (E.draws engine.now) }
        requires accepted { AreAccepted (map command_value commands.now) }
        ensures same { self.new ≡ self.old }
        ensures compiled { IfOk result (IsCompiled (map command_value commands.now) self.old) }
        ensures memory { IfErr result (λ e. e ≡ OutOfMemory) }
    {
        let bins = self.take_bins()?;
        let size = self.target.size();
        let told = told_by(&self.results);
        match engine.list(commands, size, &told, bins) {
            Ok(compiled) => Ok(compiled),
            Err((refusal, bins)) => {
                self.bins = Some(bins);
                Err(refusal)
            }
        }
    }

    /// Runs commands by an engine, with issues of their own, from the default state on: where there is none, nothing is done. Refused
    /// with OutOfMemory alone, before any tile is taken.
    pub(crate) fn run<E: EngineOf<A>>(
        &mut self,
        commands: &Commands<'_, A>,
        engine: &E,
    ) -> Result<(), GfxError>
        requires engine { IsEngine (E.may_list engine.now) (E.lists engine.now) (E.may_compile engine.now) (E.compiles engine.now) (E.may_draw engine.now) (E.draws engine.now) }
        ensures accepted { AreAccepted commands.now }
        ensures ok { OnOk result (HasRun commands.now self.old self.new) }
        ensures memory { IfErr result (λ e. e ≡ OutOfMemory) }
        ensures err { OnErr result (self.new ≡ self.old) }
    {
        if commands.as_slice().is_empty() || self.run_cut(commands, engine) {
            return Ok(());
        }
        self.run_listed(commands, engine)
    }

    /// Runs commands that draw much and begin no query, cut into segments for those who work beside the caller. It says whether they
    /// ran: there may be no memory for it.
    fn run_cut<E: EngineOf<A>>(&mut self, commands: &Commands<'_, A>, engine: &E) -> bool
        requires engine { IsEngine (E.may_list engine.now) (E.lists engine.now) (E.may_compile engine.now) (E.compiles engine.now) (E.may_draw engine.now) (E.draws engine.now) }
        ensures ran { result ≡ true → HasRun commands.now self.old self.new }
        ensures same { result ≡ false → self.new ≡ self.old }
    {
        let workers = engine.workers();
        if workers == 0 || !Room::of(commands).is_large() {
            return false;
        }
        let none = Executions::none(self.alloc);
        let Some(mut cut) = none.with(self.alloc, commands, workers) else {
            return false;
        };
        let count = cut.count();
        self.run_waiting(&mut cut, 0..count, engine).is_ok()
    }

    /// Runs commands that are compiled as one list.
    fn run_listed<E: EngineOf<A>>(
        &mut self,
        commands: &Commands<'_, A>,
        engine: &E,
    ) -> Result<(), GfxError>
        requires engine { IsEngine (E.may_list engine.now) (E.lists engine.now) (E.may_compile engine.now) (E.compiles engine.now) (E.may_draw engine.now) (E.draws engine.now) }
        ensures ok { OnOk result (HasRun commands.now self.old self.new) }
        ensures memory { IfErr result (λ e. e ≡ OutOfMemory) }
        ensures err { OnErr result (self.new ≡ self.old) }
    {
        let compiled = self.compiled(commands.as_slice(), engine)?;
        let drawn = draw(engine, TileProgram::new(compiled), &mut self.target);
        keep(drawn, commands, &mut self.results, &mut self.bins)
    }

    /// The lists of segments that wait, those of some places, as a program. What waits is kept.
    fn program<E: EngineOf<A>>(
        &mut self,
        waiting: &mut Executions<A>,
        places: Range<usize>,
        engine: &E,
    ) -> Result<TileProgram<A>, GfxError>
        requires engine { IsEngine (E.may_list engine.now) (E.lists engine.now) (E.may_compile engine.now) (E.compiles engine.now) (E.may_draw engine.now) (E.draws engine.now) }
        ensures same { self.new ≡ self.old }
        ensures kept { waiting.new ≡ waiting.old }
        ensures compiled { IfOk result (λ program. AreCompiled self.old.surface.size (cut_over self.old (part places.start places.end waiting.old)) (lists_of program)) }
        ensures memory { IfErr result (λ e. e ≡ OutOfMemory) }
    {
        let size = self.target.size();
        let told = told_by(&self.results);
        let bins = self.bins.take();
        let job = waiting.job(self.alloc, places, size, &told, engine.workers());
        let (lists, job) = engine.compile(job, bins);
        waiting.take_back(job);
        let (first, behind) = lists?;
        Ok(program_of(self.alloc, first, behind)?)
    }

    /// Runs segments that wait, those of some places. They are kept. Refused with OutOfMemory alone, before any tile is taken.
    pub(crate) fn run_waiting<E: EngineOf<A>>(
        &mut self,
        waiting: &mut Executions<A>,
        places: Range<usize>,
        engine: &E,
    ) -> Result<(), GfxError>
        requires engine { IsEngine (E.may_list engine.now) (E.lists engine.now) (E.may_compile engine.now) (E.compiles engine.now) (E.may_draw engine.now) (E.draws engine.now) }
        ensures kept { waiting.new ≡ waiting.old }
        ensures ok { OnOk result (HasDrawn (cut_over self.old (part places.start places.end waiting.old)) self.old self.new) }
        ensures memory { IfErr result (λ e. e ≡ OutOfMemory) }
        ensures err { OnErr result (self.new ≡ self.old) }
    {
        let program = self.program(waiting, places, engine)?;
        let drawn = draw(engine, program, &mut self.target);
        keep(drawn, &Commands::none(), &mut self.results, &mut self.bins)
    }
}
