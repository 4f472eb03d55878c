//! Who makes the runs of a context, as one value: who compiles lists and segments of lists, and who draws tiles.
//!
//! A run is one body over an engine; what the caller does alone, and what a crew does beside it, are closures of an engine. (A
//! type with a bound can't stand in the methods of a trait that is to be implemented, so what runs are made of are types of
//! the engine, and `EngineOf` says which they are.)

ghost use Rattle.std.specs.Prelude.{◌≤◌};

use crate::drawing::Drawn;
use binmem::Bins;
use binner::Compiled;
use cmdlist::Command;
use gfxspec::{GfxError, Size};
use segmentrun::{Lists, SegmentJob};
use std::alloc::Allocator;
use std::marker::PhantomData;
use tileblock::Target;
use tileprog::TileProgram;

/// Who makes runs: what is asked before it compiles or draws, and what comes of it.
pub(crate) trait Engine {
    type Command;

    type Bins;

    /// A list that was compiled, or why it wasn't.
    type Listed;

    type Job;

    /// The lists of a job, and the job.
    type Lists;

    type Target;

    type Program;

    /// The counts of a program's issues, and its first list.
    type Drawn;

    ghost use Rattle.std.specs.Prelude.{◌≤◌, Bool, List, Option};
    ghost use Rattle.gfxspec.specs.declared.geometry.Size.{Size};

    ghost may_list: { Self → List Self.Command → Size → Self.Bins → Type 0 };

    ghost lists: { Self → List Self.Command → Size → List Bool → Self.Bins → Self.Listed → Type 0 };

    ghost may_compile: { Self → Self.Job → Option Self.Bins → Type 0 };

    ghost compiles: { Self → Self.Job → Option Self.Bins → Self.Lists → Type 0 };

    ghost may_draw: { Self → Self.Program → Self.Target → Type 0 };

    ghost draws: { Self → Self.Program → Self.Target → Self.Target → Self.Drawn → Type 0 };

    /// How many work beside the caller.
    fn workers(&self) -> u32
        ensures { result ≤ 15 };

    /// Compiles a list, with issues of its own.
    fn list(
        &self,
        commands: &[Self::Command],
        size: Size,
        results: &[bool; 64],
        bins: Self::Bins,
    ) -> Self::Listed
        requires { may_list self.now commands.now size bins }
        ensures { lists self.now commands.now size results.now bins result };

    /// Compiles segments, with these bins or with new ones.
    fn compile(&self, job: Self::Job, bins: Option<Self::Bins>) -> Self::Lists
        requires { may_compile self.now job bins }
        ensures { compiles self.now job bins result };

    /// Draws the tiles of a program.
    fn draw(&self, program: Self::Program, target: &mut Self::Target) -> Self::Drawn
        requires { may_draw self.now program target.old }
        ensures { draws self.now program target.old target.new result };
}

/// An engine of three closures.
#[derive(Drop)]
pub(crate) struct EngineBy<C, B, K, J, L, T, P, D, F, G, H> {
    workers: u32,
    list: F,
    compile: G,
    draw: H,
    commands: PhantomData<(C, B, K)>,
    jobs: PhantomData<(J, L)>,
    programs: PhantomData<(T, P, D)>,
    ghost few: { workers ≤ 15 },
}

impl<
    C,
    B,
    K,
    J,
    L,
    T,
    P,
    D,
    F: Fn(&[C], Size, &[bool; 64], B) -> K,
    G: Fn(J, Option<B>) -> L,
    H: Fn(P, &mut T) -> D,
> EngineBy<C, B, K, J, L, T, P, D, F, G, H> {
    ghost use Rattle.std.specs.Prelude.{◌≡◌, ◌≤◌};

    /// The engine of so many workers that compiles lists by the first, segments by the second, and draws by the third.
    pub(crate) fn new(workers: u32, list: F, compile: G, draw: H) -> Self
        requires { workers ≤ 15 }
        ensures { (result.list ≡ list) × (result.compile ≡ compile) × (result.draw ≡ draw) }
    {
        EngineBy {
            workers,
            list,
            compile,
            draw,
            commands: PhantomData,
            jobs: PhantomData,
            programs: PhantomData,
        }
    }
}

impl<
    C,
    B,
    K,
    J,
    L,
    T,
    P,
    D,
    F: Fn(&[C], Size, &[bool; 64], B) -> K,
    G: Fn(J, Option<B>) -> L,
    H: Fn(P, &mut T) -> D,
> Engine for EngineBy<C, B, K, J, L, T, P, D, F, G, H> {
    type Command = C;

    type Bins = B;

    type Listed = K;

    type Job = J;

    type Lists = L;

    type Target = T;

    type Program = P;

    type Drawn = D;

    ghost use Rattle.std.specs.Prelude.{◌≡◌};

    ghost may_list = { λ e commands size bins. (cs results : _) → cs.now ≡ commands → F.pre e.list cs size results bins };

    ghost lists = { λ e commands size results bins listed. (cs told : _) × (cs.now ≡ commands) × (told.now ≡ results) × F.post e.list cs size told bins listed };

    ghost may_compile = { λ e job bins. G.pre e.compile job bins };

    ghost compiles = { λ e job bins lists. G.post e.compile job bins lists };

    ghost may_draw = { λ e program target. (t : _) → t.now ≡ target → H.pre e.draw program t };

    ghost draws = { λ e program old new drawn. (s t : _) × (s.now ≡ old) × (t.now ≡ new) × H.post e.draw program s drawn t };

    fn workers(&self) -> u32 {
        self.workers
    }

    fn list(&self, commands: &[C], size: Size, results: &[bool; 64], bins: B) -> K {
        (self.list)(commands, size, results, bins)
    }

    fn compile(&self, job: J, bins: Option<B>) -> L
        requires { G.pre self.now.compile job bins }
        ensures { G.post self.now.compile job bins result }
    {
        (self.compile)(job, bins)
    }

    fn draw(&self, program: P, target: &mut T) -> D {
        (self.draw)(program, target)
    }
}

/// An engine for what has its memory from an allocator.
pub(crate) trait EngineOf<A: Allocator>: Engine<
    Command = Command<A>,
    Bins = Bins<A>,
    Listed = Result<Compiled<A>, (GfxError, Bins<A>)>,
    Job = SegmentJob<A>,
    Lists = (Result<Lists<A>, GfxError>, SegmentJob<A>),
    Target = Target<A>,
    Program = TileProgram<A>,
    Drawn = Drawn<A>,
> {}

impl<
    A: Allocator,
    E: Engine<
        Command = Command<A>,
        Bins = Bins<A>,
        Listed = Result<Compiled<A>, (GfxError, Bins<A>)>,
        Job = SegmentJob<A>,
        Lists = (Result<Lists<A>, GfxError>, SegmentJob<A>),
        Target = Target<A>,
        Program = TileProgram<A>,
        Drawn = Drawn<A>,
    >,
> EngineOf<A> for E {}
