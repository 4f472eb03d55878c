//! What runs what waits and the pending commands.

ghost use Rattle.std.specs.Prelude.{true, ◌≡◌, [], IfErr, OnOk, OnErr};
ghost use Rattle.gfxspec.specs.declared.error.GfxError.TheVariants.{OutOfMemory};
ghost use Rattle.immediate.specs.Batched.{HasDrawn, PartDrawn};
ghost use Rattle.immediate.specs.Engines.{IsEngine};
ghost use Rattle.immediate.specs.Outputs.{cut_over};
ghost use Rattle.immediate.specs.Held.{Ran, MayHaveRun, held_of, held_behind};

use crate::engine::EngineOf;
use crate::executions::{Executions, wait};
use crate::output::Output;
use cmdlist::{Commands, DeferredContext, DeviceContext};
use gfxspec::GfxError;
use std::alloc::Allocator;

/// Runs the pending commands, and begins their list anew with the kept state. Where that is all that is pending, nothing is done.
fn run_pending<A: Allocator + Copy + Send, E: EngineOf<A>>(
    output: &mut Output<A>,
    pending: &mut DeferredContext<A>,
    engine: &E,
) -> Result<(), GfxError>
    requires engine { IsEngine (E.may_list engine.now) (E.lists engine.now) (E.may_compile engine.now) (E.compiles engine.now) (E.may_draw engine.now) (E.draws engine.now) }
    ensures ok { OnOk result (Ran [] true (held_of output.old pending.old) (held_of output.new pending.new)) }
    ensures memory { IfErr result (λ e. e ≡ OutOfMemory) }
    ensures same { OnErr result ((output.new ≡ output.old) × (pending.new ≡ pending.old)) }
{
    if pending.is_kept_state_alone() {
        return Ok(());
    }
    let next = pending.next(true)?;
    output.run(&pending.recorded(), engine)?;
    *pending = next;
    Ok(())
}

/// Runs what waits one segment after the other, which takes the least memory. Where memory is refused, what ran waits no longer.
fn run_each<A: Allocator + Copy + Send, E: EngineOf<A>>(
    output: &mut Output<A>,
    waiting: &mut Executions<A>,
    engine: &E,
) -> Result<(), GfxError>
    requires engine { IsEngine (E.may_list engine.now) (E.lists engine.now) (E.may_compile engine.now) (E.compiles engine.now) (E.may_draw engine.now) (E.draws engine.now) }
    ensures ok { OnOk result (HasDrawn (cut_over output.old waiting.old) output.old output.new × (waiting.new ≡ [])) }
    ensures memory { IfErr result (λ e. e ≡ OutOfMemory) }
    ensures part { OnErr result (PartDrawn output.old waiting.old output.new waiting.new) }
{
    let count = waiting.count();
    for place in 0..count {
        if let Err(refusal) = output.run_waiting(waiting, place..place + 1, engine) {
            waiting.forget(place);
            return Err(refusal);
        }
    }
    waiting.forget(count);
    Ok(())
}

/// Runs what waits: all as one, or, where memory for that is refused, one segment after the other. Refused with OutOfMemory alone.
pub(crate) fn run_waiting<A: Allocator + Copy + Send, E: EngineOf<A>>(
    output: &mut Output<A>,
    waiting: &mut Executions<A>,
    engine: &E,
) -> Result<(), GfxError>
    requires engine { IsEngine (E.may_list engine.now) (E.lists engine.now) (E.may_compile engine.now) (E.compiles engine.now) (E.may_draw engine.now) (E.draws engine.now) }
    ensures ok { OnOk result (HasDrawn (cut_over output.old waiting.old) output.old output.new × (waiting.new ≡ [])) }
    ensures memory { IfErr result (λ e. e ≡ OutOfMemory) }
    ensures part { OnErr result (PartDrawn output.old waiting.old output.new waiting.new) }
{
    let count = waiting.count();
    match output.run_waiting(waiting, 0..count, engine) {
        Ok(()) => {
            waiting.forget(count);
            Ok(())
        }
        Err(_) => run_each(output, waiting, engine),
    }
}

/// Runs what waits and then the pending commands, as one where these begin no query, and begins the pending list anew with the
/// kept state. Refused with OutOfMemory alone.
pub(crate) fn run_all<A: Allocator + Copy + Send, E: EngineOf<A>>(
    output: &mut Output<A>,
    waiting: &mut Executions<A>,
    pending: &mut DeferredContext<A>,
    engine: &E,
) -> Result<(), GfxError>
    requires engine { IsEngine (E.may_list engine.now) (E.lists engine.now) (E.may_compile engine.now) (E.compiles engine.now) (E.may_draw engine.now) (E.draws engine.now) }
    ensures ok { OnOk result (Ran [] true (held_behind output.old waiting.old pending.old) (held_behind output.new waiting.new pending.new)) }
    ensures memory { IfErr result (λ e. e ≡ OutOfMemory) }
    ensures left { OnErr result (MayHaveRun (held_behind output.old waiting.old pending.old) (held_behind output.new waiting.new pending.new)) }
{
    if waiting.are_none() {
        return run_pending(output, pending, engine);
    }
    if wait(waiting, pending, &Commands::none(), true, engine.workers()) {
        return run_waiting(output, waiting, engine);
    }
    run_waiting(output, waiting, engine)?;
    run_pending(output, pending, engine)
}
