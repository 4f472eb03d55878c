//! The execution of submissions.

ghost use Rattle.std.specs.Prelude.{◌≡◌, IfOk};

use crate::contexts::clearing;
use cmdlist::CommandList;
use gfxspec::GfxError;
use immediate::ImmediateContext;
use port::{DrainPass, Ports};
use std::alloc::Global;
use std::process::Abort;
use std::sync::Wait;
use std::test::Fail;
use std::thread::Threads;
use test_tools::apart;
use workers::NoGate;

/// Executes the one submission of context 2, which is refused with sixteen workers, and finds no other.
fn assert_one_submission<R: Abort + Threads + Sync + Wait>(
    rt: &R,
    context: &mut ImmediateContext<Global>,
    ports: &Ports<CommandList<Global>, Global>,
    drain: &mut DrainPass<CommandList<Global>>,
)
    requires { drain.old.queue ≡ ports.now.queue }
{
    let refused = context.execute_next(rt, ports, drain, true, 16, &NoGate);
    assert!(rt; matches!(refused, Err((GfxError::WorkerCount, None))));
    let ran = context.execute_next(rt, ports, drain, true, 0, &NoGate);
    assert!(rt; matches!(ran, Ok(Some((2, 0)))));
    let drawn = context.pixel_alone(0, 0);
    assert!(rt; matches!(drawn, Ok(pixel) if pixel.rgba[0] == 1 && pixel.rgba[3] == 4));
    let empty = context.execute_next_alone(rt, ports, drain, true);
    assert!(rt; matches!(empty, Ok(None)));
}

/// Ports in which one list waits, of context 2.
fn ports_with_one<R: Wait>(
    rt: &R,
    alloc: Global,
) -> Result<
    (
        Ports<CommandList<Global>, Global>,
        DrainPass<CommandList<Global>>,
    ),
    GfxError,
>
    ensures { IfOk result (λ made. made.1.queue ≡ made.0.queue) }
{
    let list = clearing(alloc)?;
    let (ports, passes, drain) = Ports::<CommandList<Global>, Global>::new(alloc)?;
    let (_zero, _one, mut two, _three) = apart(passes);
    match ports.submit(rt, &mut two, list) {
        Ok(_) => Ok((ports, drain)),
        Err((refusal, _list)) => Err(refusal),
    }
}

#[test]
fn one_submission(rt: HostRuntime) -> Result<(), Fail> {
    let (ports, mut drain) = ports_with_one(&rt, rt.alloc())?;
    let mut context = ImmediateContext::new(rt.alloc(), 1, 1)?;
    assert_one_submission(&rt, &mut context, &ports, &mut drain);
    Ok(())
}

/// Executes the one submission of context 2 on the caller's thread alone.
fn assert_one_alone<R: Abort + Wait>(
    rt: &R,
    context: &mut ImmediateContext<Global>,
    ports: &Ports<CommandList<Global>, Global>,
    drain: &mut DrainPass<CommandList<Global>>,
)
    requires { drain.old.queue ≡ ports.now.queue }
{
    let ran = context.execute_next_alone(rt, ports, drain, true);
    assert!(rt; matches!(ran, Ok(Some((2, 0)))));
    let drawn = context.pixel_alone(0, 0);
    assert!(rt; matches!(drawn, Ok(pixel) if pixel.rgba[0] == 1 && pixel.rgba[3] == 4));
}

#[test]
fn one_submission_alone(rt: HostRuntime) -> Result<(), Fail> {
    let (ports, mut drain) = ports_with_one(&rt, rt.alloc())?;
    let mut context = ImmediateContext::new(rt.alloc(), 1, 1)?;
    assert_one_alone(&rt, &mut context, &ports, &mut drain);
    Ok(())
}
