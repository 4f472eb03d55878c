//! The caller: it takes out of the ports what the recorders sent, and executes it with a crew of workers.

ghost use Rattle.std.specs.Prelude.{◌≡◌, IfOk};

use crate::record::{ListPass, ListPorts, record_both};
use device::{
    Bells, CommandList, DrainPass, Gate, GfxError, ImmediateContext, NoGate, Ports, RunCrew,
    while_crew_works,
};
use std::alloc::Global;
use std::sync::Wait;
use std::thread::Threads;

/// How many workers draw tiles beside the caller.
const WORKERS: u32 = 2;

/// The caller's right to take lists out.
type ListDrain = DrainPass<CommandList<Global>>;

/// The ports, the passes of both recorders and those that nobody uses, and the caller's right to take out.
#[derive(Drop)]
struct Opened {
    ports: ListPorts,
    left: ListPass,
    right: ListPass,
    third: ListPass,
    fourth: ListPass,
    drain: ListDrain,
}

/// Makes the ports.
fn open(alloc: Global) -> Result<Opened, GfxError>
    ensures queues { IfOk result (λ o. (o.left.queue ≡ o.ports.queue) × (o.right.queue ≡ o.ports.queue) × (o.third.queue ≡ o.ports.queue) × (o.fourth.queue ≡ o.ports.queue) × (o.drain.queue ≡ o.ports.queue)) }
    ensures numbers { IfOk result (λ o. (o.left.port ≡ 0) × (o.right.port ≡ 1) × (o.third.port ≡ 2) × (o.fourth.port ≡ 3)) }
{
    let made = Ports::new(alloc)?;
    let [left, right, third, fourth] = made.1;
    let ports = made.0;
    let drain = made.2;
    Ok(Opened {
        ports,
        left,
        right,
        third,
        fourth,
        drain,
    })
}

/// Takes out all lists that wait, in the order in which they came.
fn take_all<R: Wait>(
    rt: &R,
    alloc: Global,
    ports: &ListPorts,
    drain: &mut ListDrain,
) -> Result<Vec<CommandList<Global>>, GfxError>
    requires { drain.old.queue ≡ ports.now.queue }
    ensures { drain.new.queue ≡ ports.now.queue }
{
    let mut lists = Vec::new(alloc);
    for _ in rt.forever() {
        let Some(next) = ports.next(rt, drain) else {
            return Ok(lists);
        };
        lists.push(next.list)?;
    }
    unreachable!()
}

/// Records in two threads and takes out what they sent. The ports are settled then: what was sent was taken, once and in the
/// order of each recorder.
fn recorded<R: Threads + Wait + Sync>(
    rt: &R,
    alloc: Global,
) -> Result<Vec<CommandList<Global>>, GfxError> {
    let Opened {
        ports,
        left,
        right,
        third,
        fourth,
        drain,
    } = open(alloc)?;
    let mut drain = drain;
    let (left, right, sent) = record_both(rt, alloc, &ports, left, right);
    let lists = take_all(rt, alloc, &ports, &mut drain);
    ports.drain_and_settle(rt, [left, right, third, fourth], drain);
    sent?;
    lists
}

/// Executes lists by a crew, and runs what is pending behind them.
fn execute_all<R: Threads + Wait + Sync, G: Gate>(
    crew: &RunCrew<'_, '_, Global, R, G>,
    device: &mut ImmediateContext<Global>,
    lists: &[CommandList<Global>],
) -> Result<(), GfxError> {
    for list in lists {
        device.enqueue_execution_by_crew(list, true, crew)?;
    }
    device.flush_by_crew(crew)
}

/// Draws the lists of both recorders on a device, with a crew of workers.
pub(crate) fn draw_lists<R: Threads + Wait + Sync>(
    rt: &R,
    alloc: Global,
    device: &mut ImmediateContext<Global>,
) -> Result<(), GfxError> {
    let lists = recorded(rt, alloc)?;
    let lists = lists.as_slice();
    let bells = Bells::new(WORKERS);
    let crew = RunCrew::new(rt, &alloc, &bells, &NoGate);
    let crew = &crew;
    while_crew_works(crew, move || execute_all(crew, device, lists))
}
