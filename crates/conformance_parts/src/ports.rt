//! Ports: a worked row, a full queue, four threads, and refused growths. What is sent is a number here in place of a list.

ghost use Rattle.std.specs.Prelude.{◌≡◌};
ghost use Rattle.port.specs.History.{AreAll};

mod quiet;
mod raised;

use gfxspec::GfxError;
use port::{DrainPass, PortPass, Ports, Submission};
use refusing::Refusing;
use std::alloc::Global;
use std::process::Abort;
use std::sync::Wait;
use std::test::Fail;
use std::thread::{self, Threads};
use test_tools::apart;

// Port and number of the next submission, and what it sends.
fn take<R: Wait>(
    rt: &R,
    ports: &Ports<u64, Global>,
    drain: &mut DrainPass<u64>,
) -> Option<(u32, u64, u64)>
    requires { drain.old.queue ≡ ports.now.queue }
    ensures { drain.new.queue ≡ ports.now.queue }
{
    let Submission { port, number, list } = ports.next(rt, drain)?;
    Some((port, number, list))
}

// Takes the last of three submissions, and settles.
fn settle_behind_the_last<R: Wait + Abort>(
    rt: &R,
    ports: Ports<u64, Global>,
    passes: [PortPass<u64>; 4],
    mut drain: DrainPass<u64>,
)
    requires passes { AreAll ports.queue passes }
    requires drain { drain.queue ≡ ports.queue }
{
    assert!(rt; take(rt, &ports, &mut drain) == Some((1, 0, 9)));
    assert!(rt; take(rt, &ports, &mut drain).is_none());
    let settled = ports.settle(passes, drain);
    assert!(rt; settled.ok() == Some([2, 1, 0, 0]));
}

#[test]
fn two_ports(rt: HostRuntime) -> Result<(), Fail> {
    let made = Ports::<u64, Global>::new(rt.alloc())?;
    let passes = made.1;
    let ports = made.0;
    let mut drain = made.2;
    let (mut zero, mut one, two, three) = apart(passes);
    assert!(rt; ports.submit(&rt, &mut zero, 7).is_ok());
    assert!(rt; ports.submit(&rt, &mut zero, 8).is_ok());
    assert!(rt; ports.submit(&rt, &mut one, 9).is_ok());
    assert!(rt; (zero.port(), zero.sent()) == (0, 2));
    assert!(rt; (one.port(), one.sent()) == (1, 1));
    assert!(rt; take(&rt, &ports, &mut drain) == Some((0, 0, 7)));
    assert!(rt; take(&rt, &ports, &mut drain) == Some((0, 1, 8)));
    let back = match ports.settle([zero, one, two, three], drain) {
        Ok(_) => panic!(rt; "one is left"),
        Err(back) => back,
    };
    settle_behind_the_last(&rt, back.1, back.2, back.3);
    Ok(())
}

#[test]
fn at_most_64_wait(rt: HostRuntime) -> Result<(), Fail> {
    let made = Ports::<u32, Global>::new(rt.alloc())?;
    let passes = made.1;
    let ports = made.0;
    let (mut zero, _one, _two, _three) = apart(passes);
    for list in 0..64u32 {
        assert!(rt; ports.submit(&rt, &mut zero, list).is_ok());
    }
    let Err((refused, list)) = ports.submit(&rt, &mut zero, 64) else {
        panic!(rt; "65 wait")
    };
    assert!(rt; (refused.number(), list) == (19, 64));
    Ok(())
}

// Sends ten lists, and gives the pass back.
fn send_ten<R: Wait>(rt: &R, ports: &Ports<u64, Global>, mut pass: PortPass<u64>) -> PortPass<u64>
    requires { pass.queue ≡ ports.now.queue }
    ensures queue { result.queue ≡ ports.now.queue }
    ensures port { result.port ≡ pass.port }
{
    for list in 0..10u64 {
        let _ = ports.submit(rt, &mut pass, list);
    }
    pass
}

// Two threads send ten lists each.
fn send_by_two<R: Threads + Wait + Sync>(
    rt: &R,
    ports: &Ports<u64, Global>,
    one: PortPass<u64>,
    other: PortPass<u64>,
) -> (PortPass<u64>, PortPass<u64>)
    requires { (one.queue ≡ ports.now.queue) × (other.queue ≡ ports.now.queue) }
    ensures { (result.0.queue ≡ ports.now.queue) × (result.0.port ≡ one.port) × (result.1.queue ≡ ports.now.queue) × (result.1.port ≡ other.port) }
{
    thread::join(
        rt,
        move ||
            requires { one.queue ≡ ports.now.queue }
            ensures { (result.queue ≡ ports.entry.now.queue) × (result.port ≡ one.port) }
        { send_ten(rt, ports, one) },
        move ||
            requires { other.queue ≡ ports.now.queue }
            ensures { (result.queue ≡ ports.entry.now.queue) × (result.port ≡ other.port) }
        { send_ten(rt, ports, other) },
    )
}

// Takes forty lists, whose numbers go up by one at each port.
fn take_forty<R: Wait + Abort>(rt: &R, ports: &Ports<u64, Global>, drain: &mut DrainPass<u64>)
    requires { drain.old.queue ≡ ports.now.queue }
    ensures { drain.new.queue ≡ ports.now.queue }
{
    let mut due = [0u64; 4];
    for _ in 0..40u32 {
        let Some(next) = ports.next(rt, drain) else {
            panic!(rt; "forty were sent")
        };
        let port = next.port as usize;
        assert!(rt; (next.number, next.list) == (due[port], due[port]));
        assert!(rt; next.number < 10);
        due[port] = next.number + 1;
    }
    assert!(rt; due == [10; 4]);
}

#[test]
fn four_threads(rt: HostRuntime) -> Result<(), Fail> {
    let made = Ports::<u64, Global>::new(rt.alloc())?;
    let passes = made.1;
    let ports = made.0;
    let mut drain = made.2;
    let [zero, one, two, three] = passes;
    let all = &ports;
    let handle = &rt;
    let ((zero, one), (two, three)) = thread::join(
        handle,
        move ||
            requires { (zero.queue ≡ all.now.queue) × (one.queue ≡ all.now.queue) }
            ensures { (result.0.queue ≡ all.entry.now.queue) × (result.0.port ≡ zero.port) × (result.1.queue ≡ all.entry.now.queue) × (result.1.port ≡ one.port) }
        { send_by_two(handle, all, zero, one) },
        move ||
            requires { (two.queue ≡ all.now.queue) × (three.queue ≡ all.now.queue) }
            ensures { (result.0.queue ≡ all.entry.now.queue) × (result.0.port ≡ two.port) × (result.1.queue ≡ all.entry.now.queue) × (result.1.port ≡ three.port) }
        { send_by_two(handle, all, two, three) },
    );
    take_forty(handle, all, &mut drain);
    let settled = ports.settle([zero, one, two, three], drain);
    assert!(rt; settled.ok() == Some([10; 4]));
    Ok(())
}

#[test]
fn each_growth_refused(rt: HostRuntime) {
    for n in 1..5u64 {
        let alloc = Refusing::new(rt.alloc(), n);
        let refused = Ports::<u32, &Refusing<Global>>::new(&alloc).err();
        assert!(rt; refused == Some(GfxError::OutOfMemory), "growth {n}");
        assert!(rt; alloc.refused() && alloc.count() == n);
    }
    let alloc = Refusing::new(rt.alloc(), 0);
    assert!(rt; Ports::<u32, &Refusing<Global>>::new(&alloc).is_ok());
    assert!(rt; alloc.count() == 4);
}
