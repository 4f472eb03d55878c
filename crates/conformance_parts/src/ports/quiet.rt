//! What takes no memory: sending, taking and settling, however many submissions.

ghost use Rattle.std.specs.Prelude.{◌≡◌};

use gfxspec::GfxError;
use port::{DrainPass, PortPass, Ports};
use refusing::Refusing;
use std::alloc::{Allocator, Global};
use std::process::Abort;
use std::sync::Wait;
use test_tools::apart;

// Sends a list and takes it out, so many times; then sends 65 of which the last doesn't fit, and takes 64 and finds no more.
fn send_and_take<R: Wait, A: Allocator>(
    rt: &R,
    ports: &Ports<u64, A>,
    pass: &mut PortPass<u64>,
    drain: &mut DrainPass<u64>,
    times: u64,
)
    requires { (pass.old.queue ≡ ports.now.queue) × (drain.old.queue ≡ ports.now.queue) }
    ensures { (pass.new.queue ≡ ports.now.queue) × (pass.new.port ≡ pass.old.port) × (drain.new.queue ≡ ports.now.queue) }
{
    for list in 0..times {
        let _ = ports.submit(rt, pass, list);
        let _ = ports.next(rt, drain);
    }
    for list in 0..65u64 {
        let _ = ports.submit(rt, pass, list);
    }
    for _ in 0..65u32 {
        let _ = ports.next(rt, drain);
    }
}

// What each port sent, after so many lists through one of them.
fn sent_by_each<R: Wait, A: Allocator + Clone>(
    rt: &R,
    alloc: A,
    times: u64,
) -> Result<Option<[u64; 4]>, GfxError> {
    let made = Ports::<u64, A>::new(alloc)?;
    let passes = made.1;
    let ports = made.0;
    let mut drain = made.2;
    let (zero, mut one, two, three) = apart(passes);
    send_and_take(rt, &ports, &mut one, &mut drain, times);
    Ok(ports.settle([zero, one, two, three], drain).ok())
}

// The queue takes memory four times.
fn assert_ports_are_quiet<R: Abort + Wait>(rt: &R, alloc: Global, times: u64, sent: u64) {
    let counting = Refusing::new(alloc, 0);
    let came = sent_by_each(rt, &counting, times);
    assert!(rt; matches!(came, Ok(Some(each)) if each == [0, sent, 0, 0]));
    assert!(rt; counting.count() == 4);
}

#[test]
fn ports(rt: HostRuntime) {
    assert_ports_are_quiet(&rt, rt.alloc(), 3, 67);
    assert_ports_are_quiet(&rt, rt.alloc(), 3_000, 3_064);
}
