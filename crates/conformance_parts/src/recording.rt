//! Refused growths of a deferred context. What its calls do is proved; worked lists and limits run from bytes to bytes.

use cmdlist::{DeferredContext, DeviceContext};
use gfxspec::{GfxError, Vertex};
use refusing::Refusing;
use std::alloc::Allocator;
use std::test::Fail;
use test_tools::{Call, record_all};

const CORNER: Vertex = Vertex {
    x: 0,
    y: 0,
    z: 0,
    rgba: [9; 4],
};

/// How many commands a list has that is made of some calls.
fn finished<A: Allocator + Copy>(
    context: &mut DeferredContext<A>,
    calls: &[Call],
    restore: bool,
) -> Result<usize, GfxError> {
    record_all(context, calls)?;
    Ok(context.finish(restore)?.commands().len())
}

/// How many commands each of two lists has: vertices and a cleared target, and the next one with the kept state.
fn two_lists<A: Allocator + Copy>(alloc: A) -> Result<(usize, usize), GfxError> {
    let mut context = DeferredContext::new(alloc);
    let calls = [Call::SetVertices(&[CORNER; 3]), Call::ClearColor([1; 4])];
    let first = finished(&mut context, &calls, true)?;
    let second = finished(&mut context, &[Call::ClearColor([2; 4])], false)?;
    Ok((first, second))
}

#[test]
fn each_growth_refused_in_turn(rt: HostRuntime) {
    let ample = Refusing::new(rt.alloc(), 0);
    assert!(rt; two_lists(&ample) == Ok((2, 2)));
    let growths = ample.count();
    assert!(rt; growths >= 4);
    for n in 1..=growths {
        assert!(rt; two_lists(&Refusing::new(rt.alloc(), n)) == Err(GfxError::OutOfMemory));
    }
}

// The kept state is no call: it is refused, and nothing is changed.
#[test]
fn a_kept_state_is_refused(rt: HostRuntime) -> Result<(), Fail> {
    let mut context = DeferredContext::new(rt.alloc());
    context.finish(true)?;
    let list = context.finish(true)?;
    assert!(rt; list.commands().len() == 1);
    for command in list.commands() {
        assert!(rt; context.record(command) == Err(GfxError::OutOfMemory));
    }
    assert!(rt; context.commands().len() == 1);
    Ok(())
}
