//! Executions that wait: calls are refused as where nothing waits, nothing is lost by it, and what doesn't fit runs.

use cmdlist::{CommandList, DeferredContext, DeviceContext};
use gfxspec::GfxError;
use immediate::ImmediateContext;
use std::alloc::{Allocator, Global};
use std::test::Fail;
use test_tools::{Call, list_of, record_all};

/// A context of one pixel, with an execution that waits, a clear behind it, and query 0 open.
fn with_query_open(alloc: Global) -> Result<ImmediateContext<Global>, GfxError> {
    let list = list_of(alloc, &[Call::ClearColor([1; 4])])?;
    let mut context = ImmediateContext::new(alloc, 1, 1)?;
    context.enqueue_execution_alone(&list, true)?;
    record_all(&mut context, &[Call::ClearColor([2; 4]), Call::Begin(0)])?;
    Ok(context)
}

/// How many of the calls that run or execute are refused since a query is open.
fn refused_calls(context: &mut ImmediateContext<Global>, list: &CommandList<Global>) -> u32 {
    let mut refused = 0u32;
    for answer in [
        context.flush_alone(),
        context.execute_alone(list, true),
        context.enqueue_execution_alone(list, false),
        context.examine_pixel(0, 0, 0),
    ] {
        if answer == Err(GfxError::QueryOpen) {
            refused = refused.wrapping_add(1);
        }
    }
    refused
}

// A query that is open refuses each call that runs, also where executions wait, and then everything is there.
#[test]
fn an_open_query_refuses_while_executions_wait(rt: HostRuntime) -> Result<(), Fail> {
    let alloc: Global = rt.alloc();
    let mut context = with_query_open(alloc)?;
    let list = list_of(alloc, &[Call::ClearColor([3; 4])])?;
    assert!(rt; refused_calls(&mut context, &list) == 4);
    assert!(rt; context.pixel_alone(0, 0) == Err(GfxError::QueryOpen));
    context.end(0)?;
    assert!(rt; context.get_data_alone(0)? == 0);
    assert!(rt; context.pixel_alone(0, 0)?.rgba == [2; 4]);
    Ok(())
}

/// A list of 33,000 clears, two of which are more than one compiled list names.
fn clears<A: Allocator + Copy>(alloc: A) -> Result<CommandList<A>, GfxError> {
    let mut context = DeferredContext::new(alloc);
    for shade in 0..33_000u32 {
        context.clear_color([(shade % 256) as u8; 4])?;
    }
    context.finish(false)
}

// What doesn't fit behind what waits runs it first. The last shade is the remainder of 32,999 by 256.
#[test]
fn more_clears_than_one_run_names(rt: HostRuntime) -> Result<(), Fail> {
    let alloc: Global = rt.alloc();
    let list = clears(alloc)?;
    let mut context = ImmediateContext::new(alloc, 1, 1)?;
    context.enqueue_execution_alone(&list, true)?;
    context.enqueue_execution_alone(&list, true)?;
    assert!(rt; context.pixel_alone(0, 0)?.rgba == [231; 4]);
    context.execute_alone(&list, true)?;
    context.execute_alone(&list, true)?;
    assert!(rt; context.pixel_alone(0, 0)?.rgba == [231; 4]);
    Ok(())
}
