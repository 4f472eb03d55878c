//! Deferred contexts and lists.

ghost use Rattle.std.specs.Prelude.{◌≡◌, [], false, is_none, Some, None, OnOk, OnErr, IfOk, IfErr, IfSome};
ghost use Rattle.gfxspec.specs.declared.error.GfxError.TheVariants.{OutOfMemory};
ghost use Rattle.gfxspec.specs.Recorded.{after_finish};
ghost use Rattle.gfxspec.specs.Refusals.{AnswersBy, finish_rows};
ghost use Rattle.device_calls.specs.Answers.{answer_of, ByHandle};

use crate::numbers::NO_MEMORY;
use cmdlist::{CommandList, DeferredContext};
use gfxspec::GfxError;
use handles::{ContextHandle, ListHandle};
use std::alloc::Global;

/// A deferred context that has recorded nothing. Refused with OutOfMemory alone, and then the handle is as it was.
#[unsafe(no_mangle)]
pub extern "C" fn yz_handle_context_create(alloc: Global, handle: &mut ContextHandle) -> u32
    requires { handle.old.value ≡ None }
    ensures answer { AnswersBy [] (answer_of result) }
    ensures new { OnOk (answer_of result) (handle.new.value ≡ Some []) }
    ensures refused { OnErr (answer_of result) (handle.new ≡ handle.old) }
{
    match Box::new(alloc, DeferredContext::new(alloc)) {
        Ok(context) => {
            handle.put(context);
            0
        }
        Err(_) => NO_MEMORY,
    }
}

/// Gives a deferred context up, with its memory.
#[unsafe(no_mangle)]
pub extern "C" fn yz_handle_context_destroy(alloc: Global, handle: &mut ContextHandle)
    requires { is_none handle.old.value ≡ false }
    ensures { handle.new.value ≡ None }
{
    drop(handle.take(alloc));
}

/// Gives a list up, with its memory.
#[unsafe(no_mangle)]
pub extern "C" fn yz_handle_list_destroy(alloc: Global, list: &mut ListHandle)
    requires { is_none list.old.value ≡ false }
    ensures { list.new.value ≡ None }
{
    drop(list.take(alloc));
}

/// A list without commands, in a block of the heap. Refused with OutOfMemory alone.
fn empty_list(alloc: Global) -> Result<Box<CommandList<Global>>, GfxError>
    ensures { IfErr result (λ e. e ≡ OutOfMemory) }
{
    let mut fresh = DeferredContext::new(alloc);
    let list = fresh.finish(false)?;
    Ok(Box::new(alloc, list)?)
}

/// The list that was recorded, in a block of the heap.
fn finished(
    alloc: Global,
    context: &mut DeferredContext<Global>,
    restore: bool,
) -> Result<Box<CommandList<Global>>, GfxError>
    ensures answer { AnswersBy (finish_rows context.old) result }
    ensures list { IfOk result (λ list. list.value ≡ context.old) }
    ensures next { OnOk result (context.new ≡ after_finish restore context.old) }
    ensures err { OnErr result (context.new ≡ context.old) }
{
    if context.has_open_queries() {
        return Err(GfxError::QueryLeftOpen);
    }
    let mut list = empty_list(alloc)?;
    *list = context.finish(restore)?;
    Ok(list)
}

/// Finishes the list that a deferred context has recorded, and begins the next, with the kept state where `restore` says so. Refused
/// with QueryLeftOpen, OutOfMemory, and then the handle of the list is as it was.
#[unsafe(no_mangle)]
pub extern "C" fn yz_handle_context_finish(
    alloc: Global,
    handle: &mut ContextHandle,
    restore: bool,
    list: &mut ListHandle,
) -> u32
    requires handle { is_none handle.old.value ≡ false }
    requires list { list.old.value ≡ None }
    ensures answer { IfSome handle.old.value (λ old. AnswersBy (finish_rows old) (answer_of result)) }
    ensures list { OnOk (answer_of result) (list.new.value ≡ handle.old.value) }
    ensures next { OnOk (answer_of result) (ByHandle handle.old.value handle.new.value (λ old new. new ≡ after_finish restore old)) }
    ensures refused { OnErr (answer_of result) ((handle.new.value ≡ handle.old.value) × (list.new ≡ list.old)) }
{
    let mut context = handle.take(alloc);
    let made = finished(alloc, &mut *context, restore);
    handle.put(context);
    match made {
        Ok(done) => {
            list.put(done);
            0
        }
        Err(refusal) => refusal.number(),
    }
}
