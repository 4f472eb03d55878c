//! What no script reaches: the execution of submissions, the calls that take a number of threads, each call as a method,
//! executions that wait, and each growth refused in turn, behind which the context goes on. Worked scenes run from bytes to bytes in the gallery.

mod growths;
mod methods;
mod next;
mod threads;
mod waiting;

use cmdlist::CommandList;
use gfxspec::GfxError;
use std::alloc::Global;
use test_tools::{Call, list_of};

/// A list that clears the colours.
fn clearing(alloc: Global) -> Result<CommandList<Global>, GfxError> {
    list_of(alloc, &[Call::ClearColor([1, 2, 3, 4])])
}
