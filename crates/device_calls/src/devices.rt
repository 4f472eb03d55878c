//! Devices.

ghost use Rattle.std.specs.Prelude.{ℕ, ◌≡◌, ◌≢◌, ◌<◌, [], true, false, is_none, Some, None, IfSome, OnOk, OnErr, IfOk, if◌then◌else◌};
ghost use Rattle.gfxspec.specs.Recorded.{queries_open};
ghost use Rattle.gfxspec.specs.Refusals.{AnswersBy, flush_rows, pixel_rows, query_rows};
ghost use Rattle.tileblock.specs.Surface.{size_rows};
ghost use Rattle.meaning.specs.Standing.{IsNew};
ghost use Rattle.immediate.specs.Held.{Runs, Enqueues, context_of, shown, answered};
ghost use Rattle.device_calls.specs.Answers.{answer_of, ByHandle, pixel_told};

use crate::numbers::told;
use gfxspec::{GfxError, Pixel};
use handles::{DeviceHandle, ListHandle};
use immediate::ImmediateContext;
use std::alloc::Global;

/// What a pixel holds.
#[repr(C)]
#[derive(Clone, Copy)]
pub struct PixelTold {
    pub depth: u32,
    pub red: u8,
    pub green: u8,
    pub blue: u8,
    pub alpha: u8,
    pub stencil: u8,
}

/// A pixel as C reads it.
fn told_pixel(held: &Pixel) -> PixelTold
    ensures { result ≡ pixel_told held.now }
{
    PixelTold {
        depth: held.ds.depth,
        red: held.rgba[0],
        green: held.rgba[1],
        blue: held.rgba[2],
        alpha: held.rgba[3],
        stencil: held.ds.stencil,
    }
}

/// A new device in a block of the heap.
fn create(alloc: Global, width: u32, height: u32) -> Result<Box<ImmediateContext<Global>>, GfxError>
    ensures answer { AnswersBy (size_rows (record { width = width; height = height })) result }
    ensures size { IfOk result (λ d. d.value.surface.size ≡ record { width = width; height = height }) }
    ensures new { IfOk result (λ d. IsNew d.value.surface.size (context_of d.value)) }
{
    let context = ImmediateContext::new(alloc, width, height)?;
    Ok(Box::new(alloc, context)?)
}

/// A device with a new target, of a size in pixels. Refused with TargetSize, OutOfMemory, and then the handle is as it was.
#[unsafe(no_mangle)]
pub extern "C" fn yz_handle_device_create(
    alloc: Global,
    device: &mut DeviceHandle,
    width: u32,
    height: u32,
) -> u32
    requires { device.old.value ≡ None }
    ensures answer { AnswersBy (size_rows (record { width = width; height = height })) (answer_of result) }
    ensures held { OnOk (answer_of result) (is_none device.new.value ≡ false) }
    ensures new { OnOk (answer_of result) (IfSome device.new.value (λ d. IsNew (record { width = width; height = height }) (context_of d))) }
    ensures refused { OnErr (answer_of result) (device.new ≡ device.old) }
{
    match create(alloc, width, height) {
        Ok(context) => {
            device.put(context);
            0
        }
        Err(refusal) => refusal.number(),
    }
}

/// Gives a device up, with its memory.
#[unsafe(no_mangle)]
pub extern "C" fn yz_handle_device_destroy(alloc: Global, device: &mut DeviceHandle)
    requires { is_none device.old.value ≡ false }
    ensures { device.new.value ≡ None }
{
    drop(device.take(alloc));
}

/// Runs the pending commands. Refused with QueryOpen, OutOfMemory.
#[unsafe(no_mangle)]
pub extern "C" fn yz_handle_device_flush(alloc: Global, device: &mut DeviceHandle) -> u32
    requires { is_none device.old.value ≡ false }
    ensures { ByHandle device.old.value device.new.value (λ old new. Runs (flush_rows (queries_open old.pending)) [] true old new (answer_of result)) }
{
    let mut context = device.take(alloc);
    let answer = told(context.flush_alone());
    device.put(context);
    answer
}

/// Executes a list behind the pending commands: both run now, or wait for a call that asks for what they leave. The list is as it
/// was. Refused with QueryOpen, OutOfMemory.
#[unsafe(no_mangle)]
pub extern "C" fn yz_handle_device_execute(
    alloc: Global,
    device: &mut DeviceHandle,
    list: &mut ListHandle,
    restore: bool,
) -> u32
    requires device { is_none device.old.value ≡ false }
    requires list { is_none list.old.value ≡ false }
    ensures ran { ByHandle device.old.value device.new.value (λ old new.
        IfSome list.old.value (λ commands. Enqueues (flush_rows (queries_open old.pending)) commands restore old new (answer_of result))) }
    ensures same { list.new.value ≡ list.old.value }
{
    let mut context = device.take(alloc);
    let commands = list.take(alloc);
    let answer = told(context.enqueue_execution_alone(&commands, restore));
    device.put(context);
    list.put(commands);
    answer
}

/// What a pixel holds after all accepted commands. Refused with PixelRange, QueryOpen, OutOfMemory, and then nothing is told.
#[unsafe(no_mangle)]
pub extern "C" fn yz_handle_device_pixel(
    alloc: Global,
    device: &mut DeviceHandle,
    x: u32,
    y: u32,
    pixel: &mut PixelTold,
) -> u32
    requires { is_none device.old.value ≡ false }
    ensures ran { ByHandle device.old.value device.new.value (λ old new. Runs (pixel_rows old.surface.size (queries_open old.pending) x y) [] true old new (answer_of result)) }
    ensures value { OnOk (answer_of result) (IfSome device.old.value (λ old. pixel.new ≡ pixel_told (shown old x y))) }
    ensures refused { OnErr (answer_of result) (pixel.new ≡ pixel.old) }
{
    let mut context = device.take(alloc);
    let asked = context.pixel_alone(x, y);
    device.put(context);
    match asked {
        Ok(held) => {
            *pixel = told_pixel(&held);
            0
        }
        Err(refusal) => refusal.number(),
    }
}

/// The count of a query. Refused with QueryNumber, QueryOpen, NotIssued, OutOfMemory, and then nothing is told.
#[unsafe(no_mangle)]
pub extern "C" fn yz_handle_device_get_data(
    alloc: Global,
    device: &mut DeviceHandle,
    query: u32,
    count: &mut u64,
) -> u32
    requires { is_none device.old.value ≡ false }
    ensures ran { ByHandle device.old.value device.new.value (λ old new. Runs (query_rows (queries_open old.pending) (answered old query) query) [] true old new (answer_of result)) }
    ensures value { OnOk (answer_of result) (IfSome device.old.value (λ old. Some count.new ≡ answered old query)) }
    ensures refused { OnErr (answer_of result) (count.new ≡ count.old) }
{
    let mut context = device.take(alloc);
    let asked = context.get_data_alone(query);
    device.put(context);
    match asked {
        Ok(told) => {
            *count = told;
            0
        }
        Err(refusal) => refusal.number(),
    }
}
