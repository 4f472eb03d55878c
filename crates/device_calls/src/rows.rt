//! Rows of pixels, into the caller's memory.

ghost use Rattle.std.specs.Prelude.{ℕ, ◌≡◌, ◌≢◌, ◌+◌, ◌%◌, ◌<◌, ◌≤◌, [], true, false, is_none, length, slice_index, slice_index_or, OnOk, OnErr, IfSome};
ghost use Rattle.std.specs.Int.{w32, to_le_bytes};
ghost use Rattle.gfxspec.specs.Recorded.{queries_open};
ghost use Rattle.tileblock.specs.Surface.{IsWhole, pixel_of};
ghost use Rattle.immediate.specs.Held.{Runs, shown};
ghost use Rattle.device_calls.specs.Answers.{answer_of, ByHandle};
ghost use Rattle.device_calls.specs.Rows.{row_rows, cell_of, color_cell, no_cell};

use crate::numbers::told;
use gfxspec::GfxError;
use handles::DeviceHandle;
use immediate::ImmediateContext;
use std::alloc::Global;
use tileblock::Target;

/// A colour's four bytes, in the order in which they lie.
#[repr(C)]
#[derive(Clone, Copy)]
pub struct Cell {
    pub first: u8,
    pub second: u8,
    pub third: u8,
    pub fourth: u8,
}

/// A colour as it lies in memory: red, green, blue, alpha, or blue, green, red, alpha.
fn cell_of(color: u32, bgra: bool) -> Cell
    ensures { result ≡ cell_of bgra (to_le_bytes w32 color) }
{
    let [red, green, blue, alpha] = color.to_le_bytes();
    let (first, third) = if bgra { (blue, red) } else { (red, blue) };
    Cell {
        first,
        second: green,
        third,
        fourth: alpha,
    }
}

/// Eight colours as they lie in memory, in an order that is known to the loop.
#[inline(always)]
fn cells_in_order(colors: [u32; 8], bgra: bool) -> [Cell; 8]
    ensures { (j : ℕ) → j < 8 → slice_index_or result j no_cell ≡ cell_of bgra (to_le_bytes w32 (slice_index colors j)) }
{
    let none = Cell {
        first: 0,
        second: 0,
        third: 0,
        fourth: 0,
    };
    let mut cells = [none; 8];
    for j in 0..8usize {
        cells[j] = cell_of(colors[j], bgra);
    }
    cells
}

/// Eight colours as they lie in memory.
fn cells_of(colors: [u32; 8], bgra: bool) -> [Cell; 8]
    ensures { (j : ℕ) → j < 8 → slice_index_or result j no_cell ≡ cell_of bgra (to_le_bytes w32 (slice_index colors j)) }
{
    if bgra {
        cells_in_order(colors, true)
    } else {
        cells_in_order(colors, false)
    }
}

/// Of the eight values of which one is of column x, stores those from that one on into a row, from a place on and as
/// far as the row goes. How many they are.
fn store_together<T: Copy>(row: &mut [T], at: usize, eight: &[T; 8], x: u32) -> usize
    requires { at < length row.old }
    ensures some { 0 < result }
    ensures inside { x % 8 + result ≤ 8 }
    ensures fits { at + result ≤ length row.old }
    ensures len { length row.new ≡ length row.old }
    ensures before { (d : _) (k : ℕ) → k < at → slice_index_or row.new k d ≡ slice_index_or row.old k d }
    ensures here { (d : _) (j : ℕ) → j < result → slice_index_or row.new (at + j) d ≡ slice_index_or eight.now (x % 8 + j) d }
{
    let from = (x % 8) as usize;
    let count = (8 - from).min(row.len() - at);
    if count == 8 {
        row[at..at + 8].copy_from_slice(eight);
        return 8;
    }
    for j in 0..count {
        row[at + j] = eight[from + j];
    }
    count
}

/// The colours of a part of a row.
fn store_colors(target: &Target<Global>, y: u32, left: u32, bgra: bool, row: &mut [Cell])
    requires whole { IsWhole target.now }
    requires y { y < target.now.size.height }
    requires fits { left + length row.old ≤ target.now.size.width }
    ensures pixels { (k : ℕ) → k < length row.new → slice_index_or row.new k no_cell ≡ color_cell bgra (pixel_of target.now (left + k) y) }
{
    let width = target.size().width;
    prove!(left as usize + row.len() <= width as usize);
    let mut k = 0;
    while k < row.len() {
        let x = left + k as u32;
        let cells = cells_of(target.colors(x, y), bgra);
        k += store_together(row, k, &cells, x);
    }
}

/// Runs the pending commands, where a part of a row is inside.
fn ready(
    context: &mut ImmediateContext<Global>,
    y: u32,
    left: u32,
    count: usize,
) -> Result<(), GfxError>
    ensures runs { Runs (row_rows context.old.surface.size (queries_open context.old.pending) y left count) [] true context.old context.new result }
    ensures inside { OnOk result ((y < context.old.surface.size.height) × (left + count ≤ context.old.surface.size.width)) }
{
    let size = context.target().size();
    if y >= size.height || left > size.width || count > (size.width - left) as usize {
        return Err(GfxError::PixelRange);
    }
    context.flush_alone()
}

/// The colours of a part of a row, after all accepted commands.
fn read_colors(
    context: &mut ImmediateContext<Global>,
    y: u32,
    left: u32,
    bgra: bool,
    row: &mut [Cell],
) -> Result<(), GfxError>
    ensures runs { Runs (row_rows context.old.surface.size (queries_open context.old.pending) y left (length row.new)) [] true context.old context.new result }
    ensures pixels { OnOk result ((k : ℕ) → k < length row.new → slice_index_or row.new k no_cell ≡ color_cell bgra (shown context.old (left + k) y)) }
    ensures refused { OnErr result (row.new ≡ row.old) }
{
    ready(context, y, left, row.len())?;
    store_colors(context.target(), y, left, bgra, row);
    Ok(())
}

/// The colours of a part of a row, after all accepted commands; it runs the pending ones. Refused with PixelRange where not all of
/// its pixels are the target's, QueryOpen, OutOfMemory, and then the row is as it was.
#[unsafe(no_mangle)]
pub extern "C" fn yz_handle_device_read_colors(
    alloc: Global,
    device: &mut DeviceHandle,
    y: u32,
    left: u32,
    bgra: bool,
    row: &mut [Cell],
) -> u32
    requires { is_none device.old.value ≡ false }
    ensures ran { ByHandle device.old.value device.new.value (λ old new. Runs (row_rows old.surface.size (queries_open old.pending) y left (length row.new)) [] true old new (answer_of result)) }
    ensures pixels { OnOk (answer_of result) (IfSome device.old.value (λ old. (k : ℕ) → k < length row.new → slice_index_or row.new k no_cell ≡ color_cell bgra (shown old (left + k) y))) }
    ensures refused { OnErr (answer_of result) (row.new ≡ row.old) }
{
    let mut context = device.take(alloc);
    let answer = told(read_colors(&mut *context, y, left, bgra, row));
    device.put(context);
    answer
}

/// The depths of a part of a row.
fn store_depths(target: &Target<Global>, y: u32, left: u32, row: &mut [u32])
    requires whole { IsWhole target.now }
    requires y { y < target.now.size.height }
    requires fits { left + length row.old ≤ target.now.size.width }
    ensures pixels { (k : ℕ) → k < length row.new → slice_index row.new k ≡ (pixel_of target.now (left + k) y).ds.depth }
{
    let width = target.size().width;
    prove!(left as usize + row.len() <= width as usize);
    let mut k = 0;
    while k < row.len() {
        let x = left + k as u32;
        let depths = target.depths(x, y);
        k += store_together(row, k, &depths, x);
    }
}

/// The depths of a part of a row, after all accepted commands.
fn read_depths(
    context: &mut ImmediateContext<Global>,
    y: u32,
    left: u32,
    row: &mut [u32],
) -> Result<(), GfxError>
    ensures runs { Runs (row_rows context.old.surface.size (queries_open context.old.pending) y left (length row.new)) [] true context.old context.new result }
    ensures pixels { OnOk result ((k : ℕ) → k < length row.new → slice_index row.new k ≡ (shown context.old (left + k) y).ds.depth) }
    ensures refused { OnErr result (row.new ≡ row.old) }
{
    ready(context, y, left, row.len())?;
    store_depths(context.target(), y, left, row);
    Ok(())
}

/// The depths of a part of a row, as `yz_handle_device_read_colors` reads colours.
#[unsafe(no_mangle)]
pub extern "C" fn yz_handle_device_read_depths(
    alloc: Global,
    device: &mut DeviceHandle,
    y: u32,
    left: u32,
    row: &mut [u32],
) -> u32
    requires { is_none device.old.value ≡ false }
    ensures ran { ByHandle device.old.value device.new.value (λ old new. Runs (row_rows old.surface.size (queries_open old.pending) y left (length row.new)) [] true old new (answer_of result)) }
    ensures pixels { OnOk (answer_of result) (IfSome device.old.value (λ old. (k : ℕ) → k < length row.new → slice_index row.new k ≡ (shown old (left + k) y).ds.depth)) }
    ensures refused { OnErr (answer_of result) (row.new ≡ row.old) }
{
    let mut context = device.take(alloc);
    let answer = told(read_depths(&mut *context, y, left, row));
    device.put(context);
    answer
}

/// The stencils of a part of a row.
fn store_stencils(target: &Target<Global>, y: u32, left: u32, row: &mut [u8])
    requires whole { IsWhole target.now }
    requires y { y < target.now.size.height }
    requires fits { left + length row.old ≤ target.now.size.width }
    ensures pixels { (k : ℕ) → k < length row.new → slice_index row.new k ≡ (pixel_of target.now (left + k) y).ds.stencil }
{
    let width = target.size().width;
    prove!(left as usize + row.len() <= width as usize);
    let mut k = 0;
    while k < row.len() {
        let x = left + k as u32;
        let stencils = target.stencils(x, y);
        k += store_together(row, k, &stencils, x);
    }
}

/// The stencils of a part of a row, after all accepted commands.
fn read_stencils(
    context: &mut ImmediateContext<Global>,
    y: u32,
    left: u32,
    row: &mut [u8],
) -> Result<(), GfxError>
    ensures runs { Runs (row_rows context.old.surface.size (queries_open context.old.pending) y left (length row.new)) [] true context.old context.new result }
    ensures pixels { OnOk result ((k : ℕ) → k < length row.new → slice_index row.new k ≡ (shown context.old (left + k) y).ds.stencil) }
    ensures refused { OnErr result (row.new ≡ row.old) }
{
    ready(context, y, left, row.len())?;
    store_stencils(context.target(), y, left, row);
    Ok(())
}

/// The stencils of a part of a row, as `yz_handle_device_read_colors` reads colours.
#[unsafe(no_mangle)]
pub extern "C" fn yz_handle_device_read_stencils(
    alloc: Global,
    device: &mut DeviceHandle,
    y: u32,
    left: u32,
    row: &mut [u8],
) -> u32
    requires { is_none device.old.value ≡ false }
    ensures ran { ByHandle device.old.value device.new.value (λ old new. Runs (row_rows old.surface.size (queries_open old.pending) y left (length row.new)) [] true old new (answer_of result)) }
    ensures pixels { OnOk (answer_of result) (IfSome device.old.value (λ old. (k : ℕ) → k < length row.new → slice_index row.new k ≡ (shown old (left + k) y).ds.stencil)) }
    ensures refused { OnErr (answer_of result) (row.new ≡ row.old) }
{
    let mut context = device.take(alloc);
    let answer = told(read_stencils(&mut *context, y, left, row));
    device.put(context);
    answer
}
