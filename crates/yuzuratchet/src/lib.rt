//! The device as a C library: what C calls, and nothing else. `library/yuzuratchet.h` has its functions as C reads them.
//!
//! C names an area of memory by a pointer and a size. `library/yuzuratchet.c` has the areas of a call examined by
//! `yuzuratchet_examine`, as numbers, and hands on only areas that fit. From there on they are slices, whose contracts say
//! what stands in them. Memory comes from `malloc`.
#![tactic(auto)]

ghost use Rattle.std.specs.Prelude.{◌≡◌};
ghost use Rattle.yuzuratchet.specs.Areas.{misfit_of};
ghost use Rattle.yuzuratchet.specs.Telling.{DrewInC, SizedInC, HistoryInC, misfit_number};

mod areas;
mod report;

use crate::areas::misfit_of;
use crate::report::{history_told, told};
pub use areas::Area;
pub use pixelevents::EventTold;
pub use report::{HistoryReport, Report};
use std::alloc::Global;

/// The version: 10,000 times the first number, 100 times the second and the third.
#[unsafe(no_mangle)]
pub extern "C" fn yuzuratchet_version() -> u32
    ensures { result ≡ 400 }
{
    400
}

/// Why the areas of a call don't fit, by the number of the status that says so, or 0 where they fit.
#[unsafe(no_mangle)]
pub extern "C" fn yuzuratchet_examine(areas: &[Area]) -> u32
    ensures { result ≡ misfit_number (misfit_of areas.now) }
{
    misfit_of(areas) as u32
}

/// Draws a script into areas that fit.
#[unsafe(no_mangle)]
pub extern "C" fn yuzuratchet_draw_fitting(
    alloc: Global,
    script: &[u8],
    lines: &mut [u8],
    image: &mut [u8],
    report: &mut Report,
)
    ensures { DrewInC script.now lines.old lines.new image.old image.new report.new }
{
    *report = told(inmemory::draw(alloc, script, lines, image));
}

/// Tells how a script ends and how large its answer lines and its image are.
#[unsafe(no_mangle)]
pub extern "C" fn yuzuratchet_sizes_fitting(alloc: Global, script: &[u8], report: &mut Report)
    ensures { SizedInC script.now report.new }
{
    *report = told(inmemory::sizes(alloc, script));
}

/// Tells the history of a pixel of a script into an area that fits.
#[unsafe(no_mangle)]
pub extern "C" fn yuzuratchet_history_fitting(
    alloc: Global,
    script: &[u8],
    x: u32,
    y: u32,
    events: &mut [EventTold],
    report: &mut HistoryReport,
)
    ensures { HistoryInC script.now x y events.old events.new report.new }
{
    *report = history_told(inmemory::history(alloc, script, x, y, events));
}
