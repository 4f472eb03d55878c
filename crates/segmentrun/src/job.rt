//! The windows of segments as a job.

ghost use Rattle.std.specs.Prelude.{◌≡◌, ◌≤◌, ◌*◌, length, take, drop, IsTrue};
ghost use Rattle.gfxspec.specs.Limits.{is_size};
ghost use Rattle.segmentrun.specs.Windows.{window_of};

use crate::compiling::compile_window;
use binner::{Compiled, Segment};
use gfxspec::{GfxError, Size};
use std::alloc::Allocator;
use std::ops::Range;
use tilecore::TileJob;

/// The windows of a run's segments, as a job: each is compiled by itself. Those from a first one on up to a last one run.
#[derive(Drop)]
pub struct SegmentJob<A: Allocator> {
    pub(crate) alloc: A,
    segments: Vec<Segment<A>, A>,
    first: usize,
    count: usize,
    /// How many segments a window has; the last may have fewer.
    width: usize,
    windows: u32,
    pub(crate) results: [bool; 64],
    pub(crate) size: Size,
    ghost sized: { IsTrue (is_size size) },
    ghost few: { windows ≤ 16384 },
    ghost whole: { length (take count (drop first segments.items)) ≤ windows * width },
}

/// A window that waits.
#[derive(Drop)]
pub struct OpenWindow {
    number: u32,
}

/// A window that was compiled, or for which there was no memory.
#[derive(Drop)]
pub struct DoneWindow<A: Allocator> {
    number: u32,
    compiled: Option<Compiled<A>>,
}

/// How many segments a window has, where so many work beside the caller: there is a window for each. Of more windows each tile
/// would run more lists, and each list costs it a few words.
fn width_for(segments: usize, workers: u32) -> usize
    requires { workers ≤ 15 }
    ensures some { 1 ≤ result }
    ensures enough { segments ≤ 16 * result }
{
    segments.div_ceil(workers as usize + 1).max(1)
}

/// How many windows of that width the segments have.
fn windows_of(segments: usize, width: usize) -> u32
    requires some { 1 ≤ width }
    requires enough { segments ≤ 16 * width }
    ensures whole { segments ≤ result * width }
    ensures some { 1 ≤ result }
    ensures few { result ≤ 16 }
{
    segments.div_ceil(width).max(1) as u32
}

/// So many segments from one on, as far as there are any.
fn part_of<A: Allocator>(segments: &[Segment<A>], first: usize, count: usize) -> &[Segment<A>]
    ensures { result.now ≡ take count (drop first segments.now) }
{
    let behind = &segments[first.min(segments.len())..];
    &behind[..count.min(behind.len())]
}

/// The segments of a window.
fn of_window<A: Allocator>(segments: &[Segment<A>], width: usize, number: u32) -> &[Segment<A>]
    ensures { result.now ≡ window_of width number segments.now }
{
    let first = width.saturating_mul(number as usize).min(segments.len());
    part_of(segments, first, width)
}

impl<A: Allocator> SegmentJob<A> {
    ghost use Rattle.std.specs.Prelude.{◌≡◌};
    ghost use Rattle.segmentrun.specs.Running.{running};

    /// The segments that run.
    pub(crate) fn running(&self) -> &[Segment<A>]
        ensures { result.now ≡ running self.now }
    {
        part_of(self.segments.as_slice(), self.first, self.count)
    }

    /// All segments.
    pub fn into_segments(self) -> Vec<Segment<A>, A>
        ensures { result.items ≡ self.segments.items }
    {
        self.segments
    }
}

impl<A: Allocator + Copy> SegmentJob<A> {
    ghost use Rattle.std.specs.Prelude.{◌≡◌, ◌≤◌, ◌-◌, take, drop, IsTrue};
    ghost use Rattle.gfxspec.specs.Limits.{is_size};
    ghost use Rattle.segmentrun.specs.Running.{running};

    /// The windows of the segments of these places, as far as there are any, for as many workers beside the caller.
    pub fn new(
        alloc: A,
        segments: Vec<Segment<A>, A>,
        places: Range<usize>,
        size: Size,
        results: &[bool; 64],
        workers: u32,
    ) -> SegmentJob<A>
        requires size { IsTrue (is_size size) }
        requires workers { workers ≤ 15 }
        ensures size { result.size ≡ size }
        ensures results { result.results ≡ results.now }
        ensures segments { result.segments.items ≡ segments.items }
        ensures running { running result ≡ take (places.end - places.start) (drop places.start segments.items) }
        ensures some { 1 ≤ result.windows }
    {
        let first = places.start;
        let count = places.end.saturating_sub(first);
        let length = part_of(segments.as_slice(), first, count).len();
        let width = width_for(length, workers);
        let windows = windows_of(length, width);
        SegmentJob {
            alloc,
            segments,
            first,
            count,
            width,
            windows,
            results: *results,
            size,
        }
    }
}

impl OpenWindow {
    ghost use Rattle.std.specs.Prelude.{◌≡◌};

    /// The window of that number.
    pub(crate) fn new(number: u32) -> OpenWindow
        ensures { result.number ≡ number }
    {
        OpenWindow { number }
    }
}

impl<A: Allocator> DoneWindow<A> {
    ghost use Rattle.std.specs.Prelude.{◌≡◌, IfOk, IfErr, Some};
    ghost use Rattle.gfxspec.specs.declared.error.GfxError.TheVariants.{OutOfMemory};

    /// The compiled list. Refused where there was no memory for it.
    pub(crate) fn into_list(self) -> Result<Compiled<A>, GfxError>
        ensures list { IfOk result (λ list. self.compiled ≡ Some list) }
        ensures memory { IfErr result (λ e. e ≡ OutOfMemory) }
    {
        let DoneWindow {
            number: _,
            compiled,
        } = self;
        match compiled {
            Some(compiled) => Ok(compiled),
            None => Err(GfxError::OutOfMemory),
        }
    }
}

impl<A: Allocator + Copy + Send> TileJob for SegmentJob<A> {
    type Open = OpenWindow;

    type Done = DoneWindow<A>;

    ghost use Rattle.std.specs.Prelude.{◌≡◌, ◌<◌, IfSome};
    ghost use Rattle.cmdlist.specs.Drawable.{told};
    ghost use Rattle.binner.specs.Segments.{cut_items};
    ghost use Rattle.segmentrun.specs.Windows.{window_of, IsCompiled};
    ghost use Rattle.segmentrun.specs.Running.{running};

    ghost tile_count = { λ job. job.windows };

    ghost issue_count = { λ job. 0 };

    ghost tile_number = { λ window. window.number };

    ghost done_number = { λ done. done.number };

    ghost done_count = { λ done issue. 0 };

    ghost fits = { λ job window. window.number < job.windows };

    ghost gives = { λ job window done. (done.number ≡ window.number)
        × IfSome done.compiled (IsCompiled job.size
        (cut_items (told job.results) (window_of job.width window.number (running job)))) };

    fn tiles(&self) -> u32 {
        self.windows
    }

    fn issues(&self) -> u32 {
        0
    }

    fn number(window: &OpenWindow) -> u32
        ensures { result ≡ window.now.number }
    {
        window.number
    }

    fn number_done(done: &DoneWindow<A>) -> u32
        ensures { result ≡ done.now.number }
    {
        done.number
    }

    fn count(_done: &DoneWindow<A>, _issue: u32) -> u64
        ensures { result ≡ 0 }
    {
        0
    }

    fn run(&self, window: OpenWindow) -> DoneWindow<A> {
        let OpenWindow { number } = window;
        let segments = of_window(self.running(), self.width, number);
        let compiled = compile_window(self.alloc, segments, self.size, &self.results, None);
        DoneWindow {
            number,
            compiled: compiled.ok(),
        }
    }

    ghost use Rattle.std.proofs.Common.{zero-le};

    ghost few_tiles = { λ job. job.few };

    ghost few_issues = { λ job. zero-le };

    ghost in_range = { λ job window h. h };

    ghost keeps_number = { λ job window done h. h.0 };

    ghost small_counts = { λ job window done issue h less. zero-le };
}
