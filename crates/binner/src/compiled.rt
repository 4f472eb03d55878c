//! A compiled list.

ghost use Rattle.std.specs.Prelude.{◌≡◌, map, IsTrue, IfOk, IfErr, List, length, All};
ghost use Rattle.gfxspec.specs.declared.error.GfxError.TheVariants.{OutOfMemory};
ghost use Rattle.gfxspec.specs.Limits.{is_size};
ghost use Rattle.gfxspec.specs.Tiles.{tile_count};
ghost use Rattle.gfxspec.specs.Accepted.{AreAccepted};
ghost use Rattle.command.specs.Seen.{command_value};
ghost use Rattle.binmem.specs.Lists.{no_words};
ghost use Rattle.gfxspec.specs.Recorded.{issues as issues_of};
ghost use Rattle.gfxspec.specs.Commands.{Command as Call};
ghost use Rattle.gfxspec.specs.Predication.{performed};
ghost use Rattle.binner.specs.Compiled.{Compilation as Whole, IsCompilation, MeansList, CountsAreSums};
ghost use Rattle.binner.specs.Compiling.{IsFresh, compilation_of};
ghost use Rattle.cmdlist.specs.Drawable.{told};
ghost use Rattle.binner.specs.Setups.{MatchesDraw};

use crate::ahead::{DrawSetups, set_up_ahead};
use crate::compiling::{Compiling, add_commands};
use crate::entry::StateEntry;
use crate::lists::Lists;
use crate::setup::TriSetup;
use crate::table::TriangleTable;
use binmem::{Bins, SealedBins, Words};
use cmdlist::Command;
use gfxspec::{DepthStencil, GfxError, Size, TILE_SIDE, tile_count};
use std::alloc::Allocator;
use std::marker::Model;
use std::thread::Threads;

/// A list of commands, compiled for a size: words for each tile, and what their numbers name.
#[derive(Drop)]
pub struct Compiled<A: Allocator> {
    size: Size,
    issues: u32,
    bins: SealedBins<A>,
    touched: Vec<u32, A>,
    states: Vec<StateEntry, A>,
    triangles: Vec<TriSetup, A>,
    /// How many triangles are drawn: one that is drawn again counts again.
    drawn: usize,
    colors: Vec<[u8; 4], A>,
    depths: Vec<DepthStencil, A>,
}

impl<A: Allocator> Model for Compiled<A> {
    ghost use Rattle.binner.specs.Compiled.{Compilation, IsCompilation};

    ghost Value = { Compilation };

    ghost view = { λ c. record { size = c.size; issues = c.issues; numbers = c.bins; touched = c.touched.items; tables = record { states = c.states.items; triangles = c.triangles.items; colors = c.colors.items; depths = c.depths.items } } };

    ghost invariant = { λ c. IsCompilation (record { size = c.size; issues = c.issues; numbers = c.bins; touched = c.touched.items; tables = record { states = c.states.items; triangles = c.triangles.items; colors = c.colors.items; depths = c.depths.items } }) };
}

/// The pixels of a whole tile.
const TILE_PIXELS: usize = (TILE_SIDE * TILE_SIDE) as usize;

/// How many pixels of a target the rectangle round a triangle has.
fn pixels_round(triangle: &TriSetup, size: Size) -> usize {
    let bounds = triangle.bounds.rect();
    let width = bounds.right.min(size.width).saturating_sub(bounds.left);
    let height = bounds.bottom.min(size.height).saturating_sub(bounds.top);
    (width as usize).saturating_mul(height as usize)
}

/// Nothing compiled yet, with room for so many triangles. Without memory the bins come back.
pub(crate) fn nothing<A: Allocator + Copy>(
    alloc: A,
    size: Size,
    bins: Bins<A>,
    room: usize,
) -> Result<Compiling<A>, Bins<A>>
    requires size { IsTrue (is_size size) }
    requires empty { bins ≡ no_words (tile_count size) }
    ensures fresh { IfOk result IsFresh }
    ensures size { IfOk result (λ c. c.lists.size ≡ size) }
    ensures refused { IfErr result (λ back. back ≡ no_words (tile_count size)) }
{
    let Ok(counted) = Vec::from_elem(alloc, false, tile_count(size) as usize) else {
        return Err(bins);
    };
    let Ok(triangles) = TriangleTable::with_room(alloc, room) else {
        return Err(bins);
    };
    Ok(Compiling {
        lists: Lists {
            size,
            bins,
            counted,
            touched: Vec::new(alloc),
        },
        states: Vec::new(alloc),
        triangles,
        colors: Vec::new(alloc),
        depths: Vec::new(alloc),
        current: None,
        drawn: 0,
    })
}

/// The compiled list, once all its commands are added, which begin so many issues.
pub(crate) fn finished<A: Allocator + Copy>(compiling: Compiling<A>, issues: u32) -> Compiled<A>
    requires { IsCompilation (compilation_of issues compiling) }
    ensures { result ≡ compilation_of issues compiling }
{
    let Compiling {
        lists,
        states,
        triangles,
        colors,
        depths,
        current: _,
        drawn,
    } = compiling;
    Compiled {
        size: lists.size,
        issues,
        bins: lists.bins.seal(),
        touched: lists.touched,
        states,
        triangles: triangles.into_setups(),
        drawn,
        colors,
        depths,
    }
}

/// Compiles commands, some of whose draws may be set up already.
fn compile_with<A: Allocator + Copy>(
    alloc: A,
    commands: &[Command<A>],
    size: Size,
    results: &[bool; 64],
    bins: Bins<A>,
    ahead: Vec<DrawSetups<A>, A>,
) -> Result<Compiled<A>, (GfxError, Bins<A>)>
    requires accepted { AreAccepted (map command_value commands.now) }
    requires size { IsTrue (is_size size) }
    requires empty { bins ≡ no_words (tile_count size) }
    requires ahead { All (MatchesDraw commands.now size) ahead.items }
    ensures size { IfOk result (λ c. c.size ≡ size) }
    ensures issues { IfOk result (λ c. c.issues ≡ length (issues_of (map command_value commands.now))) }
    ensures means { IfOk result (λ c. MeansList (performed (told results.now) (map command_value commands.now)) c) }
    ensures refused { IfErr result (λ e. e ≡ (OutOfMemory, no_words (tile_count size))) }
{
    let mut compiling = match nothing(alloc, size, bins, 0) {
        Ok(compiling) => compiling,
        Err(back) => return Err((GfxError::OutOfMemory, back)),
    };
    match add_commands(&mut compiling, commands, results, ahead) {
        Ok(issues) => Ok(finished(compiling, issues)),
        Err(_) => Err((GfxError::OutOfMemory, compiling.lists.bins.seal().reuse())),
    }
}

/// Compiles accepted commands, read from the default state, for a target of this size, under the results that the queries
/// have before them, with empty bins of as many tiles as it has. The only error is `OutOfMemory`, with the bins, empty again
/// (Direct3D 11.3 Functional Specification, "Rasterizer Stage" and "Output Merger Stage"; tiles are this project's own).
pub fn compile<A: Allocator + Copy>(
    alloc: A,
    commands: &[Command<A>],
    size: Size,
    results: &[bool; 64],
    bins: Bins<A>,
) -> Result<Compiled<A>, (GfxError, Bins<A>)>
    requires accepted { AreAccepted (map command_value commands.now) }
    requires size { IsTrue (is_size size) }
    requires empty { bins ≡ no_words (tile_count size) }
    ensures size { IfOk result (λ c. c.size ≡ size) }
    ensures issues { IfOk result (λ c. c.issues ≡ length (issues_of (map command_value commands.now))) }
    ensures means { IfOk result (λ c. MeansList (performed (told results.now) (map command_value commands.now)) c) }
    ensures refused { IfErr result (λ e. e ≡ (OutOfMemory, no_words (tile_count size))) }
{
    compile_with(alloc, commands, size, results, bins, Vec::new(alloc))
}

/// Compiles a list as `compile` does, once threads have set up the triangles of its large draws: it may wait for them.
/// Refused with OutOfMemory alone, and then the bins come back.
pub fn compile_parallel<A: Allocator + Copy + Send + Sync, R: Threads + Sync>(
    rt: &R,
    alloc: A,
    commands: &[Command<A>],
    size: Size,
    results: &[bool; 64],
    bins: Bins<A>,
) -> Result<Compiled<A>, (GfxError, Bins<A>)>
    requires accepted { AreAccepted (map command_value commands.now) }
    requires size { IsTrue (is_size size) }
    requires empty { bins ≡ no_words (tile_count size) }
    ensures size { IfOk result (λ c. c.size ≡ size) }
    ensures issues { IfOk result (λ c. c.issues ≡ length (issues_of (map command_value commands.now))) }
    ensures means { IfOk result (λ c. MeansList (performed (told results.now) (map command_value commands.now)) c) }
    ensures refused { IfErr result (λ e. e ≡ (OutOfMemory, no_words (tile_count size))) }
{
    let Ok(ahead) = set_up_ahead(rt, alloc, commands, size, results) else {
        return Err((GfxError::OutOfMemory, bins));
    };
    compile_with(alloc, commands, size, results, bins, ahead)
}

impl<A: Allocator + Copy> Compiled<A> {
    ghost use Rattle.std.specs.Prelude.{◌≡◌, ◌<◌, ◌≤◌, length, slice_get, Some};
    ghost use Rattle.gfxspec.specs.Tiles.{tile_count};
    ghost use Rattle.binmem.specs.Lists.{no_words, words_of};
    ghost use Rattle.binner.specs.Compiled.{IsCompilation};

    /// The size that the list is compiled for.
    pub fn size(&self) -> Size
        ensures value { result ≡ self.now.size }
        ensures sound { IsCompilation self.now }
    {
        self.size
    }

    /// How many issues the list has.
    pub fn issues(&self) -> u32
        ensures value { result ≡ self.now.issues }
        ensures few { result ≤ 64 }
    {
        self.issues
    }

    /// The tiles that have words, each once.
    pub fn touched(&self) -> &[u32]
        ensures value { result.now ≡ self.now.touched }
        ensures sound { IsCompilation self.now }
    {
        self.touched.as_slice()
    }

    /// How many pixels the words of all tiles reach, by the rectangles round triangles and the tiles that clears have; so many at
    /// most are counted. Triangles that are drawn again are as large as those of the table are on the average.
    pub fn pixels_reached(&self, most: usize) -> usize
        ensures { result ≤ most }
    {
        let clears = self.colors.len().saturating_add(self.depths.len());
        let cleared = self.touched.len().saturating_mul(TILE_PIXELS);
        let mut round = 0usize;
        for triangle in &self.triangles {
            if round >= most {
                return most;
            }
            round = round.saturating_add(pixels_round(triangle, self.size));
        }
        let drawn = round.saturating_mul(self.drawn) / self.triangles.len().max(1);
        drawn
            .saturating_add(clears.saturating_mul(cleared))
            .min(most)
    }

    /// The words of a tile, as numbers.
    pub fn words(&self, tile: u32) -> Words<'_>
        requires { tile < tile_count self.now.size }
        ensures { result ≡ words_of self.now.numbers tile }
    {
        self.bins.words(tile)
    }

    /// The state entry of a number.
    pub fn state(&self, number: u16) -> &StateEntry
        requires { number < length self.now.tables.states }
        ensures { slice_get self.now.tables.states number ≡ Some result.now }
    {
        &self.states[number as usize]
    }

    /// The triangle of a number.
    pub fn tri(&self, number: u16) -> &TriSetup
        requires { number < length self.now.tables.triangles }
        ensures { slice_get self.now.tables.triangles number ≡ Some result.now }
    {
        &self.triangles[number as usize]
    }

    /// Reads a part of a triangle's record, if there is one of that number, so that its memory is on its way before it is drawn. The
    /// number that comes back is no result: a caller keeps it only so that the read is done.
    #[inline]
    pub fn prefetch(&self, number: u16) -> u64 {
        match self.triangles.get(number as usize) {
            Some(triangle) => {
                let middle = u64::from(triangle.greatest_depth);
                triangle.plane.prefetch() ^ middle ^ triangle.edges.prefetch()
            }
            None => 0,
        }
    }

    /// The colour of a number.
    pub fn color(&self, number: u16) -> [u8; 4]
        requires { number < length self.now.tables.colors }
        ensures { slice_get self.now.tables.colors number ≡ Some result }
    {
        self.colors[number as usize]
    }

    /// The depth and the stencil value of a number.
    pub fn depth_stencil(&self, number: u16) -> DepthStencil
        requires { number < length self.now.tables.depths }
        ensures { slice_get self.now.tables.depths number ≡ Some result }
    {
        self.depths[number as usize]
    }

    /// The bins, empty, for another list.
    pub fn into_bins(self) -> Bins<A>
        ensures { result ≡ no_words (tile_count self.size) }
    {
        self.bins.reuse_tiles(self.touched.as_slice())
    }
}

/// The count of an issue over the target is the sum of what the tiles' programs count.
pub fn programs_count_the_target()
    ensures { (commands : List Call) (c : Whole) → MeansList commands c → CountsAreSums commands c }
{}
