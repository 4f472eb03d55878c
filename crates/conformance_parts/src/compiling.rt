//! Worked words, clears that hide what stands before them, and refused growths.

ghost use Rattle.std.specs.Prelude.{◌≡◌, ◌<◌, ◌≤◌, length, unsigned_abs, IfOk};
ghost use Rattle.gfxspec.specs.Tiles.{tile_count};

use binmem::Bins;
use binner::{Compiled, compile};
use cmdlist::{CommandList, DeferredContext, DeviceContext};
use gfxspec::{GfxError, PixelRect, Size, Topology, Vertex, tile_count};
use refusing::Refusing;
use std::alloc::{Allocator, Global};
use std::process::Abort;
use std::test::Fail;
use test_tools::{Call, list_of, record_all};

/// A corner, in pixels.
fn at(x: i32, y: i32, grey: u8) -> Vertex
    requires x { unsigned_abs x ≤ 100 }
    requires y { unsigned_abs y ≤ 100 }
{
    Vertex {
        x: x * 65536,
        y: y * 65536,
        z: 0,
        rgba: [grey; 4],
    }
}

/// Whether a tile has these words, as numbers.
fn has_words<A: Allocator + Copy>(compiled: &Compiled<A>, tile: u32, numbers: &[u32]) -> bool {
    if tile >= tile_count(compiled.size()) {
        return false;
    }
    let mut left = numbers;
    for word in compiled.words(tile) {
        match left.split_first() {
            Some((first, rest)) if *first == word => left = rest,
            _ => return false,
        }
    }
    left.is_empty()
}

/// Compiles a list for a square target.
pub(crate) fn compiled_for<A: Allocator + Copy>(
    alloc: A,
    list: &CommandList<A>,
    side: u32,
) -> Result<Compiled<A>, GfxError>
    requires small { 0 < side }
    requires large { side ≤ 100 }
    ensures { IfOk result (λ c. c.size ≡ record { width = side; height = side }) }
{
    let size = Size {
        width: side,
        height: side,
    };
    let bins = Bins::new(alloc, tile_count(size))?;
    match compile(alloc, list.commands(), size, &[false; 64], bins) {
        Ok(compiled) => Ok(compiled),
        Err((error, _)) => Err(error),
    }
}

/// Both halves of 33 by 33 pixels, counted by three queries.
pub(crate) fn four_tiles<A: Allocator + Copy>(alloc: A) -> Result<CommandList<A>, GfxError> {
    let corners = [at(0, 0, 1), at(33, 0, 2), at(0, 33, 3), at(33, 33, 4)];
    list_of(
        alloc,
        &[
            Call::SetVertices(&corners),
            Call::SetIndices(&[1, 3, 2]),
            Call::SetTopology(Topology::TriangleList),
            Call::Begin(2),
            Call::Begin(0),
            Call::Draw(3, 0),
            Call::End(0),
            Call::Begin(1),
            Call::DrawIndexed(3, 0, 0),
            Call::End(1),
            Call::End(2),
        ],
    )
}

#[test]
fn words_of_four_tiles(rt: HostRuntime) -> Result<(), Fail> {
    let list = four_tiles(rt.alloc())?;
    let compiled = compiled_for(rt.alloc(), &list, 33)?;
    // state 0, the first triangle with edge 0, state 1, the second triangle with edge 1
    assert!(rt; has_words(&compiled, 0, &[0, 0x4001_0000, 1, 0x4002_0001]));
    for tile in 1..4u32 {
        assert!(rt;
            has_words(&compiled, tile, &[1, 0x4000_0001]),
            "tile {tile}"
        );
    }
    assert!(rt; compiled.touched() == [0, 1, 2, 3].as_slice());
    assert!(rt; compiled.issues() == 3);
    Ok(())
}

// Two rectangles of 33 by 33 pixels, and four tiles that a clear has.
#[test]
fn pixels_of_rectangles_and_tiles(rt: HostRuntime) -> Result<(), Fail> {
    let halves = compiled_for(rt.alloc(), &four_tiles(rt.alloc())?, 33)?;
    assert!(rt; halves.pixels_reached(10_000) == 2 * 33 * 33);
    assert!(rt; halves.pixels_reached(1_500) == 1_500);
    let clear = list_of(rt.alloc(), &[Call::ClearColor([1; 4])])?;
    let cleared = compiled_for(rt.alloc(), &clear, 33)?;
    assert!(rt; cleared.pixels_reached(10_000) == 4 * 32 * 32);
    Ok(())
}

/// A context with a half of 4 by 4 pixels.
fn half(alloc: Global) -> Result<DeferredContext<Global>, GfxError> {
    let corners = [at(0, 0, 1), at(4, 0, 1), at(0, 4, 1)];
    let mut context = DeferredContext::new(alloc);
    record_all(
        &mut context,
        &[
            Call::SetVertices(&corners),
            Call::SetTopology(Topology::TriangleList),
        ],
    )?;
    Ok(context)
}

/// The list of further calls has these words in the one tile of 4 by 4 pixels.
fn assert_words(
    rt: &impl Abort,
    alloc: Global,
    context: &mut DeferredContext<Global>,
    calls: &[Call<'_>],
    numbers: &[u32],
) -> Result<(), Fail> {
    record_all(context, calls)?;
    let list = context.finish(true)?;
    let compiled = compiled_for(alloc, &list, 4)?;
    assert!(rt; has_words(&compiled, 0, numbers));
    Ok(())
}

const DRAW: Call<'static> = Call::Draw(3, 0);

const COLOR: Call<'static> = Call::ClearColor([1, 2, 3, 4]);

const DEPTH: Call<'static> = Call::ClearDepthStencil(5, 6);

#[test]
fn both_clears_hide_an_uncounted_draw(rt: HostRuntime) -> Result<(), Fail> {
    let mut context = half(rt.alloc())?;
    let words = [0x8000_0000, 0xC000_0000];
    assert_words(&rt, rt.alloc(), &mut context, &[DRAW, COLOR, DEPTH], &words)
}

#[test]
fn both_clears_keep_a_counted_draw(rt: HostRuntime) -> Result<(), Fail> {
    let mut context = half(rt.alloc())?;
    let calls = [Call::Begin(0), DRAW, Call::End(0), DEPTH, COLOR];
    let words = [0, 0x4001_0000, 0xC000_0000, 0x8000_0000];
    assert_words(&rt, rt.alloc(), &mut context, &calls, &words)
}

// A clear of the colour alone hides nothing, and leaves the state in force; behind both clears the state stands again. A
// second list begins with the state that the first one kept.
#[test]
fn a_state_stands_again_behind_both_clears(rt: HostRuntime) -> Result<(), Fail> {
    let mut context = half(rt.alloc())?;
    for _ in 0..2u32 {
        let words = [0, 0x4001_0000, 0x8000_0000, 0x4001_0001];
        assert_words(&rt, rt.alloc(), &mut context, &[DRAW, COLOR, DRAW], &words)?;
    }
    let calls = [DRAW, DEPTH, COLOR, DRAW];
    let words = [0xC000_0000, 0x8000_0000, 0, 0x4001_0001];
    assert_words(&rt, rt.alloc(), &mut context, &calls, &words)
}

// The rectangle of a scissor test that is off changes nothing of how triangles are drawn: no state is put in force anew.
#[test]
fn states_that_draw_alike_are_one_entry(rt: HostRuntime) -> Result<(), Fail> {
    let mut context = half(rt.alloc())?;
    record_all(&mut context, &[DRAW])?;
    context.rs_set_scissor(PixelRect {
        left: 0,
        top: 0,
        right: 2,
        bottom: 2,
    })?;
    let words = [0, 0x4001_0000, 0x4001_0001];
    assert_words(&rt, rt.alloc(), &mut context, &[DRAW], &words)
}

// A draw of sixteen triangles that comes again names those that it left before. One with another last corner doesn't.
#[test]
fn a_draw_that_comes_again_names_its_triangles(rt: HostRuntime) -> Result<(), Fail> {
    let mut corners = Vec::new(rt.alloc());
    for _ in 0..16u32 {
        corners.push(at(0, 0, 1))?;
        corners.push(at(4, 0, 1))?;
        corners.push(at(0, 4, 1))?;
    }
    let mut others = corners.clone()?;
    if let Some(last) = others.last_mut() {
        *last = at(0, 3, 1);
    }
    let mut words = Vec::new(rt.alloc());
    words.push(0)?;
    for first in [0x4001_0000, 0x4001_0000, 0x4001_0010] {
        for number in 0..16u32 {
            words.push(first | number)?;
        }
    }
    let draw = Call::Draw(48, 0);
    let first = Call::SetVertices(corners.as_slice());
    let second = Call::SetVertices(others.as_slice());
    let calls = [first, draw, draw, second, draw];
    let mut context = half(rt.alloc())?;
    assert_words(&rt, rt.alloc(), &mut context, &calls, words.as_slice())
}

const SIZE: Size = Size {
    width: 33,
    height: 33,
};

/// Compiles a list for 33 by 33 pixels, and once more with the bins that come back where memory was refused. Tells whether
/// it was, and whether the words are those of the list.
fn insisting<A: Allocator + Copy>(alloc: A) -> Result<(bool, bool), GfxError> {
    let list = match four_tiles(alloc) {
        Ok(list) => list,
        Err(_) => four_tiles(alloc)?,
    };
    let bins = match Bins::new(alloc, 4) {
        Ok(bins) => bins,
        Err(_) => Bins::new(alloc, 4)?,
    };
    match compile(alloc, list.commands(), SIZE, &[false; 64], bins) {
        Ok(compiled) => Ok((false, is_four_tiles(&compiled))),
        Err((_, back)) => match compile(alloc, list.commands(), SIZE, &[false; 64], back) {
            Ok(compiled) => Ok((true, is_four_tiles(&compiled))),
            Err((error, _)) => Err(error),
        },
    }
}

fn is_four_tiles<A: Allocator + Copy>(compiled: &Compiled<A>) -> bool {
    has_words(compiled, 0, &[0, 0x4001_0000, 1, 0x4002_0001])
        && has_words(compiled, 3, &[1, 0x4000_0001])
        && compiled.touched().len() == 4
}

// A compile asks at least for tables of states, of triangles and of touched tiles, and for the bins' first slab with its two lists.
#[test]
fn each_growth_refused_in_turn(rt: HostRuntime) -> Result<(), Fail> {
    let mut refusals = 0_u32;
    for n in 1..100u64 {
        let alloc = Refusing::new(rt.alloc(), n);
        let (refused, right) = insisting(&alloc)?;
        assert!(rt; right, "growth {n}");
        if refused {
            refusals = refusals.wrapping_add(1);
        }
        if !alloc.refused() {
            assert!(rt; refusals >= 6, "{refusals}");
            return Ok(());
        }
    }
    panic!(rt; "a list asks for no more than so many growths")
}
