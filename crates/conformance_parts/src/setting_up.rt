//! A draw of enough triangles to be set up in threads: its words are those that one thread makes, and a refused growth
//! refuses the call, whichever it is.

ghost use Rattle.std.specs.Prelude.{◌≡◌};

use binmem::Bins;
use binner::{Compiled, compile, compile_parallel};
use cmdlist::CommandList;
use gfxspec::{GfxError, Size, Topology, Vertex, tile_count};
use refusing::Refusing;
use std::alloc::Allocator;
use std::test::Fail;
use std::thread::Threads;
use test_tools::{Call, list_of};

const SIZE: Size = Size {
    width: 70,
    height: 70,
};

/// The corners of a strip that goes over the target row by row, a pixel for each triangle: more of them than one thread sets up.
fn corners<A: Allocator>(alloc: A) -> Result<Vec<Vertex, A>, GfxError> {
    let mut vertices = Vec::new(alloc);
    for number in 0..4_200u32 {
        vertices.push(Vertex {
            x: (number / 2 % 71 * 65_536) as i32,
            y: ((number / 142 + (number + 1) % 2) * 131_072) as i32,
            z: number,
            rgba: [1, 2, 3, 4],
        })?;
    }
    Ok(vertices)
}

/// A list that draws a strip.
fn strip_of<A: Allocator + Copy>(
    alloc: A,
    vertices: &[Vertex],
) -> Result<CommandList<A>, GfxError> {
    list_of(
        alloc,
        &[
            Call::SetVertices(vertices),
            Call::SetTopology(Topology::TriangleStrip),
            Call::Draw(4_200, 0),
        ],
    )
}

/// A list that draws the long strip.
fn long_strip<A: Allocator + Copy>(alloc: A) -> Result<CommandList<A>, GfxError> {
    let vertices = corners(alloc)?;
    strip_of(alloc, vertices.as_slice())
}

/// How many words there are, and a sum of them.
fn sum<A: Allocator + Copy>(compiled: &Compiled<A>) -> (u64, u64) {
    let mut words = 0_u64;
    let mut sum = 0_u64;
    for tile in 0..tile_count(compiled.size()) {
        for word in compiled.words(tile) {
            words = words.wrapping_add(1);
            sum = sum.wrapping_mul(3).wrapping_add(u64::from(word));
        }
    }
    (words, sum)
}

/// The words of the strip, by one thread.
fn alone<A: Allocator + Copy>(alloc: A) -> Result<(u64, u64), GfxError> {
    let list = long_strip(alloc)?;
    let bins = Bins::new(alloc, 9)?;
    match compile(alloc, list.commands(), SIZE, &[false; 64], bins) {
        Ok(compiled) => Ok(sum(&compiled)),
        Err((error, _)) => Err(error),
    }
}

/// The words of a list, by threads, and once more with the bins that come back where memory was refused; and whether it was.
fn in_threads<A: Allocator + Copy + Send + Sync, R: Threads + Sync>(
    rt: &R,
    alloc: A,
    list: &CommandList<A>,
) -> Result<((u64, u64), bool), GfxError> {
    let bins = match Bins::new(alloc, 9) {
        Ok(bins) => bins,
        Err(_) => Bins::new(alloc, 9)?,
    };
    match compile_parallel(rt, alloc, list.commands(), SIZE, &[false; 64], bins) {
        Ok(compiled) => Ok((sum(&compiled), false)),
        Err((_, back)) => match compile_parallel(
            rt,
            alloc,
            list.commands(),
            SIZE,
            &[false; 64],
            back,
        ) {
            Ok(compiled) => Ok((sum(&compiled), true)),
            Err((error, _)) => Err(error),
        },
    }
}

/// The same of the long strip, which is recorded once more where memory was refused.
fn insisting<A: Allocator + Copy + Send + Sync, R: Threads + Sync>(
    rt: &R,
    alloc: A,
) -> Result<((u64, u64), bool), GfxError> {
    let list = match long_strip(alloc) {
        Ok(list) => list,
        Err(_) => long_strip(alloc)?,
    };
    in_threads(rt, alloc, &list)
}

#[test]
fn threads_make_the_words_of_one_and_each_growth_may_be_refused(
    rt: HostRuntime,
) -> Result<(), Fail> {
    let wanted = alone(rt.alloc())?;
    assert!(rt; wanted.0 > 4_000, "{}", wanted.0);
    let mut refusals = 0_u32;
    for n in 1..400u64 {
        let alloc = Refusing::new(rt.alloc(), n);
        let (found, refused) = insisting(&rt, &alloc)?;
        assert!(rt; found == wanted, "growth {n}");
        if refused {
            refusals = refusals.wrapping_add(1);
        }
        if !alloc.refused() {
            assert!(rt; refusals >= 20, "{refusals}");
            return Ok(());
        }
    }
    panic!(rt; "a list asks for no more than so many growths")
}
