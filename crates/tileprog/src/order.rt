//! The programs of all tiles of a target, one after the other.

ghost use Rattle.std.specs.Prelude.{◌≡◌, ◌≤◌, ◌^◌, List, length, slice_index, take};
ghost use Rattle.gfxspec.specs.Commands.{Command};
ghost use Rattle.tileblock.specs.Surface.{IsWhole};
ghost use Rattle.binner.specs.Compiled.{MeansList};
ghost use Rattle.tileprog.specs.Passing.{HasGrown, AtMost};
ghost use Rattle.tileprog.specs.Programs.{IsOrder, ProgramsRan, ListRan};

use crate::tile::{DoneTile, run_tile};
use arrayvec::ArrayVec;
use binner::Compiled;
use std::alloc::Allocator;
use tileblock::Target;

/// Adds what a tile counted.
fn add_tile<A: Allocator>(totals: &mut [u64; 64], tile: &DoneTile<A>)
    requires { AtMost totals.old (2 ^ 62) }
    ensures { HasGrown totals.old totals.new (λ k. slice_index tile.now.counts k) }
{
    for issue in 0..64u32 {
        totals[issue as usize] += tile.count(issue);
    }
}

/// The first of so many totals.
fn first_of(totals: &[u64; 64], issues: u32) -> ArrayVec<u64, 64>
    requires { issues ≤ 64 }
    ensures { result.items ≡ take issues totals.now }
{
    let mut counts = ArrayVec::new();
    for issue in 0..issues {
        counts.push(totals[issue as usize]);
    }
    counts
}

/// Runs the programs of tiles of a target in that order, and gives the count of each issue. It takes no memory and always
/// succeeds.
pub fn run_order<A: Allocator + Copy>(
    compiled: &Compiled<A>,
    target: &mut Target<A>,
    order: &[u32],
) -> ArrayVec<u64, 64>
    requires target { IsWhole target.old × (compiled.now.size ≡ target.old.size) }
    requires order { IsOrder compiled.now order.now }
    ensures programs { ProgramsRan compiled.now target.old target.new result.items }
    ensures means { (list : List Command) → MeansList list compiled.now → ListRan list compiled.now.issues target.old target.new result.items }
{
    let _sizes = (compiled.size(), target.size());
    let mut totals = [0; 64];
    for tile in order {
        let done = run_tile(compiled, target.take(*tile));
        add_tile(&mut totals, &done);
        target.put(*tile, done.into_block());
    }
    first_of(&totals, compiled.issues())
}
