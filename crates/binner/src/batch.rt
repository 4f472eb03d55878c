//! Lists that are compiled as one.

ghost use Rattle.cmdlist.specs.Drawable.{told};

use crate::compiled::{Compiled, finished, nothing};
use crate::compiling::{Compiling, add_commands};
use crate::segment::Segment;
use binmem::Bins;
use gfxspec::Size;
use std::alloc::Allocator;
use std::marker::Model;

/// Lists that are compiled as one, each from the default state on, in the order in which they were added. Their commands begin no query.
#[derive(Drop)]
pub struct Batch<A: Allocator> {
    compiling: Compiling<A>,
}

impl<A: Allocator> Model for Batch<A> {
    ghost use Rattle.binner.specs.declared.compiling.Compiling.{Compiling};
    ghost use Rattle.binner.specs.Batched.{IsBatch};

    ghost Value = { Compiling A };

    ghost view = { λ b. b.compiling };

    ghost invariant = { λ b. IsBatch b.compiling };
}

impl<A: Allocator + Copy> Batch<A> {
    ghost use Rattle.std.specs.Prelude.{◌≡◌, ◌++◌, [], List, IsTrue, IfOk, IfErr};
    ghost use Rattle.gfxspec.specs.Items.{Item};
    ghost use Rattle.gfxspec.specs.Limits.{is_size};
    ghost use Rattle.gfxspec.specs.Tiles.{tile_count};
    ghost use Rattle.gfxspec.specs.Recorded.{items};
    ghost use Rattle.gfxspec.specs.Predication.{performed};
    ghost use Rattle.binmem.specs.Lists.{no_words};
    ghost use Rattle.binner.specs.Compiling.{HasCompiled};
    ghost use Rattle.binner.specs.Batched.{MeansItems};

    /// No list, for a target of this size, with empty bins of as many tiles as it has, and room for so many triangles. Without
    /// memory the bins come back.
    pub fn new(alloc: A, size: Size, bins: Bins<A>, room: usize) -> Result<Self, Bins<A>>
        requires size { IsTrue (is_size size) }
        requires empty { bins ≡ no_words (tile_count size) }
        ensures size { IfOk result (λ b. b.lists.size ≡ size) }
        ensures nothing { IfOk result (λ b. HasCompiled b []) }
        ensures refused { IfErr result (λ back. back ≡ no_words (tile_count size)) }
    {
        let compiling = nothing(alloc, size, bins, room)?;
        Ok(Batch { compiling })
    }

    /// Adds a segment, under the results that the queries have before the batch. Without memory, and where the batch would name
    /// more than 65,536 states, triangles or clears, the bins come back, empty again.
    pub fn add(self, segment: &Segment<A>, results: &[bool; 64]) -> Result<Self, Bins<A>>
        ensures size { IfOk result (λ b. b.lists.size ≡ self.lists.size) }
        ensures means { (is : List Item) → HasCompiled self is
            → IfOk result (λ b. HasCompiled b (is ++ items (performed (told results.now) segment.now))) }
        ensures refused { IfErr result (λ back. back ≡ no_words (tile_count self.lists.size)) }
    {
        let mut compiling = self.compiling;
        let ahead = Vec::new(*segment.commands.allocator());
        match add_commands(&mut compiling, &segment.commands, results, ahead) {
            Ok(_) => Ok(Batch { compiling }),
            Err(_) => Err(compiling.lists.bins.seal().reuse()),
        }
    }

    /// The compiled lists, which have no issue.
    pub fn finish(self) -> Compiled<A>
        ensures size { result.size ≡ self.lists.size }
        ensures issues { result.issues ≡ 0 }
        ensures means { (is : List Item) → HasCompiled self is → MeansItems is result }
    {
        finished(self.compiling, 0)
    }
}
