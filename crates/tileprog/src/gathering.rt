//! The tiles that some of several lists touch.

ghost use Rattle.std.specs.Prelude.{◌≡◌, ◌≤◌, ℕ, ◌∷◌, All, IfOk, OnOk, length, replicate, false};
ghost use Rattle.binner.specs.Lists.{times};
ghost use Rattle.binner.specs.Compiled.{IsCompilation};
ghost use Rattle.tileprog.specs.Several.{AreLists, AreMarked, HasWordsIn};

use binner::Compiled;
use gfxspec::tile_count;
use std::alloc::{AllocError, Allocator};

/// A flag for each of so many tiles, and none is marked.
fn unmarked<A: Allocator + Copy>(alloc: A, tiles: u32) -> Result<Vec<bool, A>, AllocError>
    ensures { IfOk result (λ seen. seen.items ≡ replicate tiles false) }
{
    let mut seen = Vec::new(alloc);
    seen.resize(tiles as usize, false)?;
    Ok(seen)
}

/// Adds the tiles that a list touches and that aren't among the tiles yet, and marks them.
fn add_touched<A: Allocator + Copy>(
    tiles: &mut Vec<u32, A>,
    seen: &mut Vec<bool, A>,
    list: &Compiled<A>,
) -> Result<(), AllocError>
    requires { AreMarked list.now.size seen.old.items tiles.old.items }
    ensures sound { IsCompilation list.now }
    ensures marked { OnOk result (AreMarked list.now.size seen.new.items tiles.new.items) }
    ensures kept { OnOk result ((t : ℕ) → times t tiles.old.items ≤ times t tiles.new.items) }
    ensures words { OnOk result (HasWordsIn tiles.new.items list.now) }
{
    for tile in list.touched() {
        if !seen[*tile as usize] {
            seen[*tile as usize] = true;
            tiles.push(*tile)?;
        }
    }
    Ok(())
}

/// The tiles that a first list or one behind it touches, each once. The flags that are kept meanwhile are one for each tile of
/// the target.
pub(crate) fn gather_touched<A: Allocator + Copy>(
    alloc: A,
    first: &Compiled<A>,
    behind: &[Compiled<A>],
) -> Result<Vec<u32, A>, AllocError>
    requires { All (λ c. c.size ≡ first.now.size) behind.now }
    ensures few { IfOk result (λ tiles. length tiles.items ≤ 16384) }
    ensures lists { IfOk result (λ tiles. AreLists first.now.size (first.now ∷ behind.now) tiles.items) }
{
    let mut tiles = Vec::new(alloc);
    let mut seen = unmarked(alloc, tile_count(first.size()))?;
    add_touched(&mut tiles, &mut seen, first)?;
    for list in behind {
        add_touched(&mut tiles, &mut seen, list)?;
    }
    Ok(tiles)
}
