//! Both halves of 33 by 33 pixels, their four tiles run in three orders: the counts and the pixels are those of the worked row.

ghost use Rattle.std.specs.Prelude.{◌≡◌};
ghost use Rattle.tileblock.specs.Surface.{IsWhole};
ghost use Rattle.tileprog.specs.Programs.{IsOrder};

use crate::compiling::{compiled_for, four_tiles};
use binner::Compiled;
use gfxspec::GfxError;
use std::alloc::{Allocator, Global};
use std::test::Fail;
use tileblock::Target;
use tileprog::run_order;

/// Whether each pixel has the colour of the half that covers it: the first above the diagonal, the second on it and below.
fn has_both_halves<A: Allocator>(target: &Target<A>) -> bool
    requires whole { IsWhole target.now }
    requires size { target.now.size ≡ record { width = 33; height = 33 } }
{
    for y in 0..33u32 {
        for x in 0..33u32 {
            let grey = if x + y < 32 { 1 } else { 2 };
            if target.pixel(x, y).rgba != [grey; 4] {
                return false;
            }
        }
    }
    true
}

/// Runs the tiles in an order: whether the pixels are right, and so are the counts of the three issues.
fn is_right_in(alloc: Global, compiled: &Compiled<Global>, order: &[u32]) -> Result<bool, GfxError>
    requires size { compiled.now.size ≡ record { width = 33; height = 33 } }
    requires order { IsOrder compiled.now order.now }
{
    let mut target = Target::split(alloc, 33, 33)?;
    let counts = run_order(compiled, &mut target, order);
    Ok(counts.as_slice() == [1_089, 528, 561].as_slice() && has_both_halves(&target))
}

#[test]
fn tiles_run_in_any_order(rt: HostRuntime) -> Result<(), Fail> {
    let list = four_tiles(rt.alloc())?;
    let compiled = compiled_for(rt.alloc(), &list, 33)?;
    assert!(rt; is_right_in(rt.alloc(), &compiled, &[0, 1, 2, 3])?);
    assert!(rt; is_right_in(rt.alloc(), &compiled, &[3, 1, 0, 2])?);
    assert!(rt; is_right_in(rt.alloc(), &compiled, &[2, 3, 1, 0])?);
    Ok(())
}
