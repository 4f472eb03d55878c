//! What is asked of the picture: counts of queries, pixels, and a row of the three planes.

ghost use Rattle.std.specs.Prelude.{◌<◌, ◌≤◌};
ghost use Rattle.tileblock.specs.Surface.{IsWhole};

use crate::figures::{HEIGHT, WIDTH};
use crate::record::{TURNS, first_query};
use answers::{Answer, add_answer};
use device::{DepthStencil, GfxError, ImmediateContext, Pixel, Target};
use std::alloc::Global;

/// The row of the planes that is told.
const ROW: u32 = 48;

/// The counts of both halves' queries, turn by turn, and that of the backdrop.
fn tell_counts(device: &mut ImmediateContext<Global>, text: &mut Vec<u8>) -> Result<(), GfxError> {
    for turn in 0..TURNS {
        tell_count(device, text, first_query(0) + turn)?;
        tell_count(device, text, first_query(1) + turn)?;
    }
    tell_count(device, text, 20)
}

/// The count of a query.
fn tell_count(
    device: &mut ImmediateContext<Global>,
    text: &mut Vec<u8>,
    query: u32,
) -> Result<(), GfxError> {
    let count = device.get_data_alone(query)?;
    add_answer(text, Some(Answer::Counted { query, count }))?;
    Ok(())
}

/// What some pixels hold: every twelfth row, near the line between the halves.
fn tell_pixels(device: &mut ImmediateContext<Global>, text: &mut Vec<u8>) -> Result<(), GfxError> {
    for step in 0..HEIGHT / 12 {
        let (x, y) = (60 + step, 12 * step);
        let value = device.pixel_alone(x, y)?;
        add_answer(text, Some(Answer::Shown { x, y, value }))?;
    }
    Ok(())
}

/// A row of the planes, eight pixels at a time.
fn tell_row(target: &Target<Global>, text: &mut Vec<u8>) -> Result<(), GfxError>
    requires { IsWhole target.now }
{
    let size = target.size();
    for span in 0..WIDTH / 8 {
        if 8 * span < size.width && ROW < size.height {
            tell_span(target, text, 8 * span)?;
        }
    }
    Ok(())
}

/// Eight pixels of the row, from a column on.
fn tell_span(target: &Target<Global>, text: &mut Vec<u8>, left: u32) -> Result<(), GfxError>
    requires whole { IsWhole target.now }
    requires inside { (left < target.now.size.width) × (48 < target.now.size.height) }
    requires few { left ≤ 120 }
{
    let colors = target.colors(left, ROW);
    let depths = target.depths(left, ROW);
    let stencils = target.stencils(left, ROW);
    for k in 0..8u32 {
        let at = k as usize;
        let value = Pixel {
            rgba: colors[at].to_le_bytes(),
            ds: DepthStencil {
                depth: depths[at],
                stencil: stencils[at],
            },
        };
        let (x, y) = (left + k, ROW);
        add_answer(text, Some(Answer::Shown { x, y, value }))?;
    }
    Ok(())
}

/// The answer lines of all that is asked.
pub(crate) fn tell_all(
    alloc: Global,
    device: &mut ImmediateContext<Global>,
) -> Result<Vec<u8>, GfxError> {
    let mut text = Vec::new(alloc);
    tell_counts(device, &mut text)?;
    tell_pixels(device, &mut text)?;
    device.flush_alone()?;
    tell_row(device.target(), &mut text)?;
    Ok(text)
}
