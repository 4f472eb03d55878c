//! The scene that a text spells.

ghost use Rattle.std.specs.Prelude.{◌≡◌, ◌≢◌, ◌<◌, ℕ, length, IfOk, IfErr};
ghost use Rattle.scenetext.specs.Seen.{actor_value, line_value};
ghost use Rattle.scenetext.specs.SeenScene.{scene_value};
ghost use Rattle.scenetext.specs.Spelling.{Spells, IsActor};
ghost use Rattle.scenetext.specs.Reading.{number_of_error, counted_by, HasRoom, ReadsFirst, RefusesText, ReadsNext, RefusesNext, IsFaulty, Refused};

use crate::fault::{Fault, ReadError};
use crate::lines::{line_of, size_of};
use crate::scene::{Actor, Line, Scene, Verb};
use crate::text::cut_line;
use gfxspec::Size;
use std::alloc::Allocator;

fn number_of(error: &ReadError) -> u32
    ensures { result ≡ number_of_error error.now }
{
    match error {
        ReadError::Memory => 1,
        ReadError::Fault(fault) => fault.number(),
    }
}

/// Counts the list that a line finishes.
fn count_finish<A: Allocator>(finished: &mut [u64; 8], line: &Line<A>)
    requires actor { IsActor (actor_value line.now.actor) }
    requires room { HasRoom finished.old }
    ensures { finished.new ≡ counted_by finished.old (line_value line.now) }
{
    if let Actor::Deferred(context) = line.actor {
        if let Verb::Finish(_) = line.verb {
            finished[context as usize] += 1;
        }
    }
}

/// The size that the first line of a text gives, and the text behind it.
fn first_of(text: &[u8]) -> Result<(Size, &[u8]), ReadError>
    requires { 0 < length text.now }
    ensures ok { IfOk result (λ first. ReadsFirst text.now first.0 first.1.now) }
    ensures err { IfErr result (RefusesText text.now) }
{
    let (line, rest) = cut_line(text)?;
    let size = size_of(line)?;
    Ok((size, rest))
}

/// The line at the front of a text that follows other lines, and the text behind it.
fn next_of<'a, A: Allocator + Copy>(
    alloc: A,
    finished: &[u64; 8],
    text: &'a [u8],
) -> Result<(Line<A>, &'a [u8]), ReadError>
    requires { 0 < length text.now }
    ensures ok { IfOk result (λ next. ReadsNext finished.now text.now (line_value next.0) next.1.now) }
    ensures err { IfErr result (RefusesNext finished.now text.now) }
{
    let (line, rest) = cut_line(text)?;
    let line = line_of(alloc, finished, line)?;
    Ok((line, rest))
}

/// The line at the front of a text, where earlier lines have each context finish so many lists, and the text behind it; or
/// the number of its fault. Number 1 is want of memory. Line by line this reads what `read` does.
pub fn read_line<'a, A: Allocator + Copy>(
    alloc: A,
    finished: &[u64; 8],
    text: &'a [u8],
) -> Result<(Line<A>, &'a [u8]), u32>
    requires { 0 < length text.now }
    ensures ok { IfOk result (λ next. ReadsNext finished.now text.now (line_value next.0) next.1.now) }
    ensures err { IfErr result (IsFaulty finished.now text.now) }
{
    match next_of(alloc, finished, text) {
        Ok(next) => Ok(next),
        Err(error) => Err(number_of(&error)),
    }
}

/// The scene that a text spells, or a line and the number of its fault. Number 1 is want of memory; the first line takes
/// none.
pub fn read<A: Allocator + Copy>(alloc: A, text: &[u8]) -> Result<Scene<A>, (u64, u32)>
    ensures scene { IfOk result (λ scene. Spells text.now (scene_value scene)) }
    ensures refused { IfErr result (Refused text.now) }
    ensures first_line { IfErr result (λ e. e.0 ≡ 1 → e.1 ≢ 1) }
{
    if text.is_empty() {
        return Err((1, Fault::FirstLine.number()));
    }
    let (size, mut rest) = match first_of(text) {
        Ok(first) => first,
        Err(error) => return Err((1, number_of(&error))),
    };
    let mut lines = Vec::new(alloc);
    let mut finished = [0; 8];
    while !rest.is_empty() {
        let number = lines.len() as u64 + 2;
        let (line, more) = match read_line(alloc, &finished, rest) {
            Ok(next) => next,
            Err(fault) => return Err((number, fault)),
        };
        count_finish(&mut finished, &line);
        if lines.push(line).is_err() {
            return Err((number, number_of(&ReadError::Memory)));
        }
        rest = more;
    }
    Ok(Scene { size, lines })
}
