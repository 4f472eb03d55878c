//! The history of a pixel over a script: which items of it touched the pixel, what each found and left there, and
//! which tests it passed.

ghost use Rattle.std.specs.Prelude.{◌≡◌, ◌<◌, ◌&&◌, map, ℕ, List, [], true, not, nat_lt, IfOk, IfErr};
ghost use Rattle.gfxspec.specs.declared.geometry.Size.{Size};
ghost use Rattle.gfxspec.specs.Limits.{is_size};
ghost use Rattle.meaning.specs.Standing.{IsNew};
ghost use Rattle.pixelevents.specs.Named.{named_by};
ghost use Rattle.pixelevents.specs.Origins.{AreNamed};
ghost use Rattle.scenetext.specs.SeenScene.{scene_value};
ghost use Rattle.scenetext.specs.Seen.{line_value};
ghost use Rattle.scenetext.specs.Spelling.{IsScene, Spells};
ghost use Rattle.immediate.specs.Held.{context_of};
ghost use Rattle.sessions.specs.declared.outcome.Ended.TheVariants.{Done};
ghost use Rattle.sessions.specs.Answers.{answers};
ghost use Rattle.sessions.specs.Writing.{end_of};
ghost use Rattle.sessions.specs.Playing.{own_count};
ghost use Rattle.sessions.specs.Histories.{traces_beside, named_event, IsNamedHistory, IsHistory, MayRefuse, Prevents};

use crate::ending::{Performance, end, line_behind};
use crate::perform::begin_from;
use crate::play::play_traced;
use crate::traced::TracedContext;
use gfxspec::Size;
use immediate::ImmediateContext;
use pixelevents::{Event, NamedEvent, Origin};
use pixelhistory::SessionTrace;
use recorders::{CALLER, DealtLines, deal, record_alone};
use scenetext::{Line, Scene};
use std::alloc::{AllocError, Allocator};
use thiserror::Error;

/// Why there is no history of a pixel.
#[derive(Clone, Copy, Debug, PartialEq, Eq, Error)]
pub enum NoHistory {
    /// A line of the script is refused or has a fault, as a session answers it: the line, counted from 1, and the
    /// number. Line 0 stands for memory that was refused before the first line.
    #[error("line {line} is refused for reason {number}")]
    Refused { line: u64, number: u32 },
    /// The target has no such pixel.
    #[error("the pixel lies outside of the target")]
    PixelRange,
}

/// Whether a target has no pixel at a place.
fn lacks_pixel(size: Size, x: u32, y: u32) -> bool
    ensures { result ≡ not (nat_lt x size.width && nat_lt y size.height) }
{
    !(x < size.width && y < size.height)
}

/// An event with the line that it comes from.
fn named<A: Allocator>(
    event: Event,
    origin: Origin,
    lines: &[Line<A>],
    dealt: &DealtLines<'_, A>,
) -> NamedEvent
    requires same { dealt.now ≡ map line_value lines.now }
    requires below { origin.step < own_count dealt.now }
    ensures { result ≡ named_event dealt.now event origin }
{
    let (place, _) = dealt.line(CALLER, origin.step as usize);
    NamedEvent {
        event,
        line: line_behind(&lines[..place]),
        place: origin.place,
    }
}

/// The events of a trace with the lines that they come from.
fn all_named<A: Allocator + Copy>(
    alloc: A,
    lines: &[Line<A>],
    dealt: &DealtLines<'_, A>,
    trace: &SessionTrace<A>,
) -> Result<Vec<NamedEvent, A>, AllocError>
    requires same { dealt.now ≡ map line_value lines.now }
    requires below { AreNamed (λ k origin. origin.step < own_count dealt.now) trace.now.trace.events.items trace.now.origins.items }
    ensures { IfOk result (λ events. events.items ≡ named_by (named_event dealt.now) trace.now.trace.events.items trace.now.origins.items) }
{
    trace.named_by(
        alloc,
        &|event: Event, origin: Origin| -> NamedEvent
            requires { (origin.step < own_count dealt.now) × (dealt.now ≡ map line_value lines.now) }
            ensures { result ≡ named_event dealt.entry.now event origin }
        { named(event, origin, lines, dealt) },
    )
}

/// The history of a pixel over a scene, by an immediate context that has taken none of its lines; or the refused
/// line, counted from 1, and its number.
fn trace_scene<A: Allocator + Copy + Send>(
    alloc: A,
    scene: &Scene<A>,
    traced: TracedContext<A>,
) -> Result<Vec<NamedEvent, A>, (u64, u32)>
    requires sized { is_size scene.now.size ≡ true }
    requires scene { IsScene (scene_value scene.now) }
    requires size { traced.context.surface.size ≡ scene.now.size }
    requires new { IsNew traced.context.surface.size (context_of traced.context) }
    requires traced { traces_beside scene.now.size [] traced.x traced.y traced }
    ensures history { IfOk result (λ events. (end_of (answers (scene_value scene.now)) ≡ Done) × IsNamedHistory scene.now.size (scene_value scene.now).lines traced.x traced.y events.items) }
    ensures refused { (text : List ℕ) → Spells text (scene_value scene.now) → IfErr result (λ at. MayRefuse text at.0 at.1) }
{
    let Ok(lines) = deal(alloc, scene.lines.as_slice()) else {
        return Err((0, 1)); // memory was refused before the first line
    };
    let mut recorded = record_alone(alloc, &lines);
    let played = play_traced(alloc, traced, &mut recorded, &lines);
    let Performance {
        answers: _,
        end: ended,
    } = end(scene, recorded.first_refused(), played);
    match ended {
        Ok(traced) => match all_named(alloc, scene.lines.as_slice(), &lines, &traced.trace) {
            Ok(events) => Ok(events),
            Err(_) => Err((0, 1)), // as if memory was refused before the first line
        },
        Err(refused) => Err(refused),
    }
}

/// The history of a pixel over a script: of the items that its immediate context draws and clears, numbered from 0 in
/// the order in which they run, those that touch the pixel, each with its line. The script is taken line by line as
/// `session_alone` takes it, and ends as it does where a line is refused.
pub fn history<A: Allocator + Copy + Send>(
    alloc: A,
    script: &[u8],
    x: u32,
    y: u32,
) -> Result<Vec<NamedEvent, A>, NoHistory>
    ensures history { IfOk result (λ events. IsHistory script.now x y events.items) }
    ensures refused { IfErr result (λ why. Prevents script.now x y why) }
{
    let (scene, context) = match begin_from(alloc, script) {
        Ok(begun) => begun,
        Err((line, number)) => return Err(NoHistory::Refused { line, number }),
    };
    if lacks_pixel(scene.size, x, y) {
        return Err(NoHistory::PixelRange);
    }
    let traced = TracedContext::new(alloc, context, x, y);
    match trace_scene(alloc, &scene, traced) {
        Ok(events) => Ok(events),
        Err((line, number)) => Err(NoHistory::Refused { line, number }),
    }
}
