//! How a scene ends: at the least refused line, or drawn.

ghost use Rattle.std.specs.Prelude.{true, ◌≡◌, ◌+◌, ℕ, List, [], length, map, None, IfOk, if◌then◌else◌};
ghost use Rattle.gfxspec.specs.declared.geometry.Size.{Size};
ghost use Rattle.gfxspec.specs.Limits.{is_size};
ghost use Rattle.scenetext.specs.Seen.{verb_value, line_value};
ghost use Rattle.scenetext.specs.SeenScene.{scene_value};
ghost use Rattle.scenetext.specs.Scene.{Line as PlainLine};
ghost use Rattle.scenetext.specs.Spelling.{IsScene};
ghost use Rattle.recorders.specs.Ending.{AreRecorded};
ghost use Rattle.sessions.specs.Answers.{answer_of, answers_behind, image};
ghost use Rattle.sessions.specs.Playing.{HasEnded, HasEndedWith, HasPlayed, missing_in, refused_line};
ghost use Rattle.sessions.specs.Writing.{Draws, stopped_output};
ghost use Rattle.sessions.specs.Performing.{ended_by, output_by};

use crate::play::{Interruption, Played};
use answers::first_lines;
use immediate::ImmediateContext;
use recorders::{RefusedLine, earlier};
use scenetext::{Line, Scene, Verb};
use std::alloc::Allocator;

/// What a session will write: the answers, and then the image of a drawn context, or the refused line, counted from 1, and
/// its number.
#[derive(Drop)]
pub(crate) struct Performance<C, A: Allocator> {
    pub(crate) answers: Vec<u8, A>,
    pub(crate) end: Result<C, (u64, u32)>,
}

/// A session that was stopped before anything was answered, at a line and for a reason.
pub(crate) fn stopped<A: Allocator>(
    alloc: A,
    line: u64,
    number: u32,
) -> Performance<ImmediateContext<A>, A>
    ensures { output_by result.answers.items result.end ≡ stopped_output [] line number }
{
    Performance {
        answers: Vec::new(alloc),
        end: Err((line, number)),
    }
}

/// The refused line of an interruption that is a refusal. Where a list is missing, an earlier line is refused.
fn refused_line(interruption: Option<(usize, Interruption)>) -> Option<RefusedLine>
    ensures { result ≡ refused_line interruption }
{
    match interruption {
        Some((place, Interruption::Refused(refusal))) => Some(RefusedLine { place, refusal }),
        _ => None,
    }
}

/// The number of the line behind these. The target is line 1.
pub(crate) fn line_behind<A: Allocator>(before: &[Line<A>]) -> u64
    ensures { result ≡ length before.now + 2 }
{
    before.len() as u64 + 2
}

/// Whether a verb asks for an answer.
fn asks<A: Allocator>(verb: &Verb<A>) -> bool
    ensures { (size : Size) (earlier : List PlainLine) → length (answer_of size earlier (verb_value verb.now)) ≡ (if result then 1 else 0) }
{
    match verb {
        Verb::Query(_) => true,
        Verb::Pixel(_, _) => true,
        _ => false,
    }
}

/// How many answers these lines have, where they are accepted.
fn asked<A: Allocator>(lines: &[Line<A>]) -> usize
    ensures { (size : Size) → length (answers_behind size [] (map line_value lines.now)) ≡ result }
{
    let mut count = 0;
    for line in lines {
        if asks(&line.verb) {
            count += 1;
        }
    }
    count
}

/// Ends a scene at the first line that was refused, by a deferred context or by the immediate one: the answers of the lines
/// before it stay. Of a scene of which no line was refused the context comes back, whether the last run was made or not.
pub(crate) fn end<C: Drop, A: Allocator + Copy>(
    scene: &Scene<A>,
    deferred: Option<RefusedLine>,
    played: Played<C, A>,
) -> Performance<C, A>
    requires sized { is_size scene.now.size ≡ true }
    requires scene { IsScene (scene_value scene.now) }
    requires recorded { AreRecorded (scene_value scene.now).lines deferred (missing_in played.interruption) }
    requires ended { HasEnded scene.now.size (scene_value scene.now).lines played }
    ensures draws { HasEndedWith scene.now.size (scene_value scene.now).lines played.answers.items played
        → Draws (scene_value scene.now) (ended_by (image (scene_value scene.now)) result.answers.items result.end) }
    ensures draws_some { (lines : List ℕ) × Draws (scene_value scene.now) (ended_by (image (scene_value scene.now)) lines result.end) }
    ensures finished { IfOk result.end (λ c. (c ≡ played.context) × (played.interruption ≡ None)) }
{
    let Played {
        context,
        answers,
        interruption,
    } = played;
    match earlier(deferred, refused_line(interruption)) {
        Some(stop) => {
            let before = &scene.lines.as_slice()[..stop.place];
            let line = line_behind(before);
            Performance {
                answers: first_lines(answers, asked(before)),
                end: Err((line, stop.refusal.number())),
            }
        }
        None => Performance {
            answers,
            end: Ok(context),
        },
    }
}

/// Ends a scene behind the last run: a context of which no line was refused has its image.
pub(crate) fn end_drawn<A: Allocator + Copy>(
    scene: &Scene<A>,
    deferred: Option<RefusedLine>,
    played: Played<ImmediateContext<A>, A>,
) -> Performance<ImmediateContext<A>, A>
    requires sized { is_size scene.now.size ≡ true }
    requires scene { IsScene (scene_value scene.now) }
    requires recorded { AreRecorded (scene_value scene.now).lines deferred (missing_in played.interruption) }
    requires played { HasPlayed scene.now.size (scene_value scene.now).lines played }
    ensures { Draws (scene_value scene.now) (output_by result.answers.items result.end) }
{
    end(scene, deferred, played)
}
