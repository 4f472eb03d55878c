//! Sessions, from the bytes of a script to the bytes of the answers and the image.

ghost use Rattle.std.specs.Prelude.{◌<◌, ◌≤◌, ◌^◌};
ghost use Rattle.sessions.specs.Writing.{course, Answered, HasCause, Wrote};
ghost use Rattle.sessions.specs.Performing.{output_by};

use crate::ending::{Performance, stopped};
use crate::outcome::{Ended, SessionFault};
use crate::perform::perform_alone;
use crate::threads::perform_in_threads;
use answers::{Answer, answer_line};
use gfxspec::{GatherError, Sink, Source, gather, put_all};
use immediate::ImmediateContext;
use std::alloc::Allocator;
use std::sync::Wait;
use std::thread::Threads;
use tga::write_tga;
use workers::Gate;

/// Writes what a session has to write: the answer lines, and then the image or the line of a refusal.
fn write_performance<A: Allocator + Copy + Send, I: Sink, L: Sink>(
    performance: Performance<ImmediateContext<A>, A>,
    image: &mut I,
    lines: &mut L,
) -> Result<Ended, SessionFault>
    requires image { I.failures image.old < 2 ^ 63 }
    requires lines { L.failures lines.old < 2 ^ 63 }
    ensures wrote { I.tells image.old → L.tells lines.old → Wrote (output_by performance.answers.items performance.end) result
        (course L.written L.failures lines.old lines.new) (course I.written I.failures image.old image.new) }
    ensures cause { HasCause result 0 0 (course L.written L.failures lines.old lines.new) (course I.written I.failures image.old image.new) }
{
    let Performance { answers, end } = performance;
    if let Err(taken) = put_all(lines, answers.as_slice()) {
        return Err(SessionFault::Lines {
            taken: taken as u64,
        });
    }
    match end {
        Ok(context) => match write_tga(image, context.target()) {
            Ok(()) => Ok(Ended::Done),
            Err(fault) => Err(SessionFault::Image { taken: fault.taken }),
        },
        Err((line, number)) => {
            let refused = answer_line(Answer::Refused { line, number });
            match put_all(lines, refused.as_bytes()) {
                Ok(()) => Ok(Ended::Refused { line, number }),
                Err(taken) => Err(SessionFault::Lines {
                    taken: answers.len() as u64 + taken as u64,
                }),
            }
        }
    }
}

/// Runs a script: reads and checks it, takes its lines in order, and writes the answer lines and then the image. A line
/// that is refused or has a fault ends the session with its `refused` line, and there is no image then.
///
/// It ends only where no device failed; a fault names the one that did, and how many bytes it had taken.
pub fn session_alone<A: Allocator + Copy + Send, R: Source, I: Sink, L: Sink>(
    alloc: A,
    script: &mut R,
    image: &mut I,
    lines: &mut L,
) -> Result<Ended, SessionFault>
    requires script { R.failures script.old < 2 ^ 63 }
    requires image { I.failures image.old < 2 ^ 63 }
    requires lines { L.failures lines.old < 2 ^ 63 }
    ensures answer { R.tells script.old → I.tells image.old → L.tells lines.old → Answered (R.rest script.old) result
        (course L.written L.failures lines.old lines.new) (course I.written I.failures image.old image.new) }
    ensures cause { HasCause result (R.failures script.old) (R.failures script.new)
        (course L.written L.failures lines.old lines.new) (course I.written I.failures image.old image.new) }
{
    let text = match gather(alloc, script) {
        Ok(text) => text,
        Err(GatherError::Read) => return Err(SessionFault::Read), // what came is no script
        Err(GatherError::Memory) => return write_performance(stopped(alloc, 0, 1), image, lines),
    };
    write_performance(perform_alone(alloc, text), image, lines)
}

/// `session_alone` in threads: up to four record the deferred contexts while the caller takes the lines of the immediate
/// one, and as many as `workers` says, at most 15, run tiles beside it. It joins all of them. Before each claim of a tile
/// and each submission of a list the gate is called; worker 0 is the caller.
pub fn session<
    A: Allocator + Copy + Send + Sync,
    T: Threads + Wait + Sync,
    R: Source,
    I: Sink,
    L: Sink,
    G: Gate + Sync,
>(
    rt: &T,
    alloc: A,
    script: &mut R,
    image: &mut I,
    lines: &mut L,
    workers: u32,
    gate: &G,
) -> Result<Ended, SessionFault>
    requires script { R.failures script.old < 2 ^ 63 }
    requires image { I.failures image.old < 2 ^ 63 }
    requires lines { L.failures lines.old < 2 ^ 63 }
    requires workers { workers ≤ 15 }
    ensures answer { R.tells script.old → I.tells image.old → L.tells lines.old → Answered (R.rest script.old) result
        (course L.written L.failures lines.old lines.new) (course I.written I.failures image.old image.new) }
    ensures cause { HasCause result (R.failures script.old) (R.failures script.new)
        (course L.written L.failures lines.old lines.new) (course I.written I.failures image.old image.new) }
{
    let text = match gather(alloc, script) {
        Ok(text) => text,
        Err(GatherError::Read) => return Err(SessionFault::Read),
        Err(GatherError::Memory) => return write_performance(stopped(alloc, 0, 1), image, lines),
    };
    let performance = perform_in_threads(rt, alloc, workers, gate, text);
    write_performance(performance, image, lines)
}
