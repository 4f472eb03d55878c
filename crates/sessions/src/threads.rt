//! A script, performed in threads as far as to what there is to write.

ghost use Rattle.recorders.specs.Recording.{listed};
ghost use Rattle.recorders.specs.Receiving.{AreNew};
ghost use Rattle.sessions.specs.Playing.{MayPlay};
ghost use Rattle.sessions.specs.Writing.{Writes};
ghost use Rattle.sessions.specs.Performing.{IsRound, output_by};

use crate::ending::{Performance, end_drawn, stopped};
use crate::perform::begin;
use crate::play::{Played, play_by_crew};
use immediate::{ImmediateContext, RunCrew};
use recorders::{
    DealtLines, ListPorts, Passes, RecorderSetup, Returned, deal, open_ports, receive, settle,
};
use std::alloc::Allocator;
use std::sync::Wait;
use std::thread;
use std::thread::Threads;
use workers::{Bells, Gate, start_crews};

/// What comes out of the scope of the recorders.
#[derive(Drop)]
struct Round<A: Allocator> {
    played: Played<ImmediateContext<A>, A>,
    returned: Returned<A>,
}

/// Starts the recorders and the crew's threads, takes the lines of the immediate context, and waits for all of them.
fn play_in_scope<A: Allocator + Copy + Send + Sync, R: Threads + Wait + Sync, G: Gate + Sync>(
    alloc: A,
    crew: &RunCrew<'_, '_, A, R, G>,
    ports: &ListPorts<A>,
    passes: Passes<A>,
    lines: &DealtLines<'_, A>,
    immediate: ImmediateContext<A>,
) -> Round<A>
    requires start { AreNew ports.now.queue passes }
    requires may { MayPlay lines.now (listed lines.now) immediate }
    ensures { IsRound immediate.surface.size lines.now ports.now.queue result }
{
    thread::scope(
        thread::scope_env(),
        crew.rt,
        |scope| -> Round<A>
            requires { AreNew ports.now.queue passes × MayPlay lines.now (listed lines.now) immediate }
            ensures { IsRound immediate.surface.size lines.entry.now ports.entry.now.queue result }
        {
            let (rt, gate) = (crew.rt, crew.gate);
            start_crews(rt, scope, &crew.compiling, &crew.drawing, gate);
            let setup = RecorderSetup {
                rt,
                alloc,
                ports,
                gate,
                lines,
            };
            let mut received = receive(scope, setup, passes);
            let played = play_by_crew(alloc, crew, immediate, &mut received, lines);
            let returned = received.close();
            crew.close();
            Round { played, returned }
        },
    )
}

/// Reads a script and draws its scene, with up to four recorders and the crew beside this thread: what there is to write.
pub(crate) fn perform_in_threads<
    A: Allocator + Copy + Send + Sync,
    R: Threads + Wait + Sync,
    G: Gate + Sync,
>(rt: &R, alloc: A, workers: u32, gate: &G, text: Vec<u8, A>) -> Performance<ImmediateContext<A>, A>
    ensures { Writes text.items (output_by result.answers.items result.end) }
{
    let (scene, immediate) = match begin(alloc, text) {
        Ok(begun) => begun,
        Err((line, number)) => return stopped(alloc, line, number),
    };
    let Ok(lines) = deal(alloc, scene.lines.as_slice()) else {
        return stopped(alloc, 0, 1);
    };
    let Ok((ports, passes)) = open_ports(alloc) else {
        return stopped(alloc, 0, 1);
    };
    let bells = Bells::new(workers);
    let crew = RunCrew::new(rt, &alloc, &bells, gate);
    let round = play_in_scope(alloc, &crew, &ports, passes, &lines, immediate);
    let deferred = settle(rt, ports, round.returned);
    end_drawn(&scene, deferred, round.played)
}
