//! The threads of a crew, for as long as a body runs.

use immediate::RunCrew;
use std::alloc::Allocator;
use std::sync::Wait;
use std::thread;
use std::thread::Threads;
use workers::{Gate, start_crews};

/// Runs a body on the caller's thread while the threads of a crew stand by for its calls, and sends them home behind it. What
/// the body gives is given; where no thread starts, its calls draw alone.
pub fn while_crew_works<
    A: Allocator + Copy + Send + Sync,
    R: Threads + Wait + Sync,
    G: Gate + Sync,
    T,
    F: FnOnce() -> T,
>(crew: &RunCrew<'_, '_, A, R, G>, body: F) -> T
    requires { F.pre body }
    ensures { F.post body result }
{
    thread::scope(
        thread::scope_env(),
        crew.rt,
        |scope| -> T
            requires { F.pre body }
            ensures { F.post body result }
        {
            start_crews(crew.rt, scope, &crew.compiling, &crew.drawing, crew.gate);
            let made = body();
            crew.close();
            made
        },
    )
}
