//! The program `tiledraw SCRIPT OUT.tga [--workers N]`: draws a script, prints its answers and writes its image.
//!
//! The exit status is 0 where the script was drawn, 1 where one of its lines was refused (the last answer line says
//! which), 2 where the words are wrong or ask for help, and 3 where a file could not be read or written.
#![tactic(auto)]

ghost use Rattle.std.specs.Prelude.{◌≡◌, ◌<◌, ◌≤◌, ◌^◌, IfOk};
ghost use Rattle.std.specs.Process.{exit_status};
ghost use Rattle.commandline.specs.Report.{reported};
ghost use Rattle.sessions.specs.Writing.{course, Answered, HasCause};

mod descriptors;

use crate::descriptors::hold_standard;
use commandline::{Settings, SettingsFault, not_text, report, settings};
use gfxspec::{FromRead, Sink, Source, ToWrite};
use sessions::{Ended, SessionFault};
use std::env::Env;
use std::fs::File;
use std::process::ExitCode;
use std::rt::Files;
use std::sync::Wait;
use std::thread::Threads;
use std::{env, io};
use workers::NoGate;

fn main(rt: HostRuntime) -> ExitCode {
    match asked(&rt) {
        Ok(settings) => match hold_standard(&rt) {
            Ok(_standing) => told(&rt, &drawn(&rt, &settings)),
            Err(_) => told(&rt, &Err(SessionFault::Read)),
        },
        Err(fault) => refused(&rt, &fault),
    }
}

/// The settings that the program's words ask for.
fn asked<R: Env + AllocGlobal>(rt: &R) -> Result<Settings, SettingsFault>
    ensures few { IfOk result (λ s. s.workers ≤ 15) }
{
    let words = words(rt)?;
    settings(rt.alloc(), words.as_slice())
}

/// The words after the program's name.
fn words<R: Env + AllocGlobal>(rt: &R) -> Result<Vec<String>, SettingsFault> {
    match env::args(rt) {
        Ok(all) => Ok(all.skip(1).collect(rt.alloc())?),
        Err(error) => {
            if error.kind() == io::ErrorKind::InvalidData {
                Err(SettingsFault::from(not_text(rt.alloc())?))
            } else {
                Err(SettingsFault::Memory)
            }
        }
    }
}

/// Draws the script of one file into the image of another, and prints the answers.
fn drawn<R: Files + Print + AllocGlobal + Threads + Wait + Sync>(
    rt: &R,
    settings: &Settings,
) -> Result<Ended, SessionFault>
    requires few { settings.now.workers ≤ 15 }
{
    let Ok(script) = File::open(rt, settings.script.as_str()) else {
        return Err(SessionFault::Read);
    };
    let Ok(image) = File::create(rt, settings.image.as_str()) else {
        return Err(SessionFault::Image { taken: 0 });
    };
    let mut script = FromRead::new(script);
    let mut image = ToWrite::new(image);
    let mut lines = ToWrite::new(io::writer(rt));
    run(rt, &mut script, &mut image, &mut lines, settings.workers)
}

/// Runs the session, with workers beside the caller.
fn run<R: AllocGlobal + Threads + Wait + Sync, S: Source, I: Sink, L: Sink>(
    rt: &R,
    script: &mut S,
    image: &mut I,
    lines: &mut L,
    workers: u32,
) -> Result<Ended, SessionFault>
    requires few { workers ≤ 15 }
    requires script { S.failures script.old < 2 ^ 63 }
    requires image { I.failures image.old < 2 ^ 63 }
    requires lines { L.failures lines.old < 2 ^ 63 }
    ensures answer { S.tells script.old → I.tells image.old → L.tells lines.old → Answered (S.rest script.old) result
        (course L.written L.failures lines.old lines.new) (course I.written I.failures image.old image.new) }
    ensures cause { HasCause result (S.failures script.old) (S.failures script.new)
        (course L.written L.failures lines.old lines.new) (course I.written I.failures image.old image.new) }
{
    sessions::session(rt, rt.alloc(), script, image, lines, workers, &NoGate)
}

/// Says how the session ended, where there is something to say, and gives the exit status.
fn told<R: Eprint>(rt: &R, outcome: &Result<Ended, SessionFault>) -> ExitCode
    ensures { exit_status result ≡ (reported outcome.now).0 }
{
    let (status, text) = report(outcome);
    if !text.is_empty() {
        let _ = rt.eprintln(text);
    }
    ExitCode::from(status)
}

/// Says why the words are not taken, and gives the exit status.
fn refused<R: Eprint>(rt: &R, fault: &SettingsFault) -> ExitCode
    ensures { exit_status result ≡ 2 }
{
    let _ = match fault {
        SettingsFault::Parse(error) => rt.eprint(error),
        SettingsFault::Memory => rt.eprintln("tiledraw: out of memory"),
    };
    ExitCode::from(2)
}
