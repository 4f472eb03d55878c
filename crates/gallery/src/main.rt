//! Draws each example that data/index names, and prints its answers and the SHA-256 of its image.
//!
//! A word gives a number of workers, 0 to 15: each example is then drawn once more with so many workers beside the caller,
//! and what that leaves is printed too where it differs. The exit status is 1 where an example differs or can't be drawn,
//! and 2 where the words are wrong.
#![tactic(auto)]

ghost use Rattle.std.specs.Prelude.{◌≤◌, IfOk, IfSome};

use gfxspec::{Broken, FromRead, Sink, WORKER_LIMIT};
use hex::encode;
use sessions::{session, session_alone};
use sha2::{Digest, Sha256};
use std::env::Env;
use std::fs::File;
use std::io::Write;
use std::process::ExitCode;
use std::rt::Files;
use std::sync::Wait;
use std::thread::Threads;
use std::{env, fs, io};
use workers::NoGate;

/// Keeps the bytes of answer lines.
#[derive(Drop)]
struct Kept {
    bytes: Vec<u8>,
    failures: u64,
}

impl Sink for Kept {
    ghost use Rattle.std.specs.Prelude.{[]};

    ghost tells = { λ sink. ⊥ };

    ghost written = { λ sink. [] };

    ghost failures = { λ sink. sink.failures };

    fn put(&mut self, piece: &[u8]) -> Result<usize, Broken> {
        if self.bytes.extend_from_slice(piece).is_ok() {
            return Ok(piece.len());
        }
        self.failures += 1;
        Err(Broken)
    }
}

/// Takes the bytes of an image, and keeps nothing but what their digest needs.
#[derive(Drop)]
struct Digesting {
    hasher: Sha256,
}

impl Sink for Digesting {
    ghost use Rattle.std.specs.Prelude.{[]};

    ghost tells = { λ sink. ⊥ };

    ghost written = { λ sink. [] };

    ghost failures = { λ sink. 0 };

    fn put(&mut self, piece: &[u8]) -> Result<usize, Broken> {
        self.hasher.update(piece);
        Ok(piece.len())
    }
}

/// What a session left of an example.
#[derive(Drop)]
struct Drawn {
    /// Its answer lines.
    lines: Vec<u8>,
    /// The digest of its image, in hexadecimal digits.
    digest: String,
}

impl Drawn {
    /// Whether lines and image are those of another.
    fn agrees(&self, other: &Drawn) -> bool {
        self.lines.as_slice() == other.lines.as_slice()
            && self.digest.as_str() == other.digest.as_str()
    }
}

fn main(rt: HostRuntime) -> ExitCode {
    let Ok(workers) = asked(&rt) else {
        let _ = rt.eprintln("usage: gallery [WORKERS], 0 to 15");
        return ExitCode::from(2);
    };
    match show_all(&rt, workers) {
        Ok(true) => ExitCode::SUCCESS,
        _ => ExitCode::from(1),
    }
}

/// Shows each example that the file index names, one a line, and answers whether all could be drawn and agreed.
fn show_all<R: Files + Print + AllocGlobal + Threads + Wait + Sync>(
    rt: &R,
    workers: Option<u32>,
) -> Result<bool, io::Error>
    requires few { IfSome workers (λ n. n ≤ 15) }
{
    let index = fs::read_to_string(rt, "index")?;
    let mut well = true;
    for example in index.as_str().lines() {
        if !matches!(show(rt, example, workers), Ok(true)) {
            well = false;
        }
    }
    Ok(well)
}

/// The words are wrong.
#[derive(Drop)]
struct Usage;

/// How many workers the second round has, where a word asks for one.
fn asked<R: Env + AllocGlobal>(rt: &R) -> Result<Option<u32>, Usage>
    ensures few { IfOk result (λ workers. IfSome workers (λ n. n ≤ 15)) }
{
    let Ok(words) = env::args(rt) else {
        return Err(Usage);
    };
    let mut words = words.skip(1);
    let Some(word) = words.next() else {
        return Ok(None);
    };
    match word.as_str().parse::<u32>() {
        Ok(workers) if workers <= WORKER_LIMIT && words.next().is_none() => Ok(Some(workers)),
        _ => Err(Usage),
    }
}

/// Draws an example, and prints its name and what is left of it: once, where both rounds agree, which is the answer.
fn show<R: Files + Print + AllocGlobal + Threads + Wait + Sync>(
    rt: &R,
    example: &str,
    workers: Option<u32>,
) -> Result<bool, io::Error>
    requires few { IfSome workers (λ n. n ≤ 15) }
{
    println!(rt; "{example}")?;
    let alone = draw(rt, example, None)?;
    tell(rt, &alone)?;
    let Some(count) = workers else {
        return Ok(true);
    };
    let beside = draw(rt, example, Some(count))?;
    if alone.agrees(&beside) {
        return Ok(true);
    }
    println!(rt; "with {count} workers it differs:")?;
    tell(rt, &beside)?;
    Ok(false)
}

/// Prints the answers, and the digest of the image.
fn tell<R: Print>(rt: &R, drawn: &Drawn) -> Result<(), io::Error> {
    io::writer(rt).write_all(drawn.lines.as_slice())?;
    println!(rt; "image {}", drawn.digest)
}

/// Draws an example, by the session of one thread or by the one with workers.
fn draw<R: Files + AllocGlobal + Threads + Wait + Sync>(
    rt: &R,
    example: &str,
    workers: Option<u32>,
) -> Result<Drawn, io::Error>
    requires few { IfSome workers (λ n. n ≤ 15) }
{
    let mut script = FromRead::new(File::open(rt, example)?);
    let mut image = Digesting {
        hasher: Sha256::new(),
    };
    let mut lines = Kept {
        bytes: Vec::new(rt.alloc()),
        failures: 0,
    };
    let ended = match workers {
        None => session_alone(rt.alloc(), &mut script, &mut image, &mut lines),
        Some(count) => {
            let alloc = rt.alloc();
            session(
                rt,
                alloc,
                &mut script,
                &mut image,
                &mut lines,
                count,
                &NoGate,
            )
        }
    };
    match ended {
        Ok(_) => Ok(Drawn {
            lines: lines.bytes,
            digest: encode(rt.alloc(), image.hasher.finalize())?,
        }),
        Err(_) => Err(io::Error::from(io::ErrorKind::Other)),
    }
}
