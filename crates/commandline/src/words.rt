//! The words after the program's name, read by clap.

ghost use Rattle.std.specs.Prelude.{◌≡◌, ◌≤◌, [], true, IfOk, IfErr, OnOk, MatchResult, string_bytes};
ghost use Rattle.clap.specs.Words.{app_of, fault_of, kind_of, takes};
ghost use Rattle.commandline.specs.CommandLine.{AreSettingsOf, HasWords, IsFaultAt, IsOperand, IsWorkersOption, TakesTwo, TakesWorkers, texts_of, tiledraw};
ghost use Rattle.commandline.specs.declared.request.SettingsFault.TheVariants.{Memory};

use crate::request::{Settings, SettingsFault};
use clap::builder::ValueParser;
use clap::error::ErrorKind;
use clap::{Arg, ArgAction, Command, Error};
use gfxspec::WORKER_LIMIT;
use std::alloc::{AllocError, Allocator, Global};

const SCRIPT: &str = "SCRIPT";

const IMAGE: &str = "OUT.tga";

const WORKERS: &str = "workers";

/// The settings that the words after the program's name ask for.
pub fn settings(alloc: Global, words: &[String]) -> Result<Settings, SettingsFault>
    ensures given { IfOk result (AreSettingsOf (texts_of words.now)) }
    ensures few { IfOk result (λ s. s.workers ≤ 15) }
    ensures sound { OnOk result (fault_of tiledraw (texts_of words.now) ≡ []) }
    ensures faults { IfErr result (IsFaultAt (texts_of words.now)) }
    ensures taken { takes tiledraw (texts_of words.now) ≡ true → IfErr result (λ fault. fault ≡ Memory) }
    ensures two { TakesTwo (texts_of words.now) result }
    ensures counted { TakesWorkers (texts_of words.now) result }
{
    let matches = command(alloc)?.try_get_matches_from(words)?;
    let script = matches.get_str(SCRIPT).unwrap();
    let image = matches.get_str(IMAGE).unwrap();
    let workers = matches.get_one::<u32>(WORKERS).unwrap();
    Ok(Settings {
        script: copied(alloc, script)?,
        image: copied(alloc, image)?,
        workers,
    })
}

/// The command `tiledraw SCRIPT OUT.tga [--workers N]`.
pub(crate) fn command<'a>(alloc: Global) -> Result<Command<'a>, AllocError>
    ensures app { IfOk result (λ c. app_of c ≡ tiledraw) }
    ensures words { IfOk result HasWords }
{
    Command::new(alloc, "tiledraw")
        .no_binary_name(true)
        .about("Draws a script by a software Direct3D 11 device")
        .arg(required(alloc, SCRIPT).help("The script to draw"))?
        .arg(required(alloc, IMAGE).help("The Truevision TGA image to write"))?
        .arg(workers_option(alloc))
}

/// The parser's error at a word that is not UTF-8.
pub fn not_text(alloc: Global) -> Result<Error, AllocError>
    ensures { IfOk result (λ error. kind_of error ≡ ErrorKind.InvalidValue) }
{
    let mut command = command(alloc)?;
    command.error(
        ErrorKind::InvalidValue,
        "invalid UTF-8 was detected in one or more arguments",
    )
}

/// A word that has to be there.
fn required<'a>(alloc: Global, name: &'a str) -> Arg<'a>
    ensures { IsOperand name.entry.now result }
{
    Arg::new(alloc, name).required(true).action(ArgAction::Set)
}

/// The option `--workers N`.
fn workers_option<'a>(alloc: Global) -> Arg<'a>
    ensures { IsWorkersOption result }
{
    Arg::new(alloc, WORKERS)
        .long(WORKERS)
        .value_name("N")
        .value_parser(ValueParser::unsigned(0, u64::from(WORKER_LIMIT)))
        .default_value("0")
        .action(ArgAction::Set)
        .help("How many workers draw beside the caller, 0 to 15")
}

/// An operand as text of its own.
pub(crate) fn copied<A: Allocator>(alloc: A, operand: &str) -> Result<String<A>, SettingsFault>
    ensures { MatchResult result (λ text. string_bytes text ≡ operand.now) (λ fault. fault ≡ Memory) }
{
    Ok(String::from_str(alloc, operand)?)
}
