//! The command line: words and what they ask for, and the texts of faults. A line here is the words with spaces between them.

use clap::error::ErrorKind;
use commandline::{Settings, SettingsFault, not_text, report, settings};
use sessions::{Ended, SessionFault};
use std::alloc::{AllocError, Global};
use std::process::Abort;
use std::test::Fail;

fn asked(alloc: Global, line: &str) -> Result<Settings, SettingsFault> {
    let mut words = Vec::new(alloc);
    if !line.is_empty() {
        for word in line.split(' ') {
            let mut text = String::new(alloc);
            text.push_str(word)?;
            words.push(text).map_err(AllocError::from)?;
        }
    }
    settings(alloc, words.as_slice())
}

fn fault_of(alloc: Global, line: &str) -> Option<clap::Error> {
    match asked(alloc, line) {
        Err(SettingsFault::Parse(error)) => Some(error),
        _ => None,
    }
}

#[test]
fn two_words_are_script_and_image(rt: HostRuntime) -> Result<(), Fail> {
    for (line, script, image, workers) in [
        ("scene.txt out.tga", "scene.txt", "out.tga", 0),
        ("-- -h --help", "-h", "--help", 0),
        ("-- --workers 3", "--workers", "3", 0),
        ("a b --workers 0", "a", "b", 0),
        ("a b --workers 15", "a", "b", 15),
        ("--workers 3 a b", "a", "b", 3),
        ("a --workers 3 b", "a", "b", 3),
        ("a --workers=3 b", "a", "b", 3),
        ("--workers 3 -- a b", "a", "b", 3),
    ] {
        let asked = asked(rt.alloc(), line)?;
        let files = (asked.script.as_str(), asked.image.as_str());
        assert!(rt;
            files == (script, image) && asked.workers == workers,
            "{line}"
        );
    }
    Ok(())
}

/// Each of the lines has a fault of this kind.
fn assert_faults(rt: &impl Abort, alloc: Global, lines: &str, kind: ErrorKind) {
    for line in lines.split('\n') {
        let fault = fault_of(alloc, line);
        assert!(rt; fault.is_some_and(|fault| fault.kind() == kind), "{line}");
    }
}

const UNKNOWN: &str = "a b c
-x a b
a b --size
a b --workers -1
a b -w 1";

// The last line ends with an empty word.
const INVALID: &str = "a b --workers 16
a b --workers 18446744073709551616
a b --workers=-1
a b --workers two
a b --workers 1.0
a b --workers=
a b --workers ";

#[test]
fn faults_have_their_kinds(rt: HostRuntime) {
    let alloc = rt.alloc();
    assert_faults(&rt, alloc, "\na", ErrorKind::MissingRequiredArgument);
    assert_faults(&rt, alloc, UNKNOWN, ErrorKind::UnknownArgument);
    assert_faults(&rt, alloc, INVALID, ErrorKind::ValueValidation);
    assert_faults(&rt, alloc, "a b --workers", ErrorKind::InvalidValue);
    let twice = "--workers 1 a b --workers=2";
    assert_faults(&rt, alloc, twice, ErrorKind::ArgumentConflict);
    assert_faults(&rt, alloc, "--help\na -h", ErrorKind::DisplayHelp);
}

const HELP: &str = "Draws a script by a software Direct3D 11 device

Usage: tiledraw [OPTIONS] <SCRIPT> <OUT.tga>

Arguments:
  <SCRIPT>   The script to draw
  <OUT.tga>  The Truevision TGA image to write

Options:
      --workers <N>  How many workers draw beside the caller, 0 to 15 [default: 0]
  -h, --help         Print help
";

const TOO_MANY_WORKERS: &str = "error: invalid value '16' for '--workers <N>': 16 is not in 0..=15

For more information, try '--help'.
";

const NOT_TEXT: &str = "error: invalid UTF-8 was detected in one or more arguments

Usage: tiledraw [OPTIONS] <SCRIPT> <OUT.tga>

For more information, try '--help'.
";

#[test]
fn faults_have_their_texts(rt: HostRuntime) -> Result<(), Fail> {
    let alloc = rt.alloc();
    let help = fault_of(alloc, "--help").ok_or(AllocError)?;
    let many = fault_of(alloc, "a b --workers 16").ok_or(AllocError)?;
    let faults = [
        (help, HELP),
        (many, TOO_MANY_WORKERS),
        (not_text(alloc)?, NOT_TEXT),
    ];
    for (fault, text) in &faults {
        assert!(rt; format!(in alloc; "{fault}")?.as_str() == *text);
    }
    Ok(())
}

#[test]
fn want_of_memory_is_its_own_fault(rt: HostRuntime) {
    let parser = SettingsFault::from(clap::Error::from(AllocError));
    assert!(rt; matches!(parser, SettingsFault::Memory));
}

#[test]
fn each_end_has_its_status(rt: HostRuntime) {
    let refused = Ended::Refused { line: 2, number: 3 };
    assert!(rt; report(&Ok(Ended::Done)) == (0, ""));
    assert!(rt; report(&Ok(refused)) == (1, ""));
    let image = SessionFault::Image { taken: 0 };
    let lines = SessionFault::Lines { taken: 9 };
    assert!(rt; report(&Err(SessionFault::Read)) == (3, "tiledraw: cannot read script"));
    assert!(rt; report(&Err(image)) == (3, "tiledraw: cannot write image"));
    assert!(rt; report(&Err(lines)) == (3, "tiledraw: cannot write answers"));
}
