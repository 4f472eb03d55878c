//! Descriptors 0 to 2, which a program may be started without.
//!
//! A file takes the lowest number that is free. So where the program starts without standard output, say, the image would
//! become descriptor 1, and the answers would go into it.

use std::fs::File;
use std::io;
use std::os::fd::AsFd;
use std::rt::Files;

/// What stands for standard input, output and error where the program was started without them.
#[derive(Drop)]
pub(crate) struct Standing {
    _input: Option<File>,
    _output: Option<File>,
    _error: Option<File>,
}

/// Holds descriptors 0 to 2, so that no file that is opened later gets one of them. It fails where one is closed and
/// /dev/null can't be opened.
pub(crate) fn hold_standard(rt: &HostRuntime) -> io::Result<Standing> {
    Ok(Standing {
        _input: hold(rt, &rt.stdin())?,
        _output: hold(rt, &rt.stdout())?,
        _error: hold(rt, &rt.stderr())?,
    })
}

// None where the descriptor is open, as a copy of it shows. Else /dev/null takes its number, the lowest that is free, since
// those below it are held. It is opened for reading, so that what is written there fails and is told.
fn hold<F: AsFd>(rt: &HostRuntime, standard: &F) -> io::Result<Option<File>> {
    match standard.as_fd().try_clone_to_owned() {
        Ok(_) => Ok(None),
        Err(_) => Ok(Some(File::open(rt, "/dev/null")?)),
    }
}
