//! How a session's end is told to the caller of the program.

ghost use Rattle.std.specs.Prelude.{◌≡◌};
ghost use Rattle.commandline.specs.Report.{reported};

use sessions::{Ended, SessionFault};

/// The exit status, and the text for standard error, which is empty where nothing is said.
pub fn report(outcome: &Result<Ended, SessionFault>) -> (u8, &'static str)
    ensures { (result.0, result.1.now) ≡ reported outcome.now }
{
    match outcome {
        Ok(Ended::Done) => (0, ""),
        Ok(Ended::Refused { .. }) => (1, ""),
        Err(SessionFault::Read) => (3, "tiledraw: cannot read script"),
        Err(SessionFault::Image { .. }) => (3, "tiledraw: cannot write image"),
        Err(SessionFault::Lines { .. }) => (3, "tiledraw: cannot write answers"),
    }
}
