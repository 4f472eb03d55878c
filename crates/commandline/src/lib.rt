//! The command line of `tiledraw SCRIPT OUT.tga [--workers N]`: what its words ask for, by clap, and how the end of a session is told to
//! who called the program.
//!
//! It stands apart from the program, since the check of a program is one of all that it links.
#![tactic(auto)]

mod outcome;
mod request;
mod words;

pub use outcome::report;
pub use request::{Settings, SettingsFault};
pub use words::{not_text, settings};
