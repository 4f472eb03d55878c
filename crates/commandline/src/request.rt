//! What the program is asked to do, and why it can't be known.

use clap::error::ErrorKind;
use std::alloc::AllocError;
use thiserror::Error;

/// What the program is asked to do.
#[derive(Debug, Drop)]
pub struct Settings {
    /// The file that the script is read from.
    pub script: String,
    /// The file that the image is written to.
    pub image: String,
    /// How many workers draw beside the caller, 0 to 15.
    pub workers: u32,
}

/// Why there are no settings.
#[derive(Debug, Drop, Error)]
pub enum SettingsFault {
    /// The words are wrong, or ask for help. Its text is for the user, and ends with a line feed.
    #[error("{0}")]
    Parse(clap::Error),
    #[error("out of memory")]
    Memory,
}

impl From<clap::Error> for SettingsFault {
    ghost use Rattle.commandline.specs.CommandLine.{IsFaultOf};

    ghost from_gives = { IsFaultOf };

    fn from(error: clap::Error) -> SettingsFault {
        if error.kind() == ErrorKind::OutOfMemory {
            SettingsFault::Memory
        } else {
            SettingsFault::Parse(error)
        }
    }
}

impl From<AllocError> for SettingsFault {
    ghost use Rattle.std.specs.Prelude.{◌≡◌};
    ghost use Rattle.commandline.specs.declared.request.SettingsFault.TheVariants.{Memory};

    ghost from_gives = { λ _ fault. fault ≡ Memory };

    fn from(_error: AllocError) -> SettingsFault {
        SettingsFault::Memory
    }
}
