//! Why a script could not be read.

ghost use Rattle.std.specs.Prelude.{◌≡◌};
ghost use Rattle.scenetext.specs.declared.fault.ReadError.TheVariants.{Memory};
ghost use Rattle.scenetext.specs.Faults.{number_of_fault};

use std::alloc::{AllocError, AllocFailed};

/// What is wrong with a line, in the order in which it is looked for.
#[derive(Clone, Copy)]
pub enum Fault {
    LineForm,
    FirstLine,
    Actor,
    Command,
    ArgumentCount,
    Argument,
    NoSuchList,
}

impl Fault {
    /// The number that a `refused` line gives.
    pub(crate) fn number(self) -> u32
        ensures { result ≡ number_of_fault self }
    {
        match self {
            Fault::LineForm => 101,
            Fault::FirstLine => 102,
            Fault::Actor => 103,
            Fault::Command => 104,
            Fault::ArgumentCount => 105,
            Fault::Argument => 106,
            Fault::NoSuchList => 107,
        }
    }
}

/// Why a line could not be read.
#[derive(Drop)]
pub enum ReadError {
    Memory,
    Fault(Fault),
}

impl From<AllocError> for ReadError {
    ghost from_gives = { λ _ e. e ≡ Memory };

    fn from(_e: AllocError) -> ReadError {
        ReadError::Memory
    }
}

impl<T: Drop> From<AllocFailed<T>> for ReadError {
    ghost from_gives = { λ _ e. e ≡ Memory };

    fn from(_e: AllocFailed<T>) -> ReadError {
        ReadError::Memory
    }
}
