//! Arguments that are natural numbers, as the values that they stand for.

ghost use Rattle.std.specs.Prelude.{◌≡◌, ◌∷◌, ◌<◌, false, refl, length, decimal, IfOk, IfErr, IfSome, IfNone};
ghost use Rattle.gfxspec.specs.Numbers.{cull_number, topology_number, compare_number, stencil_op_number, logic_op_number};
ghost use Rattle.states.specs.ColorMask.{mask_bits};
ghost use Rattle.scenetext.specs.declared.range.TheConstants.{U32, BYTE, FLAG, INDEX, TOPOLOGY, CULL, COMPARISON, STENCIL_OP, LOGIC_OP, COLOR_MASK};
ghost use Rattle.scenetext.specs.Numbers.{fits_kind};
ghost use Rattle.scenetext.specs.Commands.{flag_number};
ghost use Rattle.scenetext.specs.Faults.{word};
ghost use Rattle.scenetext.specs.Ranges.{kind_of, IsIn};
ghost use Rattle.scenetext.specs.Reading.{Numbering};

use crate::fault::{Fault, ReadError};
use crate::words::Words;
use gfxspec::{Compare, Cull, LogicOp, StencilOp, Topology};
use states::ColorMask;

/// A value that a number of some range stands for.
pub(crate) trait Argument: Sized {
    ghost numbering: { Numbering Self };

    /// The value of a number, if the number is within the range.
    fn of_number(number: u32) -> Option<Self>
        ensures some { IfSome result (λ value. (numbering.number value ≡ number) × IsIn numbering.range number) }
        ensures none { IfNone result (IsIn numbering.range number → ⊥) };
}

impl Argument for Topology {
    ghost numbering = { record { range = TOPOLOGY; number = topology_number; small = refl } };

    fn of_number(number: u32) -> Option<Topology> {
        Topology::from_number(number)
    }
}

impl Argument for Cull {
    ghost numbering = { record { range = CULL; number = cull_number; small = refl } };

    fn of_number(number: u32) -> Option<Cull> {
        Cull::from_number(number)
    }
}

impl Argument for Compare {
    ghost numbering = { record { range = COMPARISON; number = compare_number; small = refl } };

    fn of_number(number: u32) -> Option<Compare> {
        Compare::from_number(number)
    }
}

impl Argument for StencilOp {
    ghost numbering = { record { range = STENCIL_OP; number = stencil_op_number; small = refl } };

    fn of_number(number: u32) -> Option<StencilOp> {
        StencilOp::from_number(number)
    }
}

impl Argument for LogicOp {
    ghost numbering = { record { range = LOGIC_OP; number = logic_op_number; small = refl } };

    fn of_number(number: u32) -> Option<LogicOp> {
        LogicOp::from_number(number)
    }
}

impl Argument for ColorMask {
    ghost numbering = { record { range = COLOR_MASK; number = mask_bits; small = refl } };

    fn of_number(number: u32) -> Option<ColorMask> {
        ColorMask::from_bits(u8::try_from(number).ok()?)
    }
}

impl Argument for bool {
    ghost numbering = { record { range = FLAG; number = flag_number; small = refl } };

    fn of_number(number: u32) -> Option<bool> {
        match number {
            0 => Some(false),
            1 => Some(true),
            _ => None,
        }
    }
}

impl Argument for u8 {
    ghost numbering = { record { range = BYTE; number = λ number. number; small = refl } };

    fn of_number(number: u32) -> Option<u8> {
        u8::try_from(number).ok()
    }
}

impl Argument for u16 {
    ghost numbering = { record { range = INDEX; number = λ number. number; small = refl } };

    fn of_number(number: u32) -> Option<u16> {
        u16::try_from(number).ok()
    }
}

impl Argument for u32 {
    ghost numbering = { record { range = U32; number = λ number. number; small = refl } };

    fn of_number(number: u32) -> Option<u32> {
        Some(number)
    }
}

/// The value that the next word spells by its number.
pub(crate) fn next_argument<T: Argument>(words: &mut Words) -> Result<T, ReadError>
    requires { 0 < length words.old }
    ensures ok { IfOk result (λ value. (words.old ≡ decimal (T.numbering.number value) ∷ words.new) × IsIn T.numbering.range (T.numbering.number value)) }
    ensures err { IfErr result (λ e. (e ≡ ReadError.Fault Fault.Argument) × (fits_kind (kind_of T.numbering.range) (word words.old 0) ≡ false)) }
{
    let Some(number) = words.next_natural() else {
        return Err(ReadError::Fault(Fault::Argument));
    };
    T::of_number(number).ok_or(ReadError::Fault(Fault::Argument))
}
