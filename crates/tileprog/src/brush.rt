//! What a triangle under a state does to a pixel that it reaches.

ghost use Rattle.std.specs.Prelude.{◌≡◌};
ghost use Rattle.tileprog.specs.Kinds.{tests_of};

use crate::kind::{Tests, tests_of};
use logicop::ColorWrite;
use states::DepthStencilState;

/// What a triangle under a state does to a pixel that it reaches, decided once a word.
#[derive(Clone, Copy)]
pub(crate) struct Brush {
    pub(crate) state: DepthStencilState,
    pub(crate) front: bool,
    pub(crate) reference: u8,
    pub(crate) tests: Tests,
    pub(crate) write: ColorWrite,
    pub(crate) ghost decided: { tests ≡ tests_of state },
}

/// The brush of a write under these settings.
pub(crate) fn make_brush(
    state: DepthStencilState,
    front: bool,
    reference: u8,
    write: ColorWrite,
) -> Brush
    ensures state { result.state ≡ state }
    ensures front { result.front ≡ front }
    ensures reference { result.reference ≡ reference }
    ensures write { result.write ≡ write }
{
    Brush {
        state,
        front,
        reference,
        tests: tests_of(&state),
        write,
    }
}
