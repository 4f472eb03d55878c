//! The stencil and the depth test at one pixel.
//!
//! A depth is 0 to 16,777,215, a stencil value and its masks 8 bits. Both tests are decided first; what they say then
//! picks one stencil operation, and whether the depth is written.
#![tactic(auto)]

ghost use Rattle.std.specs.Prelude.{◌≡◌, if◌then◌else◌};
ghost use Rattle.gfxspec.specs.DepthStencil.{compares, stencil_result, masked, stencil_passes, depth_passes, chosen_op, tested};
ghost use Rattle.states.specs.DepthStencil.{face_setting};

use gfxspec::{Compare, DepthStencil, StencilOp};
use states::{DepthStencilState, Face};

/// What both tests leave of a pixel's depth and stencil, and whether both passed.
#[derive(Clone, Copy, Debug, PartialEq, Eq)]
pub struct Tested {
    pub after: DepthStencil,
    pub passed: bool,
}

/// Both tests of a new depth against what is stored, by the operations of the front or of the back face
/// (Direct3D 11.3 Functional Specification, "Output Merger Stage", depth and stencil state).
#[inline]
pub fn test(
    state: &DepthStencilState,
    front: bool,
    reference: u8,
    new_z: u32,
    old: DepthStencil,
) -> Tested
    ensures { tested state.now (if front then state.now.front else state.now.back) reference new_z old
        ≡ record { after = result.after; passed = result.passed } }
{
    let face = if front { state.front() } else { state.back() };
    let stencil_ok = stencil_test(state, &face, reference, old.stencil);
    let depth_ok = depth_test(state, new_z, old.depth);
    let passed = stencil_ok && depth_ok;
    Tested {
        after: DepthStencil {
            depth: if passed && state.depth() && state.write() {
                new_z
            } else {
                old.depth
            },
            stencil: if state.stencil() {
                let op = operation(&face, stencil_ok, depth_ok);
                under_mask(
                    state.write_mask(),
                    operated(op, old.stencil, reference),
                    old.stencil,
                )
            } else {
                old.stencil
            },
        },
        passed,
    }
}

/// Whether the stencil test passes; it does where it is disabled.
#[inline]
fn stencil_test(state: &DepthStencilState, face: &Face, reference: u8, stored: u8) -> bool
    ensures { result ≡ stencil_passes state.now (face_setting face.now) reference stored }
{
    let read = state.read_mask();
    let left = u32::from(reference & read);
    let right = u32::from(stored & read);
    !state.stencil() || relates(face.func, left, right)
}

/// Whether the depth test passes; it does where it is disabled.
#[inline]
fn depth_test(state: &DepthStencilState, new: u32, stored: u32) -> bool
    ensures { result ≡ depth_passes state.now new stored }
{
    !state.depth() || relates(state.func(), new, stored)
}

/// Whether a comparison holds of a new value, on the left, and a stored one.
#[inline]
fn relates(func: Compare, new: u32, stored: u32) -> bool
    ensures { result ≡ compares func new stored }
{
    match func {
        Compare::Never => false,
        Compare::Less => new < stored,
        Compare::Equal => new == stored,
        Compare::LessEqual => new <= stored,
        Compare::Greater => new > stored,
        Compare::NotEqual => new != stored,
        Compare::GreaterEqual => new >= stored,
        Compare::Always => true,
    }
}

/// The operation that the outcomes of the tests choose.
#[inline]
fn operation(face: &Face, stencil_ok: bool, depth_ok: bool) -> StencilOp
    ensures { result ≡ chosen_op (face_setting face.now) stencil_ok depth_ok }
{
    match (stencil_ok, depth_ok) {
        (false, _) => face.fail,
        (true, false) => face.depth_fail,
        (true, true) => face.pass,
    }
}

/// What an operation makes of a stored value, before the write mask.
#[inline]
fn operated(op: StencilOp, stored: u8, reference: u8) -> u8
    ensures { result ≡ stencil_result op stored reference }
{
    match op {
        StencilOp::Keep => stored,
        StencilOp::Zero => 0,
        StencilOp::Replace => reference,
        StencilOp::IncrSat => stored.saturating_add(1),
        StencilOp::DecrSat => stored.saturating_sub(1),
        StencilOp::Invert => !stored,
        StencilOp::Incr => stored.wrapping_add(1),
        StencilOp::Decr => stored.wrapping_sub(1),
    }
}

/// The new value's bits where the mask has ones, and else the old one's.
#[inline]
fn under_mask(mask: u8, new: u8, old: u8) -> u8
    ensures { result ≡ masked mask new old }
{
    (new & mask) | (old & !mask)
}
