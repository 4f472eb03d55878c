//! Whether two states set the same. Their own `==` tells it of descriptions; this tells it of what they set.

ghost use Rattle.std.specs.Prelude.{◌≡◌, IsTrue};

use gfxspec::{Compare, LogicOp, StencilOp};
use states::{BlendState, DepthStencilState, Face};

fn is_same_compare(a: Compare, b: Compare) -> bool
    ensures { IsTrue result → a ≡ b }
{
    a == b
}

fn is_same_stencil_op(a: StencilOp, b: StencilOp) -> bool
    ensures { IsTrue result → a ≡ b }
{
    a == b
}

fn is_same_logic_op(a: LogicOp, b: LogicOp) -> bool
    ensures { IsTrue result → a ≡ b }
{
    a == b
}

fn is_same_face(a: Face, b: Face) -> bool
    ensures { IsTrue result → a ≡ b }
{
    is_same_stencil_op(a.fail, b.fail)
        && is_same_stencil_op(a.depth_fail, b.depth_fail)
        && is_same_stencil_op(a.pass, b.pass)
        && is_same_compare(a.func, b.func)
}

/// Whether depths are tested and stored alike.
fn is_same_depth_test(a: DepthStencilState, b: DepthStencilState) -> bool
    ensures depth { IsTrue result → a.depth ≡ b.depth }
    ensures write { IsTrue result → a.write ≡ b.write }
    ensures func { IsTrue result → a.func ≡ b.func }
{
    a.depth() == b.depth() && a.write() == b.write() && is_same_compare(a.func(), b.func())
}

/// Whether stencil values are tested and changed alike.
fn is_same_stencil_test(a: DepthStencilState, b: DepthStencilState) -> bool
    ensures stencil { IsTrue result → a.stencil ≡ b.stencil }
    ensures read_mask { IsTrue result → a.read_mask ≡ b.read_mask }
    ensures write_mask { IsTrue result → a.write_mask ≡ b.write_mask }
    ensures front { IsTrue result → a.front ≡ b.front }
    ensures back { IsTrue result → a.back ≡ b.back }
{
    a.stencil() == b.stencil()
        && a.read_mask() == b.read_mask()
        && a.write_mask() == b.write_mask()
        && is_same_face(a.front(), b.front())
        && is_same_face(a.back(), b.back())
}

/// Whether two depth-stencil states set the same.
pub(crate) fn is_same_depth_stencil(a: DepthStencilState, b: DepthStencilState) -> bool
    ensures { IsTrue result → a ≡ b }
{
    is_same_depth_test(a, b) && is_same_stencil_test(a, b)
}

/// Whether two blend states set the same.
pub(crate) fn is_same_blend(a: BlendState, b: BlendState) -> bool
    ensures { IsTrue result → a ≡ b }
{
    a.logic() == b.logic() && is_same_logic_op(a.op(), b.op()) && a.mask() == b.mask()
}
