//! Brushes whose tests are known.

ghost use Rattle.std.specs.Prelude.{◌≡◌, if◌then◌else◌};
ghost use Rattle.tileprog.specs.Kinds.{tests_of};
ghost use Rattle.tileprog.specs.declared.kind.Tests.TheVariants.{Depth, Stencil};

use crate::brush::Brush;
use gfxspec::Compare;
use lanes::StencilTest;
use logicop::ColorWrite;

/// A brush that tests depth alone, with the comparison, whether depths are stored, and which bits of stored colours are kept: loops have them as
/// constants.
#[derive(Clone, Copy)]
pub(crate) struct DepthBrush {
    pub(crate) func: Compare,
    pub(crate) write: bool,
    pub(crate) keep: u32,
    pub(crate) brush: Brush,
    pub(crate) ghost kind: { tests_of brush.state ≡ Depth func write },
    pub(crate) ghost kept: { keep ≡ brush.write.keep },
}

impl DepthBrush {
    ghost use Rattle.std.specs.Prelude.{◌≡◌};

    /// The same brush by its comparison, which stands as a constant.
    #[inline(always)]
    pub(crate) fn by(self, func: Compare) -> DepthBrush
        requires { func ≡ self.func }
        ensures { result.brush ≡ self.brush }
    {
        DepthBrush {
            func,
            write: self.write,
            keep: self.keep,
            brush: self.brush,
        }
    }

    /// The same brush by whether it stores depths, which stands as a constant.
    #[inline(always)]
    pub(crate) fn storing(self, write: bool) -> DepthBrush
        requires { write ≡ self.write }
        ensures { result.brush ≡ self.brush }
    {
        DepthBrush {
            func: self.func,
            write,
            keep: self.keep,
            brush: self.brush,
        }
    }

    /// The same brush by the bits that it keeps of stored colours, which stand as a constant.
    #[inline(always)]
    pub(crate) fn keeping(self, keep: u32) -> DepthBrush
        requires { keep ≡ self.keep }
        ensures { result.brush ≡ self.brush }
    {
        DepthBrush {
            func: self.func,
            write: self.write,
            keep,
            brush: self.brush,
        }
    }

    /// What the brush makes of stored colours.
    #[inline(always)]
    pub(crate) fn colors(&self) -> ColorWrite
        ensures { result ≡ self.now.brush.write }
    {
        ColorWrite {
            keep: self.keep,
            flip: self.brush.write.flip,
        }
    }
}

/// A brush with a stencil test, and the test, which is made once for all its pixels.
#[derive(Drop)]
pub(crate) struct StencilBrush {
    pub(crate) test: StencilTest,
    pub(crate) brush: Brush,
    pub(crate) ghost kind: { tests_of brush.state ≡ Stencil },
    pub(crate) ghost rule: { test ≡ record { setting = brush.state; face = if brush.front then brush.state.front else brush.state.back; reference = brush.reference } },
}
