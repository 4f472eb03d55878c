//! Rectangles as they wait beside many triangles: in half the memory.

ghost use Rattle.std.specs.Prelude.{◌≡◌, ◌<◌};

use gfxspec::PixelRect;
use std::marker::Model;

/// A rectangle whose sides lie before pixel 65,536. Contracts see it as the rectangle.
#[derive(Drop)]
pub struct ShortRect {
    left: u16,
    top: u16,
    right: u16,
    bottom: u16,
}

impl Model for ShortRect {
    ghost use Rattle.gfxspec.specs.declared.geometry.PixelRect.{PixelRect};

    ghost Value = { PixelRect };

    ghost view = { λ r. record { left = r.left; top = r.top; right = r.right; bottom = r.bottom } };
}

impl ShortRect {
    /// The rectangle, short.
    #[inline(always)]
    pub(crate) fn of(rect: PixelRect) -> ShortRect
        requires left { rect.left < 65536 }
        requires top { rect.top < 65536 }
        requires right { rect.right < 65536 }
        requires bottom { rect.bottom < 65536 }
        ensures { result ≡ rect }
    {
        ShortRect {
            left: rect.left as u16,
            top: rect.top as u16,
            right: rect.right as u16,
            bottom: rect.bottom as u16,
        }
    }

    /// The rectangle.
    #[inline(always)]
    pub fn rect(&self) -> PixelRect
        ensures { result ≡ self.now }
    {
        PixelRect {
            left: u32::from(self.left),
            top: u32::from(self.top),
            right: u32::from(self.right),
            bottom: u32::from(self.bottom),
        }
    }
}
