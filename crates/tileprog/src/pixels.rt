//! Pixels of a span.

ghost use Rattle.std.specs.Prelude.{◌<◌};

/// Some of the eight pixels of a span: the number of the span in a row of a tile, the row, and bit j for pixel j.
#[derive(Clone, Copy)]
pub(crate) struct SpanPixels {
    pub(crate) span: u32,
    pub(crate) row: u32,
    pub(crate) bits: u8,
    pub(crate) ghost in_row: { span < 4 },
    pub(crate) ghost in_tile: { row < 32 },
}
