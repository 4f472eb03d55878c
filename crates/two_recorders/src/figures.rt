//! The corners of what is drawn.

use device::Vertex;

/// The width of the target, in pixels.
pub(crate) const WIDTH: u32 = 128;

/// The height of the target, in pixels.
pub(crate) const HEIGHT: u32 = 96;

/// A corner at a place in pixels, with its depth and colour.
fn corner(x: i32, y: i32, z: u32, rgba: [u8; 4]) -> Vertex {
    Vertex {
        x: x.wrapping_mul(65_536),
        y: y.wrapping_mul(65_536),
        z,
        rgba,
    }
}

/// A triangle that covers most of the target, far behind.
pub(crate) fn backdrop() -> [Vertex; 3] {
    let colour = [60, 70, 90, 255];
    [
        corner(0, 0, 15_000_000, colour),
        corner(200, 10, 15_500_000, colour),
        corner(0, 150, 14_000_000, colour),
    ]
}

/// The strip of a turn, four corners over the middle of the target: each half shows its part of it.
pub(crate) fn strip(half: u32, turn: u32) -> [Vertex; 4] {
    let (top, bottom, near, far) = match turn {
        0 => (8, 88, 9_000_000, 12_000_000),
        1 => (24, 60, 4_000_000, 13_000_000),
        _ => (40, 95, 10_500_000, 2_000_000),
    };
    let colour = match (half, turn) {
        (0, 0) => [200, 90, 30, 255],
        (0, 1) => [220, 180, 60, 255],
        (0, _) => [90, 160, 40, 255],
        (_, 0) => [30, 120, 200, 255],
        (_, 1) => [140, 60, 190, 255],
        _ => [20, 170, 150, 255],
    };
    [
        corner(4, top, near, colour),
        corner(124, top, far, colour),
        corner(20, bottom, far, colour),
        corner(110, bottom, near, colour),
    ]
}
