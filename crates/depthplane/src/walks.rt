//! Eight walks side by side, over the rows and columns of a tile.

/// Walks at eight pixels of a row, the first of them at the place that contracts see. They go down rows and from span
/// to span; their depths are promised within 32 rows and columns of where they began.
pub trait Walks: Drop {
    ghost use Rattle.std.specs.Prelude.{◌≡◌, ℕ, ◌<◌, ◌+◌, IsTrue, slice_index};
    ghost use Rattle.gfxspec.specs.Limits.{side_bound};
    ghost use Rattle.gfxspec.specs.Raster.{centre, covers};
    ghost use Rattle.depthplane.specs.Place.{depth_of};
    ghost use Rattle.depthplane.specs.Places.{Places, IsNearStart};

    /// Where the walks are.
    ghost place: { Self → Places };

    /// Whether no value is looked at again before it is a depth. A loop that stands behind this test needn't ask in each row; nothing
    /// is promised of it.
    fn is_sure(&self) -> bool;

    /// The depths at the eight pixels, exact, rounded down and moved by the bias, wherever the triangle covers the centre.
    fn depths(&self) -> [u32; 8]
        ensures { (j : ℕ) → j < 8 → IsNearStart (place self.now) j
            → IsTrue (covers (place self.now).plane.triangle (centre ((place self.now).x + j) (place self.now).y))
            → slice_index result j ≡ depth_of (place self.now).plane ((place self.now).x + j) (place self.now).y };

    /// Goes one row down.
    fn next(&mut self)
        requires { (place self.old).y < side_bound }
        ensures { place self.new ≡ record (place self.old) { y = (place self.old).y + 1 } };

    /// Goes eight pixels to the right, to the next span of the row.
    fn eight_right(&mut self)
        requires { (place self.old).x < side_bound }
        ensures { place self.new ≡ record (place self.old) { x = (place self.old).x + 8 } };

    /// The same walks once more, for the rows of one column of spans.
    fn copied(&self) -> Self
        ensures { place result ≡ place self.now };
}
