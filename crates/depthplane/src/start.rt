//! Where a triangle begins, and how many steps lead through it.

ghost use Rattle.std.specs.Prelude.{◌≡◌, ◌≤◌, ◌≤ℤ◌};
ghost use Rattle.gfxspec.specs.Snapping.{IsGridPlace};
ghost use Rattle.snap.specs.Corners.{triangle_of};
ghost use Rattle.edges.specs.Extremes.{greatest_of, least_of};
ghost use Rattle.depthplane.specs.Start.{IsLineStart, IsStartOf};

use snap::SnapTri;

/// A pixel that is above and to the left of each pixel whose centre lies between the corners of a triangle, or is that pixel, and how many steps to
/// the right and down lead from it to any of them at most.
#[derive(Clone, Copy, Debug)]
pub(crate) struct Start {
    pub(crate) left: u32,
    pub(crate) top: u32,
    pub(crate) steps: u32,
}

/// The same along a row or a column.
#[derive(Clone, Copy)]
pub(crate) struct LineStart {
    pub(crate) first: u32,
    pub(crate) steps: u32,
}

/// The least and the greatest of three places.
#[inline(always)]
fn extremes(a: i32, b: i32, c: i32) -> (i32, i32)
    requires first { IsGridPlace a }
    requires second { IsGridPlace b }
    requires third { IsGridPlace c }
    ensures least { result.0 ≡ least_of a b c }
    ensures greatest { result.1 ≡ greatest_of a b c }
    ensures order { result.0 ≤ℤ result.1 }
    ensures low { IsGridPlace result.0 }
    ensures high { IsGridPlace result.1 }
{
    (a.min(b).min(c), a.max(b).max(c))
}

/// From where on centres lie between two places.
#[inline(always)]
fn line_start(least: i32, greatest: i32) -> LineStart
    requires order { least ≤ℤ greatest }
    requires low { IsGridPlace least }
    requires high { IsGridPlace greatest }
    ensures start { IsLineStart result least greatest }
    ensures first { result.first ≤ 4096 }
    ensures steps { result.steps ≤ 8192 }
{
    LineStart {
        first: least.max(0) as u32 / 256,
        steps: (greatest - least + 127) as u32 / 256,
    }
}

impl Start {
    /// Where a triangle begins.
    #[inline(always)]
    pub(crate) fn of(triangle: &SnapTri) -> Start
        ensures start { IsStartOf result (triangle_of triangle.now) }
        ensures left { result.left ≤ 4096 }
        ensures top { result.top ≤ 4096 }
        ensures steps { result.steps ≤ 16384 }
    {
        let [x0, x1, x2] = triangle.x;
        let [y0, y1, y2] = triangle.y;
        let (left, right) = extremes(x0, x1, x2);
        let (top, bottom) = extremes(y0, y1, y2);
        let across = line_start(left, right);
        let down = line_start(top, bottom);
        Start {
            left: across.first,
            top: down.first,
            steps: across.steps + down.steps,
        }
    }
}
