//! A draw whose triangles are set up already.

ghost use Rattle.std.specs.Prelude.{◌≡◌, IfSome, IsTrue};
ghost use Rattle.gfxspec.specs.Assembly.{primitives};
ghost use Rattle.assemble.specs.Drawing.{IsInRange, triangles_of};
ghost use Rattle.command.specs.Seen.{state_value};

use assemble::Draw;
use cmdlist::State;
use gfxspec::{PixelRect, Size, Topology, Vertex};
use states::RasterState;
use std::alloc::Allocator;

/// How many vertices a draw has at least that is remembered: fewer are set up sooner than they are found again.
const LEAST: u32 = 48;

/// How many vertices a draw has at most that is remembered: more are mostly drawn once in a run.
const MOST: u32 = 3072;

/// The vertices of a draw that is remembered, in order: of one without indices, and of neither few nor many vertices.
pub(crate) fn remembered<'a>(draw: &Draw<'a>) -> Option<&'a [Vertex]>
    requires { IsInRange draw.now }
    ensures { IfSome result (λ vertices. triangles_of draw.now ≡ primitives draw.now.topology vertices.now) }
{
    if draw.count < LEAST || MOST < draw.count {
        return None;
    }
    match draw.indices {
        Some(_) => None,
        None => {
            let start = draw.start as usize;
            Some(&draw.vertices[start..start + draw.count as usize])
        }
    }
}

/// A draw without indices, with the settings and the size of the target that its triangles were set up for, and the
/// numbers of these in the table: from `first` to before `past`.
#[derive(Drop)]
pub(crate) struct EarlierDraw<A: Allocator> {
    pub(crate) topology: Topology,
    pub(crate) vertices: Vec<Vertex, A>,
    pub(crate) raster: RasterState,
    pub(crate) scissor: PixelRect,
    pub(crate) size: Size,
    pub(crate) first: usize,
    pub(crate) past: usize,
}

impl<A: Allocator> EarlierDraw<A> {
    /// Whether the same vertices are drawn under a state, on a target of this size.
    pub(crate) fn is_of(
        &self,
        topology: Topology,
        vertices: &[Vertex],
        state: &State<'_>,
        size: Size,
    ) -> bool
        ensures topology { IsTrue result → self.now.topology ≡ topology }
        ensures vertices { IsTrue result → self.now.vertices.items ≡ vertices.now }
        ensures raster { IsTrue result → self.now.raster ≡ (state_value state.now).raster }
        ensures scissor { IsTrue result → self.now.scissor ≡ (state_value state.now).scissor }
        ensures size { IsTrue result → self.now.size ≡ size }
    {
        if self.topology != topology || self.size != size {
            return false;
        }
        if self.raster != state.raster || self.scissor != state.scissor {
            return false;
        }
        self.vertices.as_slice() == vertices
    }
}
