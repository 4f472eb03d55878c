//! A draw, and its triangles.

ghost use Rattle.std.specs.Prelude.{◌≡◌, ◌<◌, ◌^◌, length};
ghost use Rattle.assemble.specs.Drawing.{IsInRange, triangles_of, uncut_triangles};
ghost use Rattle.assemble.specs.Places.{ListTakesThrees, ListDropsIncomplete, StripTakesEven, StripTakesOdd, StripDropsIncomplete};

use crate::places::{Triangles, count_of_strip};
use gfxspec::{Topology, Vertex};

/// What a draw takes of its buffers: `count` places from `start` on, of the indices if there are any and else of the
/// vertices. An index with `base` added names a vertex.
#[derive(Clone, Copy, Debug)]
pub struct Draw<'a> {
    pub topology: Topology,
    pub vertices: &'a [Vertex],
    pub indices: Option<&'a [u16]>,
    pub count: u32,
    pub start: u32,
    pub base: i32,
}

/// The triangles of a draw in order
/// (Direct3D 11.3 Functional Specification, "Input Assembler Stage": primitive topologies, cuts of indexed strips).
pub fn triangles<'a>(draw: &Draw<'a>) -> Triangles<'a>
    requires { IsInRange draw.now }
    ensures list { result ≡ triangles_of draw.now }
    ensures fits { length result < 2 ^ 32 }
{
    let start = draw.start as usize;
    let end = start + draw.count as usize;
    match draw.indices {
        None => Triangles::of_vertices(draw.topology, &draw.vertices[start..end]),
        Some(indices) => Triangles::of_indices(
            draw.topology,
            draw.vertices,
            draw.base,
            &indices[start..end],
        ),
    }
}

/// How many triangles so many vertices or indices are, where no index cuts a strip of them.
pub fn uncut_triangles(topology: Topology, count: u32) -> u32
    ensures { result ≡ uncut_triangles topology count }
{
    match topology {
        Topology::TriangleList => count / 3,
        Topology::TriangleStrip => count.saturating_sub(2),
    }
}

/// How many triangles a draw has: known at once of a list and without indices, and of an indexed strip in one pass
/// over its indices.
pub fn triangle_count(draw: &Draw<'_>) -> u32
    requires { IsInRange draw.now }
    ensures { result ≡ length (triangles_of draw.now) }
{
    match (draw.topology, draw.indices) {
        (Topology::TriangleList, _) => uncut_triangles(Topology::TriangleList, draw.count),
        (Topology::TriangleStrip, None) => uncut_triangles(Topology::TriangleStrip, draw.count),
        (Topology::TriangleStrip, Some(indices)) => {
            let start = draw.start as usize;
            count_of_strip(&indices[start..start + draw.count as usize])
        }
    }
}

/// Which places make a triangle.
pub fn places_law()
    ensures list { ListTakesThrees }
    ensures list_end { ListDropsIncomplete }
    ensures strip_even { StripTakesEven }
    ensures strip_odd { StripTakesOdd }
    ensures strip_end { StripDropsIncomplete }
{}
