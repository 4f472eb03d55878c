//! The places that a draw takes, in order, and the triangles that they make.

ghost use Rattle.std.specs.Prelude.{◌≡◌, ◌≤◌, ◌<◌, ◌^◌, ℕ, ℤ, List, length, IsTrue, MatchOption, [], ◌∷◌};
ghost use Rattle.gfxspec.specs.declared.geometry.Vertex.{Vertex};
ghost use Rattle.gfxspec.specs.declared.state.Topology.TheVariants.{TriangleStrip};
ghost use Rattle.gfxspec.specs.Assembly.{indexed_primitives, primitives, vertex_at};
ghost use Rattle.gfxspec.specs.Refusals.{names_vertex};
ghost use Rattle.assemble.specs.Order.{arranged_of, step_of, following_of, topology_of, left_of, indexed_left};
ghost use Rattle.assemble.specs.Cuts.{HasNoCutAhead, IsBehindCut, IsReady};
ghost use Rattle.assemble.specs.Triangle.{primitive_of};
ghost use Rattle.assemble.specs.Used.{AreUsedWell};

use gfxspec::{STRIP_CUT, Topology, Vertex};
use std::marker::Model;

/// Three vertices, the leading one first.
#[derive(Clone, Copy, Debug, PartialEq, Eq)]
pub struct Tri {
    pub v: [Vertex; 3],
}

/// How the next triangle takes its places.
#[derive(Clone, Copy, Debug)]
pub(crate) enum Order {
    /// Three places, and the next triangle the three behind them.
    List,
    /// A place and the two behind it, and the next triangle from the second on.
    Even,
    /// The same, with the last two the other way round.
    Odd,
}

impl Order {
    /// The order in which a topology begins.
    fn first(topology: Topology) -> Self
        ensures topology { topology_of result ≡ topology }
        ensures triangles { (vs : List Vertex) → left_of result vs ≡ primitives topology vs }
        ensures indexed { (vs : List Vertex) (base : ℤ) (indices : List ℕ) → indexed_left result vs base indices ≡ indexed_primitives topology vs base indices }
    {
        match topology {
            Topology::TriangleList => Order::List,
            Topology::TriangleStrip => Order::Even,
        }
    }

    /// The triangle of three places.
    fn arranged(self, a: Vertex, b: Vertex, c: Vertex) -> Tri
        ensures { primitive_of result ≡ arranged_of self a b c }
    {
        match self {
            Order::List | Order::Even => Tri { v: [a, b, c] },
            Order::Odd => Tri { v: [a, c, b] },
        }
    }

    /// How many places on the next triangle begins.
    fn step(self) -> usize
        ensures { result ≡ step_of self }
    {
        match self {
            Order::List => 3,
            Order::Even | Order::Odd => 1,
        }
    }

    /// The order of the triangle after the next one.
    fn following(self) -> Self
        ensures { result ≡ following_of self }
    {
        match self {
            Order::List => Order::List,
            Order::Even => Order::Odd,
            Order::Odd => Order::Even,
        }
    }
}

/// The triangles of the vertices that are left.
#[derive(Drop)]
pub(crate) struct Plain<'a> {
    order: Order,
    vertices: &'a [Vertex],
}

impl<'a> Model for Plain<'a> {
    ghost use Rattle.std.specs.Prelude.{List};
    ghost use Rattle.gfxspec.specs.Assembly.{Primitive};

    ghost Value = { List Primitive };

    ghost use Rattle.assemble.specs.Order.{left_of};

    ghost view = { λ p. left_of p.order p.vertices.now };
}

impl<'a> Plain<'a> {
    pub(crate) fn new(topology: Topology, vertices: &'a [Vertex]) -> Self
        ensures { result ≡ primitives topology vertices.now }
    {
        Plain {
            order: Order::first(topology),
            vertices,
        }
    }

    /// The next triangle.
    #[inline(always)]
    fn next(&mut self) -> Option<Tri>
        ensures { MatchOption result ((self.old ≡ []) × (self.new ≡ [])) (λ tri. self.old ≡ primitive_of tri ∷ self.new) }
    {
        let [a, b, c, ..] = self.vertices else {
            return None;
        };
        let tri = self.order.arranged(*a, *b, *c);
        self.vertices = &self.vertices[self.order.step()..];
        self.order = self.order.following();
        Some(tri)
    }
}

/// The vertex that an index names, with the base added.
fn vertex_of(vertices: &[Vertex], base: i32, index: u16) -> Vertex
    requires { IsTrue (names_vertex (length vertices.now) base index) }
    ensures { result ≡ vertex_at vertices.now base index }
{
    vertices[(i64::from(index) + i64::from(base)) as usize]
}

/// What is behind a cut among the next three places, if there is one.
fn behind_cut(indices: &[u16]) -> Option<&[u16]>
    ensures { MatchOption result (HasNoCutAhead indices.now) (λ rest. IsBehindCut indices.now rest.now) }
{
    let [a, b, c, ..] = indices else {
        return None;
    };
    if *c == STRIP_CUT {
        Some(&indices[3..])
    } else if *b == STRIP_CUT {
        Some(&indices[2..])
    } else if *a == STRIP_CUT {
        Some(&indices[1..])
    } else {
        None
    }
}

/// The order and the indices of the next triangle: a strip goes on behind each cut among its next three places, where
/// it begins anew.
fn past_cuts(begun: Order, indices: &[u16]) -> (Order, &[u16])
    ensures topology { topology_of result.0 ≡ topology_of begun }
    ensures triangles { (vs : List Vertex) (base : ℤ) → indexed_left result.0 vs base result.1.now ≡ indexed_left begun vs base indices.now }
    ensures used { (vs : List Vertex) (base : ℤ) → AreUsedWell (topology_of begun) vs base indices.now → AreUsedWell (topology_of begun) vs base result.1.now }
    ensures ready { IsReady result.0 result.1.now }
{
    if let Order::List = begun {
        return (begun, indices);
    }
    let mut order = begun;
    let mut rest = indices;
    while let Some(behind) = behind_cut(rest) {
        order = Order::Even;
        rest = behind;
    }
    (order, rest)
}

/// The triangles of the indices that are left.
#[derive(Drop)]
pub(crate) struct Indexed<'a> {
    order: Order,
    vertices: &'a [Vertex],
    base: i32,
    indices: &'a [u16],
}

impl<'a> Model for Indexed<'a> {
    ghost use Rattle.std.specs.Prelude.{List};
    ghost use Rattle.gfxspec.specs.Assembly.{Primitive};

    ghost Value = { List Primitive };

    ghost use Rattle.assemble.specs.Order.{indexed_left, topology_of};
    ghost use Rattle.assemble.specs.Used.{AreUsedWell};

    ghost view = { λ p. indexed_left p.order p.vertices.now p.base p.indices.now };

    ghost invariant = { λ p. AreUsedWell (topology_of p.order) p.vertices.now p.base p.indices.now };
}

impl<'a> Indexed<'a> {
    pub(crate) fn new(
        topology: Topology,
        vertices: &'a [Vertex],
        base: i32,
        indices: &'a [u16],
    ) -> Self
        requires { AreUsedWell topology vertices.now base indices.now }
        ensures { result ≡ indexed_primitives topology vertices.now base indices.now }
    {
        Indexed {
            order: Order::first(topology),
            vertices,
            base,
            indices,
        }
    }

    /// The next triangle.
    #[inline(always)]
    fn next(&mut self) -> Option<Tri>
        ensures { MatchOption result ((self.old ≡ []) × (self.new ≡ [])) (λ tri. self.old ≡ primitive_of tri ∷ self.new) }
    {
        let (order, indices) = past_cuts(self.order, self.indices);
        let [a, b, c, ..] = indices else {
            return None;
        };
        let tri = order.arranged(
            vertex_of(self.vertices, self.base, *a),
            vertex_of(self.vertices, self.base, *b),
            vertex_of(self.vertices, self.base, *c),
        );
        self.indices = &indices[order.step()..];
        self.order = order.following();
        Some(tri)
    }
}

/// Where the triangles come from.
#[derive(Drop)]
enum Source<'a> {
    FromVertices(Plain<'a>),
    FromIndices(Indexed<'a>),
}

/// The triangles of a draw that are left, in order. Contracts see it as their list.
#[derive(Drop)]
pub struct Triangles<'a> {
    source: Source<'a>,
}

impl<'a> Model for Triangles<'a> {
    ghost use Rattle.std.specs.Prelude.{List};
    ghost use Rattle.gfxspec.specs.Assembly.{Primitive};

    ghost Value = { List Primitive };

    ghost use Rattle.assemble.specs.Source.{left_in};

    ghost view = { λ t. left_in t.source };
}

impl<'a> Triangles<'a> {
    /// The triangles of vertices.
    pub(crate) fn of_vertices(topology: Topology, vertices: &'a [Vertex]) -> Self
        ensures { result ≡ primitives topology vertices.now }
    {
        Triangles {
            source: Source::FromVertices(Plain::new(topology, vertices)),
        }
    }

    /// The triangles of indices, each with the base added.
    pub(crate) fn of_indices(
        topology: Topology,
        vertices: &'a [Vertex],
        base: i32,
        indices: &'a [u16],
    ) -> Self
        requires { AreUsedWell topology vertices.now base indices.now }
        ensures { result ≡ indexed_primitives topology vertices.now base indices.now }
    {
        Triangles {
            source: Source::FromIndices(Indexed::new(topology, vertices, base, indices)),
        }
    }
}

impl<'a> Iterator for Triangles<'a> {
    ghost use Rattle.std.specs.Iterator.{YieldsFirstBy, item_count};

    type Item = Tri;

    ghost next_gives = { YieldsFirstBy primitive_of (λ left. left) };

    ghost remaining = { item_count (λ left. left) };

    #[inline(always)]
    fn next(&mut self) -> Option<Tri> {
        match &mut self.source {
            Source::FromVertices(places) => places.next(),
            Source::FromIndices(places) => places.next(),
        }
    }
}

/// How many triangles a strip by indices has.
pub(crate) fn count_of_strip(indices: &[u16]) -> u32
    requires { length indices.now < 2 ^ 32 }
    ensures { (vs : List Vertex) (base : ℤ) → result ≡ length (indexed_primitives TriangleStrip vs base indices.now) }
{
    let mut run = 0u32;
    let mut count = 0u32;
    for index in indices {
        run = if *index == STRIP_CUT { 0 } else { run + 1 };
        if run > 2 {
            count += 1;
        }
    }
    count
}
