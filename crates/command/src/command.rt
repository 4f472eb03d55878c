//! The calls that record: as values, which scripts say and lists are made of, and as methods of a context.

ghost use Rattle.std.specs.Prelude.{◌≡◌, ◌++◌, ◌∷◌, [], List};
ghost use Rattle.gfxspec.specs.Commands.{Command, SetVertices, SetIndices, SetTopology, SetRaster, SetScissor, SetDepthStencil, SetBlend, SetPredication, Draw, DrawIndexed, ClearColor, ClearDepthStencil, Begin, End};
ghost use Rattle.command.specs.Seen.{command_value};
ghost use Rattle.command.specs.Calls.{RecordsCall};

use crate::buffer::Buffer;
use crate::settings::Settings;
use gfxspec::{GfxError, PixelRect, Topology, Vertex};
use states::{BlendState, DepthStencilState, RasterState};
use std::alloc::{AllocError, Allocator};

/// A call that records, with its arguments (Microsoft Learn, ID3D11DeviceContext). `Kept` is no call: it is the command
/// that a finish with restore leaves at the front of the next list, and sets all eight kinds of state.
#[derive(Drop)]
pub enum Command<A: Allocator> {
    SetVertices(Buffer<Vertex, A>),
    SetIndices(Buffer<u16, A>),
    SetTopology(Topology),
    SetRaster(RasterState),
    SetScissor(PixelRect),
    SetDepthStencil(DepthStencilState, u8),
    SetBlend(BlendState),
    /// A query and a value, or no predicate.
    SetPredication(Option<(u32, bool)>),
    /// A count, and the first place in the vertices.
    Draw(u32, u32),
    /// A count, the first place in the indices, and what is added to each index.
    DrawIndexed(u32, u32, i32),
    ClearColor([u8; 4]),
    /// A depth and a stencil value.
    ClearDepthStencil(u32, u8),
    Begin(u32),
    End(u32),
    Kept(Box<Settings<A>, A>),
}

impl<A: Allocator> Command<A> {
    ghost use Rattle.gfxspec.specs.Recorded.{query_begun};

    /// The query that the command begins.
    pub fn query_begun(&self) -> Option<u32>
        ensures { result ≡ query_begun (command_value self.now) }
    {
        match self {
            Command::Begin(query) => Some(*query),
            _ => None,
        }
    }
}

impl<A: Allocator + Copy> Command<A> {
    ghost use Rattle.std.specs.Prelude.{IfOk};

    /// The same command for one more owner: buffers are shared, and no vertex is copied.
    pub fn share(&self, alloc: A) -> Result<Self, AllocError>
        ensures { IfOk result (λ command. command_value command ≡ command_value self.now) }
    {
        Ok(match self {
            Command::SetVertices(vertices) => Command::SetVertices(vertices.share()?),
            Command::SetIndices(indices) => Command::SetIndices(indices.share()?),
            Command::SetTopology(topology) => Command::SetTopology(*topology),
            Command::SetRaster(raster) => Command::SetRaster(*raster),
            Command::SetScissor(scissor) => Command::SetScissor(*scissor),
            Command::SetDepthStencil(depth_stencil, reference) => {
                Command::SetDepthStencil(*depth_stencil, *reference)
            }
            Command::SetBlend(blend) => Command::SetBlend(*blend),
            Command::SetPredication(predicate) => Command::SetPredication(*predicate),
            Command::Draw(count, start) => Command::Draw(*count, *start),
            Command::DrawIndexed(count, start, base) => Command::DrawIndexed(*count, *start, *base),
            Command::ClearColor(rgba) => Command::ClearColor(*rgba),
            Command::ClearDepthStencil(depth, stencil) => {
                Command::ClearDepthStencil(*depth, *stencil)
            }
            Command::Begin(query) => Command::Begin(*query),
            Command::End(query) => Command::End(*query),
            Command::Kept(settings) => Command::Kept(Box::new(alloc, settings.share()?)?),
        })
    }
}

/// A context that records calls (Microsoft Learn, ID3D11DeviceContext): deferred or immediate.
///
/// A call is answered by its rows, looked at in their order; it is one command more where it is accepted, and changes
/// nothing where it is refused. Any call may be refused with OutOfMemory, behind its other rows.
pub trait DeviceContext {
    /// Where commands have their memory from.
    type Alloc: Allocator;

    /// The commands of the list that the context is recording.
    ghost recorded: { Self → List Command };

    /// The context with one command more, and nothing else changed.
    ghost with: { Self → Command → Self };

    /// Records a command. The kept state is no call: it is refused with OutOfMemory.
    fn record(&mut self, command: &Command<Self::Alloc>) -> Result<(), GfxError>
        ensures { RecordsCall recorded with self.old (command_value command.now) self.new result };

    /// Sets the vertices, which are copied. Refused with VertexCount, VertexRange, ListTooLong.
    fn ia_set_vertices(&mut self, vertices: &[Vertex]) -> Result<(), GfxError>
        ensures { RecordsCall recorded with self.old (SetVertices vertices.now) self.new result };

    /// Sets the indices, which are copied. Refused with VertexCount, ListTooLong.
    fn ia_set_indices(&mut self, indices: &[u16]) -> Result<(), GfxError>
        ensures { RecordsCall recorded with self.old (SetIndices indices.now) self.new result };

    ghost appends: { (context : Self) (c : Command) → recorded (with context c) ≡ recorded context ++ c ∷ [] };

    /// Sets the topology. Refused with ListTooLong.
    final fn ia_set_topology(&mut self, topology: Topology) -> Result<(), GfxError>
        ensures { RecordsCall recorded with self.old (SetTopology topology) self.new result }
    {
        self.record(&Command::SetTopology(topology))
    }

    /// Sets the rasterizer state. Refused with ListTooLong.
    final fn rs_set_state(&mut self, raster: RasterState) -> Result<(), GfxError>
        ensures { RecordsCall recorded with self.old (SetRaster raster) self.new result }
    {
        self.record(&Command::SetRaster(raster))
    }

    /// Sets the scissor rectangle, in pixels. Refused with ScissorRect, ListTooLong.
    final fn rs_set_scissor(&mut self, scissor: PixelRect) -> Result<(), GfxError>
        ensures { RecordsCall recorded with self.old (SetScissor scissor) self.new result }
    {
        self.record(&Command::SetScissor(scissor))
    }

    /// Sets the depth-stencil state with its reference. Refused with ListTooLong.
    final fn om_set_depth_stencil(
        &mut self,
        depth_stencil: DepthStencilState,
        reference: u8,
    ) -> Result<(), GfxError>
        ensures { RecordsCall recorded with self.old (SetDepthStencil depth_stencil reference) self.new result }
    {
        self.record(&Command::SetDepthStencil(depth_stencil, reference))
    }

    /// Sets the blend state. Refused with ListTooLong.
    final fn om_set_blend(&mut self, blend: BlendState) -> Result<(), GfxError>
        ensures { RecordsCall recorded with self.old (SetBlend blend) self.new result }
    {
        self.record(&Command::SetBlend(blend))
    }

    /// Sets the predicate, a query, 0 to 63, and a value, or none. Draws and clears under it are not performed where the
    /// result of the query is the value: TRUE where the last issue that ended before counted a pixel. Refused with
    /// QueryNumber, PredicateInList where the list has begun the query, ListTooLong.
    final fn set_predication(&mut self, predicate: Option<(u32, bool)>) -> Result<(), GfxError>
        ensures { RecordsCall recorded with self.old (SetPredication predicate) self.new result }
    {
        self.record(&Command::SetPredication(predicate))
    }

    /// Draws vertices: a count, and the first place. Refused with TopologyUnset, DrawRange, ListTooLong.
    final fn draw(&mut self, count: u32, start: u32) -> Result<(), GfxError>
        ensures { RecordsCall recorded with self.old (Draw count start) self.new result }
    {
        self.record(&Command::Draw(count, start))
    }

    /// Draws vertices by indices: a count, the first place in the indices, and what is added to each index. Refused with
    /// TopologyUnset, DrawRange, IndexRange, ListTooLong.
    final fn draw_indexed(&mut self, count: u32, start: u32, base: i32) -> Result<(), GfxError>
        ensures { RecordsCall recorded with self.old (DrawIndexed count start base) self.new result }
    {
        self.record(&Command::DrawIndexed(count, start, base))
    }

    /// Clears the colour of every pixel of the target, whatever the state is but the predicate. Refused with ListTooLong.
    final fn clear_color(&mut self, rgba: [u8; 4]) -> Result<(), GfxError>
        ensures { RecordsCall recorded with self.old (ClearColor rgba) self.new result }
    {
        self.record(&Command::ClearColor(rgba))
    }

    /// Clears depth and stencil of every pixel of the target, whatever the state is but the predicate. Refused with
    /// VertexRange for a depth above 16,777,215, ListTooLong.
    final fn clear_depth_stencil(&mut self, depth: u32, stencil: u8) -> Result<(), GfxError>
        ensures { RecordsCall recorded with self.old (ClearDepthStencil depth stencil) self.new result }
    {
        self.record(&Command::ClearDepthStencil(depth, stencil))
    }

    /// Begins a query, 0 to 63. Refused with QueryNumber, QueryOpen, PredicateInList where a predicate of the list names
    /// the query, TooManyIssues, ListTooLong.
    final fn begin(&mut self, query: u32) -> Result<(), GfxError>
        ensures { RecordsCall recorded with self.old (Begin query) self.new result }
    {
        self.record(&Command::Begin(query))
    }

    /// Ends a query that is open. Refused with QueryNumber, QueryNotOpen, ListTooLong.
    final fn end(&mut self, query: u32) -> Result<(), GfxError>
        ensures { RecordsCall recorded with self.old (End query) self.new result }
    {
        self.record(&Command::End(query))
    }
}
