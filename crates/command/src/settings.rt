//! The eight kinds of state, owned and lent.

ghost use Rattle.std.specs.Prelude.{◌≡◌, IfOk, OnOk, OnErr};
ghost use Rattle.gfxspec.specs.State.{defaults};

use crate::buffer::Buffer;
use crate::command::Command;
use gfxspec::{PixelRect, Topology, Vertex};
use states::{BlendState, DepthStencilState, RasterState};
use std::alloc::{AllocError, Allocator};

/// The scissor rectangle of a context that has set none.
const NO_PIXELS: PixelRect = PixelRect {
    left: 0,
    top: 0,
    right: 0,
    bottom: 0,
};

/// The eight kinds of state: the depth-stencil state and its reference are one.
#[derive(Drop)]
pub struct Settings<A: Allocator> {
    pub vertices: Buffer<Vertex, A>,
    pub indices: Buffer<u16, A>,
    pub topology: Option<Topology>,
    pub raster: RasterState,
    pub scissor: PixelRect,
    pub depth_stencil: DepthStencilState,
    pub reference: u8,
    pub blend: BlendState,
    pub predicate: Option<(u32, bool)>,
}

impl<A: Allocator + Copy> Settings<A> {
    ghost use Rattle.meaning.specs.OneMore.{settings_with};
    ghost use Rattle.command.specs.Seen.{settings_value, command_value, state_value};

    /// The state of a context that has set nothing.
    pub fn new() -> Self
        ensures { settings_value result ≡ defaults }
    {
        Settings {
            vertices: Buffer::new(),
            indices: Buffer::new(),
            topology: None,
            raster: RasterState::default(),
            scissor: NO_PIXELS,
            depth_stencil: DepthStencilState::default(),
            reference: 0,
            blend: BlendState::default(),
            predicate: None,
        }
    }

    /// The same settings for one more owner.
    pub fn share(&self) -> Result<Self, AllocError>
        ensures { IfOk result (λ s. settings_value s ≡ settings_value self.now) }
    {
        Ok(Settings {
            vertices: self.vertices.share()?,
            indices: self.indices.share()?,
            topology: self.topology,
            raster: self.raster,
            scissor: self.scissor,
            depth_stencil: self.depth_stencil,
            reference: self.reference,
            blend: self.blend,
            predicate: self.predicate,
        })
    }

    /// Changes the kinds that a command sets. An `Err` changes nothing.
    pub fn change(&mut self, command: &Command<A>) -> Result<(), AllocError>
        ensures ok { OnOk result (settings_value self.new ≡ settings_with (command_value command.now) (settings_value self.old)) }
        ensures err { OnErr result (self.new ≡ self.old) }
    {
        match command {
            Command::SetVertices(vertices) => self.vertices = vertices.share()?,
            Command::SetIndices(indices) => self.indices = indices.share()?,
            Command::SetTopology(topology) => self.topology = Some(*topology),
            Command::SetRaster(raster) => self.raster = *raster,
            Command::SetScissor(scissor) => self.scissor = *scissor,
            Command::SetDepthStencil(depth_stencil, reference) => {
                self.depth_stencil = *depth_stencil;
                self.reference = *reference;
            }
            Command::SetBlend(blend) => self.blend = *blend,
            Command::SetPredication(predicate) => self.predicate = *predicate,
            Command::Kept(settings) => *self = settings.share()?,
            _ => {}
        }
        Ok(())
    }

    /// These settings, lent.
    pub fn state(&self) -> State<'_>
        ensures { state_value result ≡ settings_value self.now }
    {
        State {
            vertices: self.vertices.as_slice(),
            indices: self.indices.as_slice(),
            topology: self.topology,
            raster: self.raster,
            scissor: self.scissor,
            depth_stencil: self.depth_stencil,
            reference: self.reference,
            blend: self.blend,
            predicate: self.predicate,
        }
    }
}

/// The eight kinds of state, lent: what a reader of a list goes along with.
#[derive(Clone, Copy)]
pub struct State<'a> {
    pub vertices: &'a [Vertex],
    pub indices: &'a [u16],
    pub topology: Option<Topology>,
    pub raster: RasterState,
    pub scissor: PixelRect,
    pub depth_stencil: DepthStencilState,
    pub reference: u8,
    pub blend: BlendState,
    pub predicate: Option<(u32, bool)>,
}

impl<'a> State<'a> {
    ghost use Rattle.meaning.specs.OneMore.{settings_with};
    ghost use Rattle.command.specs.Seen.{settings_value, command_value, state_value};

    /// The state before the first command of a list.
    pub fn new() -> Self
        ensures { state_value result ≡ defaults }
    {
        State {
            vertices: &[],
            indices: &[],
            topology: None,
            raster: RasterState::default(),
            scissor: NO_PIXELS,
            depth_stencil: DepthStencilState::default(),
            reference: 0,
            blend: BlendState::default(),
            predicate: None,
        }
    }

    /// Changes the kinds that the next command of the list sets.
    pub fn change<A: Allocator + Copy>(&mut self, command: &'a Command<A>)
        ensures { state_value self.new ≡ settings_with (command_value command.now) (state_value self.old) }
    {
        match command {
            Command::SetVertices(vertices) => self.vertices = vertices.as_slice(),
            Command::SetIndices(indices) => self.indices = indices.as_slice(),
            Command::SetTopology(topology) => self.topology = Some(*topology),
            Command::SetRaster(raster) => self.raster = *raster,
            Command::SetScissor(scissor) => self.scissor = *scissor,
            Command::SetDepthStencil(depth_stencil, reference) => {
                self.depth_stencil = *depth_stencil;
                self.reference = *reference;
            }
            Command::SetBlend(blend) => self.blend = *blend,
            Command::SetPredication(predicate) => self.predicate = *predicate,
            Command::Kept(settings) => *self = settings.state(),
            _ => {}
        }
    }
}
