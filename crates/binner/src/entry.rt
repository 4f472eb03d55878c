//! What triangles are drawn under.

ghost use Rattle.std.specs.Prelude.{◌≡◌, ℕ, IsTrue};
ghost use Rattle.gfxspec.specs.Items.{in_scissor};
ghost use Rattle.command.specs.Seen.{state_value};
ghost use Rattle.binner.specs.Program.{lets_through};
ghost use Rattle.binner.specs.Meaning.{entry_of, DrawsUnder};

use crate::same::{is_same_blend, is_same_depth_stencil};
use cmdlist::State;
use gfxspec::PixelRect;
use states::{BlendState, DepthStencilState, RasterState};

/// The state that a word puts in force: all but the buffers and the topology, and the open issues as bits.
#[derive(Clone, Copy)]
pub struct StateEntry {
    pub raster: RasterState,
    pub scissor: PixelRect,
    pub depth_stencil: DepthStencilState,
    pub reference: u8,
    pub blend: BlendState,
    pub issues: u64,
}

/// The entry of a state, with the open issues as bits.
pub(crate) fn entry(state: &State<'_>, issues: u64) -> StateEntry
    ensures { result ≡ entry_of (state_value state.now) issues }
{
    StateEntry {
        raster: state.raster,
        scissor: state.scissor,
        depth_stencil: state.depth_stencil,
        reference: state.reference,
        blend: state.blend,
        issues,
    }
}

impl StateEntry {
    /// Whether the scissor test lets the same pixels through as that of a state.
    fn has_scissor_of(&self, state: &State<'_>) -> bool
        ensures { IsTrue result → (x y : ℕ) → lets_through self.now x y ≡ in_scissor (state_value state.now) x y }
    {
        if state.raster.scissor() {
            self.raster.scissor() && self.scissor == state.scissor
        } else {
            !self.raster.scissor()
        }
    }

    /// Whether pixels are tested as under a state.
    fn has_tests_of(&self, state: &State<'_>) -> bool
        ensures depth_stencil { IsTrue result → self.now.depth_stencil ≡ (state_value state.now).depth_stencil }
        ensures reference { IsTrue result → self.now.reference ≡ (state_value state.now).reference }
    {
        is_same_depth_stencil(self.depth_stencil, state.depth_stencil)
            && self.reference == state.reference
    }

    /// Whether what passes is written as under a state, and counted for these open issues, which are bits.
    fn has_output_of(&self, state: &State<'_>, issues: u64) -> bool
        ensures blend { IsTrue result → self.now.blend ≡ (state_value state.now).blend }
        ensures issues { IsTrue result → self.now.issues ≡ issues }
    {
        is_same_blend(self.blend, state.blend) && self.issues == issues
    }

    /// Whether triangles that are made ready are drawn under it as under a state, with these issues open as bits. What made them
    /// ready was culling, facing and the bias, which may differ.
    pub(crate) fn draws_as(&self, state: &State<'_>, issues: u64) -> bool
        ensures { IsTrue result → DrawsUnder self.now (state_value state.now) issues }
    {
        self.has_scissor_of(state) && self.has_tests_of(state) && self.has_output_of(state, issues)
    }
}

/// The entry that the next triangles are drawn under.
#[derive(Clone, Copy)]
pub(crate) struct Current {
    pub entry: u16,
    /// The number that the next triangle of the table had when it came into force: what has this one or a later one is drawn
    /// under it.
    pub first: u32,
    /// Whether an issue is open in it.
    pub counted: bool,
}
