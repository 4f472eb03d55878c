//! The rasterizer, depth-stencil and blend states: made once of a description, then copied, kept and read.
//!
//! Contracts see each state as its setting of `gfxspec`; a stencil mask is 8 bits, a colour write mask four. A state
//! is a small `Copy` value that holds its description as it came, so a reader of one field pays for that field alone.
#![tactic(auto)]

mod blend;
mod color_mask;
mod depth_stencil;
mod raster;

pub use blend::{BlendDesc, BlendState};
pub use color_mask::ColorMask;
pub use depth_stencil::{DepthStencilDesc, DepthStencilState, Face};
pub use raster::{RasterDesc, RasterState};
