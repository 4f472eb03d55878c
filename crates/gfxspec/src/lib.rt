//! The values, limits, refusals and devices of the project, and (in specs/) what its answers mean.
//!
//! Every crate stands on this one. specs/ holds the definitions of the Direct3D behaviour, one topic a file, in
//! terms of plain records: coordinates are whole numbers of 1/65,536 or, snapped, 1/256 pixel; depths are 0 to
//! 16,777,215; a colour is red, green, blue, alpha.
#![tactic(auto)]

mod device;
mod error;
mod from_read;
mod geometry;
mod pixel;
mod state;
mod tiles;
mod to_write;
mod transfer;

pub use device::{Broken, Sink, Source};
pub use error::GfxError;
pub use from_read::FromRead;
pub use geometry::{Facing, PixelRect, Size, Vertex};
pub use pixel::{DepthStencil, Pixel};
pub use state::{Compare, Cull, LogicOp, StencilOp, Topology};
pub use tiles::{is_size, tile_count, tile_rect, tiles_along, tiles_have_each_pixel_once};
pub use to_write::ToWrite;
pub use transfer::{GatherError, gather, put_all};

/// The greatest coordinate of a vertex either way, in 1/65,536 pixel.
pub const COORDINATE_LIMIT: i32 = 268_435_456;

/// The greatest depth.
pub const DEPTH_MAX: u32 = 16_777_215;

/// The longest side of a target, in pixels.
pub const SIDE_LIMIT: u32 = 4096;

/// Vertices or indices in a buffer.
pub const BUFFER_LIMIT: usize = 65_536;

/// Commands in a list, and assembled triangles in a list.
pub const LIST_LIMIT: u32 = 65_536;

/// Queries are numbered below this.
pub const QUERY_LIMIT: u32 = 64;

/// Issues in a list.
pub const ISSUE_LIMIT: u32 = 64;

/// Workers beside the caller.
pub const WORKER_LIMIT: u32 = 15;

/// The side of a tile, in pixels.
pub const TILE_SIDE: u32 = 32;

/// The index that cuts a strip.
pub const STRIP_CUT: u16 = 65_535;
