//! Compiles the commands of a list for a target: words for each of its tiles, and tables of what their numbers name.
//!
//! Settings are looked up, triangles snapped, culled, classified and set up here, once for all tiles; what is left for a
//! tile is to run its words (`gfxspec` has 32 by 32 pixels to a tile, `tileword` the words). A triangle's word stands only in
//! tiles where each of its edges holds somewhere, and names the edges that fail somewhere. The trick: nothing is kept by
//! tile but its words and one flag, so compiling takes the time of the tiles that a list touches.
//!
//! Lists can be cut into segments, lists of their own that mean the same one behind the other (`cut`), so that several threads
//! compile them; and several segments become one list (`Batch`).
#![tactic(auto)]

mod ahead;
mod batch;
mod compiled;
mod compiling;
mod earlier;
mod entry;
mod lists;
mod opened;
mod prepare;
mod same;
mod segment;
mod setup;
mod short_rect;
mod table;

pub use batch::Batch;
pub use compiled::{Compiled, compile, compile_parallel, programs_count_the_target};
pub use entry::StateEntry;
pub use segment::{Segment, cut};
pub use setup::TriSetup;
pub use short_rect::ShortRect;
