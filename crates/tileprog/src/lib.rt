//! Runs the program of a tile: its words in order, on the tile's block, with a count for each issue.
//!
//! A triangle goes over a tile in columns of spans, eight pixels side by side: its edges and its depths are walked
//! downwards by additions alone, and no edge is looked at where the word names none. A small triangle under depth alone
//! goes in columns of quads, four pixels side by side, without a branch in a row. What the state asks for is decided
//! once a word. Pixels are those of the target; depths are 0 to 16,777,215; a colour is one number, red in its
//! low byte. The trick: nothing is asked of a pixel that can be asked of its span, and nothing of a span that can be
//! asked of the word.
//!
//! A job runs one compiled list, or several: then on each tile the programs of all lists run one behind the other, and a tile is
//! handed out once for all of them.
#![tactic(auto)]

mod alike;
mod behind;
mod brush;
mod brushes;
mod cells;
mod column;
mod columns;
mod draw;
mod gathering;
mod hidden;
mod kind;
mod order;
mod paint;
mod pixels;
mod program;
mod rows;
mod small;
mod spans;
mod stencils;
mod tile;
mod triangles;
mod words;

pub use order::run_order;
pub use program::{PlacedTile, RunTile, TileProgram};
pub use tile::{DoneTile, run_tile};
