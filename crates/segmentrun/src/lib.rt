//! Segments, compiled by a crew or on the caller's thread.
//!
//! A batch's lists are cut into segments (`binner::cut`), and segments that follow each other are a window. A crew compiles
//! windows as tiles of a board, each into a list of its own; run one behind the other on a tile, those lists leave what the
//! segments leave. On the caller's thread all segments become one list. The trick: a segment begins from the default state
//! and begins no query, so nothing is handed from one window to the next.
#![tactic(auto)]

mod compiling;
mod crewing;
mod job;

pub use crewing::{Lists, SegmentCrew, compile_alone, compile_by_crew};
pub use job::{DoneWindow, OpenWindow, SegmentJob};
