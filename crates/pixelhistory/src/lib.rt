//! The history of one pixel under the commands of a list.
//!
//! No tile is compiled here: each triangle is asked at the one pixel, with the primitives that tiles are drawn with, in the
//! words of the definitions. So a history is slow where lists are long, and needs no memory but for its events.
#![tactic(auto)]

mod commands;
mod recorded;
mod session;
mod tests_apart;
mod trace;
mod triangle;

pub use recorded::{trace_finished, trace_recorded};
pub use session::{SessionTrace, StepsOf, trace_list};
pub use trace::Trace;
pub use triangle::event_of;
