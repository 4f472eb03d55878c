//! Sessions whose script, answer lines and image are memory of the caller's.
//!
//! The script is read where it lies. Answer lines and image are kept in memory of their own until the session has ended,
//! and only then copied, so areas that are too small stay as they were. Contracts need no premise about devices: memory
//! tells its bytes, and a reader of it never fails.
#![tactic(auto)]

mod areas;
mod kept;
mod play;
mod script;
mod telling;

pub use areas::{Report, Status, draw, sizes};
pub use telling::{HistoryEnd, HistoryReport, history};
