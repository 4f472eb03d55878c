//! The interface between a board, which hands out numbered tiles, and the job that works on them; and the schedule of
//! the tiles as a machine over events.
//!
//! A board knows nothing of pixels: it moves values from `Open` to `Done` and adds up 64-bit counts. What a job means
//! is said in its ghost members, so a board's contracts speak of any job at all.
//!
//! `Core` is the schedule by itself, without threads: workers claim tiles, count for the tile in their hands, and hand
//! it in. Its type keeps that some list of events led to its state, and so the law that `schedule_law` states of every
//! such list. A board shows a state of the same schedule at each moment, so its threads are bound by the same law.
#![tactic(auto)]

mod job;
mod law;
mod machine;

pub use job::TileJob;
pub use law::schedule_law;
pub use machine::{Core, Event, Reply};
