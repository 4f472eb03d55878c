//! Deques of the numbers of tiles, which are dealt before the work begins, popped by their owners, and stolen one by one
//! by the others.
//!
//! A rule of a deque is one closed fact, which can't name how many tiles there are. So each task carries that number
//! beside its own, and the rule says that all tasks of a deque agree on it: whoever takes one knows that it is the number
//! of a tile. What memory refuses is left out; the numbers that no deque has are for the caller to go through at the end.
#![tactic(auto)]

mod own_queue;
mod rule;
mod work_queue;

pub use work_queue::{WorkQueue, deal_queues};
