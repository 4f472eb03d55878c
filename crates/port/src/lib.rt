//! Submission ports: four threads hand command lists over to one (Microsoft Learn, "Introduction to Multithreading in
//! Direct3D 11": lists recorded on several threads, executed by one).
//!
//! Each port has a pass, which sends, and one pass takes out; between them stands one queue with room for 64
//! submissions. A submission carries the number of its port and how many that port had sent before. The queue is of any
//! type of list.
//!
//! The trick: each step on the queue is proved to keep one rule over all passes, that what a port sent is what was taken
//! of it and then what the queue holds of it. So the five passes alone, once they are back in one hand, show that each
//! list came out whole, once and in its port's order, and settling needs to look at no list.
#![tactic(auto)]

mod pass;
mod ports;
mod rule;
mod submission;

pub use pass::{DrainPass, PortPass};
pub use ports::Ports;
pub use submission::Submission;
