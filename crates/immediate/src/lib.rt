//! The immediate context: it records calls like a deferred one, by the same trait, executes lists, and answers (Microsoft
//! Learn, ID3D11DeviceContext, "Immediate and Deferred Rendering").
//!
//! Recorded commands are accepted at once and stay pending until a call runs them. The context stores no past command: it
//! is seen by contracts as its target, the count of each query's last issue, and its pending commands; what a pixel holds
//! and what a query answers is what running the pending commands on these gives.
//!
//! A run compiles the commands into a program for each tile that they touch, and hands those tiles out by a board, to the
//! caller alone or to threads beside it: threads that are started for this run, or a crew of threads that stays for many. A
//! crew compiles too, where much is drawn, in segments of the lists. All that may be refused comes before the first tile is
//! taken. The trick: where nothing is drawn, cleared or counted, a run touches no tile and compiles nothing, so questions on
//! a settled context cost nothing.
#![tactic(auto)]

mod context;
mod counts;
mod crew;
mod drawing;
mod engine;
mod executions;
mod history;
mod output;
mod pending;
mod room;
mod task;

pub use context::ImmediateContext;
pub use crew::RunCrew;
