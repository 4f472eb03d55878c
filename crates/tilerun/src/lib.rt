//! Tiles of a target on a board: taken out, run, and put back.
//!
//! A job says which tiles of the target it draws on; those tiles alone are placed, claimed and handed in, so a job that
//! draws on ten of 4,096 tiles pays for ten. On the board a tile has the number of its place in the job's list. The
//! board is made before the first tile is taken, so a refusal of memory comes before anything ran; behind it nothing can
//! fail, and what `run_with_crew` shares a run by may be left out.
#![tactic(auto)]

mod block_job;
mod running;

pub use block_job::BlockJob;
pub use running::{run_alone, run_in_threads, run_with_crew};
