//! The threads that stay for many runs.

use segmentrun::SegmentJob;
use std::alloc::Allocator;
use std::sync::Wait;
use tileprog::TileProgram;
use workers::{Bells, Crew};

/// Who makes the runs of a session beside the caller, and the gate by which tests look at them. By one crew the threads compile
/// segments of lists, by the other they run tiles; in a run the first is done before the other begins.
#[derive(Drop)]
pub struct RunCrew<'r, 'a, A: Allocator + Copy + Send, R, G> {
    pub rt: &'r R,
    pub gate: &'r G,
    bells: &'a Bells,
    pub compiling: Crew<'a, SegmentJob<A>, A>,
    pub drawing: Crew<'a, TileProgram<A>, A>,
}

impl<'r, 'a, A: Allocator + Copy + Send, R, G> RunCrew<'r, 'a, A, R, G> {
    ghost use Rattle.std.specs.Prelude.{◌≤◌};

    /// The crews of the threads at these bells, or of fewer of them where memory refuses a mailbox.
    pub fn new(rt: &'r R, alloc: &'a A, bells: &'a Bells, gate: &'r G) -> Self {
        RunCrew {
            rt,
            gate,
            bells,
            compiling: Crew::new(alloc, bells),
            drawing: Crew::new(alloc, bells),
        }
    }

    /// For how many workers it has a mailbox.
    pub fn workers(&self) -> u32
        ensures { result ≤ 15 }
    {
        self.drawing.workers()
    }
}

impl<'r, 'a, A: Allocator + Copy + Send, R: Wait, G> RunCrew<'r, 'a, A, R, G> {
    /// Sends all threads home.
    pub fn close(&self) {
        self.bells.close(self.rt);
    }
}
