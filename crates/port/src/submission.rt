//! What the queue holds.

/// A list as it was handed over.
#[derive(Drop)]
pub struct Submission<L> {
    /// The port that it came through, 0 to 3.
    pub port: u32,
    /// How many that port had sent before.
    pub number: u64,
    pub list: L,
}
