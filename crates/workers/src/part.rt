//! How much of a run one who works has.

ghost use Rattle.std.specs.Prelude.{◌≡◌, ◌<◌, ◌≤◌};

use board::Seat;
use tilecore::TileJob;

/// A part of a run: a seat of its board, how much the seat weighs, and for how many workers it is, whoever has it among them.
#[derive(Drop)]
pub(crate) struct Part<J: TileJob> {
    pub(crate) seat: Seat<J>,
    pub(crate) weight: u32,
    pub(crate) workers: u32,
    ghost fits: { (seat.view.weight ≡ weight) × (0 < workers) × (workers ≤ weight) × (weight ≤ 16) },
}

impl<J: TileJob> Part<J> {
    ghost use Rattle.std.specs.Prelude.{◌≡◌, ◌<◌, ◌≤◌, ◌+◌};

    /// The part of a seat that weighs so much.
    pub(crate) fn new(seat: Seat<J>, weight: u32, workers: u32) -> Part<J>
        requires { (seat.view.weight ≡ weight) × (0 < workers) × (workers ≤ weight) × (weight ≤ 16) }
        ensures { (result.seat ≡ seat) × (result.workers ≡ workers) × (result.weight ≡ weight) }
    {
        Part {
            seat,
            weight,
            workers,
        }
    }

    /// For how many it is beside whoever has it.
    pub(crate) fn others(&self) -> u32
        ensures { (result + 1 ≡ self.now.workers) × (result ≤ 15) }
    {
        self.workers - 1
    }
}
