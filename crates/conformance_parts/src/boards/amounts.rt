//! A job without pixels, whose results count 5, 7, 9 and so on.

ghost use Rattle.std.specs.Prelude.{◌≡◌, ◌≤◌, length};
ghost use Rattle.board.specs.declared.view.Hand.TheVariants.{Empty};
ghost use Rattle.board.specs.Known.{IsSeatOf, IsReady};

use board::{Board, Seat};
use std::alloc::Allocator;
use tilecore::TileJob;

#[derive(Drop)]
pub struct Amounts {
    tiles: u32,
    pub ghost few: { tiles ≤ 16384 },
}

#[derive(Drop)]
pub struct Blank {
    pub number: u32,
}

#[derive(Drop)]
pub struct Amount {
    number: u32,
    pub amount: u32,
}

impl TileJob for Amounts {
    type Open = Blank;

    type Done = Amount;

    ghost use Rattle.std.specs.Prelude.{◌≡◌, ◌<◌, ◌+◌, ◌*◌};
    ghost use Rattle.std.proofs.Common.{arith};
    ghost use Rattle.conformance_parts.specs.declared.boards.amounts.Blank.{Blank};
    ghost use Rattle.conformance_parts.specs.declared.boards.amounts.Amount.{Amount};

    ghost tile_count = { λ j. j.tiles };

    ghost issue_count = { λ j. 1 };

    ghost tile_number = { λ t. t.number };

    ghost done_number = { λ d. d.number };

    ghost done_count = { λ d i. d.amount };

    ghost fits = { λ j t. t.number < j.tiles };

    ghost gives = { λ j t d. (d.number ≡ t.number) × (d.amount ≡ 2 * t.number + 5) × (t.number < 16384) };

    fn tiles(&self) -> u32 {
        self.tiles
    }

    fn issues(&self) -> u32 {
        1
    }

    fn number(tile: &Blank) -> u32 {
        tile.number
    }

    fn number_done(done: &Amount) -> u32 {
        done.number
    }

    fn count(done: &Amount, _issue: u32) -> u64 {
        u64::from(done.amount)
    }

    fn run(&self, tile: Blank) -> Amount {
        Amount {
            number: tile.number,
            amount: 2 * tile.number + 5,
        }
    }

    ghost few_tiles = { λ j. j.few };

    ghost few_issues = { λ j. Prim.omega arith };

    ghost in_range = { λ j t h. h };

    ghost keeps_number = { λ j t d h. h.0 };

    ghost small_counts = { λ j t d i h less. Prim.omega arith };
}

pub(crate) fn make_amounts(tiles: u32) -> Amounts
    requires { tiles ≤ 16384 }
    ensures { result.tiles ≡ tiles }
{
    Amounts { tiles }
}

/// Puts all tiles on a new board.
pub(crate) fn place_all<A: Allocator>(
    board: &Board<'_, Amounts, A>,
    seat: &mut Seat<Amounts>,
    tiles: u32,
)
    requires own { IsSeatOf board.now seat.old × (board.now.job.tiles ≡ tiles) }
    requires first { (seat.old.view.weight ≡ 16) × (seat.old.view.hand ≡ Empty) × (length seat.old.view.placed ≡ 0) }
    ensures own { IsSeatOf board.now seat.new }
    ensures ready { (length seat.new.view.placed ≡ tiles) × (seat.new.view.hand ≡ Empty) × (seat.new.view.weight ≡ 16) }
{
    for number in 0..tiles {
        board.place(seat, Blank { number });
    }
}
