//! Whether all threads work: a gate that holds first claims, and a job that holds each run, until all have come.

ghost use Rattle.std.specs.Prelude.{◌≡◌, ◌≤◌};
ghost use Rattle.conformance_parts.specs.declared.boards.amounts.Blank.{Blank};

use crate::boards::amounts::Blank;
use board::Board;
use std::alloc::Global;
use std::test::Fail;
use test_tools::{AllAtOnce, Meeting};
use tilecore::TileJob;
use workers::run_all;

/// A job of four tiles, whose runs wait until all four are inside.
#[derive(Drop)]
struct Holding {
    inside: Meeting,
}

impl TileJob for Holding {
    type Open = Blank;

    type Done = Blank;

    ghost use Rattle.std.specs.Prelude.{◌≡◌, ◌<◌};
    ghost use Rattle.std.proofs.Common.{arith};

    ghost tile_count = { λ job. 4 };

    ghost issue_count = { λ job. 0 };

    ghost tile_number = { λ tile. tile.number };

    ghost done_number = { λ done. done.number };

    ghost done_count = { λ done issue. 0 };

    ghost fits = { λ job tile. tile.number < 4 };

    ghost gives = { λ job tile done. done.number ≡ tile.number };

    fn tiles(&self) -> u32 {
        4
    }

    fn issues(&self) -> u32 {
        0
    }

    fn number(tile: &Blank) -> u32 {
        tile.number
    }

    fn number_done(done: &Blank) -> u32 {
        done.number
    }

    fn count(_done: &Blank, _issue: u32) -> u64 {
        0
    }

    fn run(&self, tile: Blank) -> Blank {
        self.inside.wait();
        tile
    }

    ghost few_tiles = { λ job. Prim.omega arith };

    ghost few_issues = { λ job. Prim.omega arith };

    ghost in_range = { λ job tile h. h };

    ghost keeps_number = { λ job tile done h. h };

    ghost small_counts = { λ job tile done issue h less. Prim.omega arith };
}

#[test]
fn four_workers_at_once(rt: HostRuntime) -> Result<(), Fail> {
    let alloc: Global = rt.alloc();
    let job = Holding {
        inside: Meeting::new(4),
    };
    let gate = AllAtOnce::new(4);
    let (board, mut seat) = Board::new_named(&alloc, &job)?;
    board.place(&mut seat, Blank { number: 0 });
    board.place(&mut seat, Blank { number: 1 });
    board.place(&mut seat, Blank { number: 2 });
    board.place(&mut seat, Blank { number: 3 });
    let seat = run_all(&rt, &board, seat, &job, 3, &gate);
    assert!(rt; board.close(seat).is_ok());
    assert!(rt; gate.all_came());
    assert!(rt; job.inside.all_came());
    Ok(())
}
