//! A board of two whose tiles are claimed by number: the worked row.

ghost use Rattle.std.specs.Prelude.{◌≡◌, ◌<◌, length, true};
ghost use Rattle.board.specs.declared.view.Hand.TheVariants.{Empty, Holding};
ghost use Rattle.board.specs.Known.{IsSeatOf};
ghost use Rattle.board.specs.Views.{swapped_view};

use crate::boards::amounts::{Amounts, Blank, make_amounts, place_all};
use crate::boards::rows::{close, next_amount};
use board::{Board, Seat};
use std::alloc::Global;
use std::process::Abort;
use std::test::Fail;
use tilecore::TileJob;

// The tile of that number, which nobody had before.
fn claim_number(
    rt: &impl Abort,
    board: &Board<'_, Amounts, Global>,
    seat: &mut Seat<Amounts>,
    number: u32,
) -> Blank
    requires own { IsSeatOf board.now seat.old }
    requires named { board.now.named ≡ true }
    requires ready { (length seat.old.view.placed ≡ board.now.job.tiles) × (seat.old.view.hand ≡ Empty) }
    requires in_range { number < board.now.job.tiles }
    ensures own { IsSeatOf board.now seat.new }
    ensures fits { result.number < board.now.job.tiles }
    ensures held { seat.new.view ≡ record (swapped_view seat.old.view number) { hand = Holding number result } }
{
    match board.claim_number(seat, number) {
        Some(tile) => tile,
        None => panic!(rt; "nobody had it"),
    }
}

// One seat gets tile 1, the other none for 1 and then tile 0.
#[test]
fn board_of_two(rt: HostRuntime) -> Result<(), Fail> {
    let alloc: Global = rt.alloc();
    let job = make_amounts(2);
    let (board, mut seat) = Board::new_named(&alloc, &job)?;
    place_all(&board, &mut seat, 2);
    let (mut a, mut b) = board.split(seat);
    let last = claim_number(&rt, &board, &mut a, 1);
    assert!(rt; board.claim_number(&mut b, 1).is_none());
    let first = claim_number(&rt, &board, &mut b, 0);
    assert!(rt; first.number == 0 && last.number == 1);
    board.hand_in(&mut a, job.run(last));
    board.hand_in(&mut b, job.run(first));
    let all = board.join(a, b);
    let mut finished = close(&rt, board, all);
    let amounts = [
        next_amount(&mut finished),
        next_amount(&mut finished),
        next_amount(&mut finished),
    ];
    assert!(rt; amounts == [Some(5), Some(7), None]);
    Ok(())
}
