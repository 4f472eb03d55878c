//! Worked rows: events of the schedule, and boards of two and three tiles. Sessions with workers claim by number.

ghost use Rattle.std.specs.Prelude.{◌≡◌, ◌<◌, [], ◌∷◌, length, false};
ghost use Rattle.tilecore.specs.Schedule.{hands_in};
ghost use Rattle.tilecore.specs.Meaning.{happening_of};
ghost use Rattle.board.specs.declared.view.Hand.TheVariants.{Empty, Holding};
ghost use Rattle.board.specs.Known.{IsSeatOf};

use crate::boards::amounts::{Amounts, Blank, make_amounts, place_all};
use arrayvec::ArrayVec;
use board::{Board, Finished, Seat, board_law};
use gfxspec::GfxError;
use std::alloc::Global;
use std::process::Abort;
use std::test::Fail;
use tilecore::{Core, Event, Reply, TileJob, schedule_law};
use workers::{NoGate, drain, drain_alone};

// A worker hands its tile in, with what it added to the one issue.
pub(super) fn hand_in(worker: u32, count: u64) -> Event
    ensures { happening_of result ≡ hands_in worker (count ∷ []) }
{
    let mut counts = ArrayVec::new();
    counts.push(count);
    Event::HandIn { worker, counts }
}

#[test]
fn a_schedule_of_two_tiles(rt: HostRuntime) -> Result<(), Fail> {
    schedule_law();
    let mut core = Core::new(rt.alloc(), 2, 1, 2)?;
    let four = Event::Count {
        worker: 0,
        issue: 0,
        amount: 4,
    };
    let replies = [
        core.apply(Event::Claim { worker: 0 }),
        core.apply(Event::Claim { worker: 0 }),
        core.apply(four),
        core.apply(hand_in(0, 3)),
        core.apply(hand_in(0, 4)),
        core.apply(hand_in(1, 0)),
        core.apply(Event::Claim { worker: 1 }),
        core.apply(Event::Claim { worker: 0 }),
        core.apply(hand_in(1, 0)),
    ];
    assert!(rt;
        replies
            == [
                Reply::Tile(0),
                Reply::Refused,
                Reply::Counted,
                Reply::Refused,
                Reply::Done,
                Reply::Refused,
                Reply::Tile(1),
                Reply::NoneLeft,
                Reply::Done,
            ]
    );
    Ok(())
}

// The next tile, of which one is left.
fn claim(rt: &impl Abort, board: &Board<'_, Amounts, Global>, seat: &mut Seat<Amounts>) -> Blank
    requires own { IsSeatOf board.now seat.old }
    requires ordered { board.now.named ≡ false }
    requires ready { (length seat.old.view.placed ≡ board.now.job.tiles) × (seat.old.view.hand ≡ Empty) }
    ensures own { IsSeatOf board.now seat.new }
    ensures fits { result.number < board.now.job.tiles }
    ensures held { seat.new.view ≡ record seat.old.view { hand = Holding result.number result } }
{
    match board.claim(seat) {
        Some(tile) => tile,
        None => panic!(rt; "a tile was left"),
    }
}

// The results of a board whose tiles are all in.
pub(super) fn close<'a>(
    rt: &impl Abort,
    board: Board<'a, Amounts, Global>,
    seat: Seat<Amounts>,
) -> Finished<'a, Amounts, Global>
    requires { IsSeatOf board seat }
    ensures { length result.counts ≡ 1 }
{
    match board.close(seat) {
        Ok(finished) => finished,
        Err(_) => panic!(rt; "all tiles are in"),
    }
}

// The amount of the next result.
pub(super) fn next_amount(finished: &mut Finished<'_, Amounts, Global>) -> Option<u32> {
    Some(finished.next_tile()?.amount)
}

#[test]
fn board_of_two(rt: HostRuntime) -> Result<(), Fail> {
    let alloc: Global = rt.alloc();
    let job = make_amounts(2);
    let (board, mut a) = Board::new(&alloc, &job)?;
    place_all(&board, &mut a, 2);
    let (mut a, mut b) = board.split(a);
    let first = claim(&rt, &board, &mut a);
    let second = claim(&rt, &board, &mut b);
    assert!(rt; first.number == 0 && second.number == 1);
    board.hand_in(&mut a, job.run(first));
    assert!(rt; board.claim(&mut a).is_none());
    let Err((refused, board, a)) = board.close(a) else {
        panic!(rt; "a seat's share lacks a tile")
    };
    assert!(rt; refused == GfxError::Unfinished);
    board.hand_in(&mut b, job.run(second));
    let all = board.join(a, b);
    let mut finished = close(&rt, board, all);
    let amounts = [
        next_amount(&mut finished),
        next_amount(&mut finished),
        next_amount(&mut finished),
    ];
    assert!(rt; amounts == [Some(5), Some(7), None]);
    Ok(())
}

#[test]
fn board_of_three_counts(rt: HostRuntime) -> Result<(), Fail> {
    board_law::<Amounts>();
    let alloc: Global = rt.alloc();
    let job = make_amounts(3);
    let (board, mut a) = Board::new(&alloc, &job)?;
    place_all(&board, &mut a, 3);
    let (mut a, mut b) = board.split(a);
    let tile = claim(&rt, &board, &mut a);
    board.hand_in(&mut a, job.run(tile));
    let counts = [board.count_so_far(&mut a, 0), board.count_so_far(&mut b, 0)];
    assert!(rt; counts == [5, 5]);
    let a = drain_alone(&board, a, &job);
    let b = drain(&board, b, &job, 1, &NoGate);
    let all = board.join(a, b);
    let finished = close(&rt, board, all);
    assert!(rt; finished.count(0) == 21);
    Ok(())
}
