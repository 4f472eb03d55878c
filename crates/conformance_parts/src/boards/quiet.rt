//! What takes no memory: behind the making of a board, a schedule or a target no call asks for a growth, be the tiles 3 or
//! 3,000.

ghost use Rattle.std.specs.Prelude.{◌≡◌, ◌<◌, ◌≤◌, ◌+◌, ◌^◌, length, false, true};
ghost use Rattle.tilecore.specs.Schedule.{counted};
ghost use Rattle.board.specs.declared.view.Hand.TheVariants.{Empty};
ghost use Rattle.board.specs.Known.{IsSeatOf};

use crate::boards::amounts::{Amounts, make_amounts, place_all};
use crate::boards::rows::hand_in;
use board::{Board, Seat};
use gfxspec::GfxError;
use refusing::Refusing;
use std::alloc::{Allocator, Global};
use std::process::Abort;
use std::test::Fail;
use std::thread::Threads;
use tilecore::{Core, Event, Reply, TileJob};
use workers::{NoGate, drain, drain_alone, run_all};

// Takes a tile, hands it in, and asks for the count.
fn take_one<A: Allocator>(board: &Board<'_, Amounts, A>, seat: &mut Seat<Amounts>, job: &Amounts)
    requires own { IsSeatOf board.now seat.old × (job.now ≡ board.now.job) }
    requires ordered { board.now.named ≡ false }
    requires ready { (length seat.old.view.placed ≡ board.now.job.tiles) × (seat.old.view.hand ≡ Empty) }
    ensures own { IsSeatOf board.now seat.new }
    ensures ready { (length seat.new.view.placed ≡ board.now.job.tiles) × (seat.new.view.hand ≡ Empty) }
    ensures weight { seat.new.view.weight ≡ seat.old.view.weight }
{
    if let Some(tile) = board.claim(seat) {
        board.hand_in(seat, job.run(tile));
    }
    board.count_so_far(seat, 0);
}

// The count of the one issue, behind all results; none where a tile isn't in.
fn read_all<A: Allocator>(
    board: Board<'_, Amounts, A>,
    seat: Seat<Amounts>,
    tiles: u32,
) -> Option<u64>
    requires { IsSeatOf board seat }
{
    let Ok(mut finished) = board.close(seat) else {
        return None;
    };
    for _ in 0..tiles {
        if finished.next_tile().is_none() {
            return None;
        }
    }
    Some(finished.count(0))
}

// The count of a board whose tiles are claimed in order by two seats, each with a drain of its own.
fn count_in_order<A: Allocator>(alloc: &A, tiles: u32) -> Result<Option<u64>, GfxError>
    requires { tiles ≤ 16384 }
{
    let job = make_amounts(tiles);
    let (board, mut first) = Board::new(alloc, &job)?;
    place_all(&board, &mut first, tiles);
    let (mut first, second) = board.split(first);
    take_one(&board, &mut first, &job);
    let (first, third) = board.split(first);
    let first = drain_alone(&board, first, &job);
    let second = drain(&board, second, &job, 1, &NoGate);
    let both = board.join(first, second);
    let all = board.join(both, third);
    Ok(read_all(board, all, tiles))
}

// The count of a board whose tiles are claimed by number.
fn count_by_number<A: Allocator + Sync, R: Threads + Sync>(
    rt: &R,
    alloc: &A,
    tiles: u32,
) -> Result<Option<u64>, GfxError>
    requires { tiles ≤ 16384 }
{
    let job = make_amounts(tiles);
    let (board, mut seat) = Board::new_named(alloc, &job)?;
    place_all(&board, &mut seat, tiles);
    let all = run_all(rt, &board, seat, &job, 0, &NoGate);
    Ok(read_all(board, all, tiles))
}

// A board takes memory four times: for its words and its places, each as a list and then in the table.
fn assert_board_is_quiet<R: Abort + Threads + Sync>(rt: &R, alloc: Global, tiles: u32, count: u64)
    requires { tiles ≤ 16384 }
{
    let ordered = Refusing::new(alloc, 0);
    let came = count_in_order(&ordered, tiles);
    assert!(rt; matches!(came, Ok(Some(sum)) if sum == count));
    assert!(rt; ordered.count() == 4);
    let named = Refusing::new(alloc, 0);
    let came = count_by_number(rt, &named, tiles);
    assert!(rt; matches!(came, Ok(Some(sum)) if sum == count));
    assert!(rt; named.count() == 4);
}

#[test]
fn boards(rt: HostRuntime) {
    assert_board_is_quiet(&rt, rt.alloc(), 3, 21);
    assert_board_is_quiet(&rt, rt.alloc(), 3_000, 9_012_000);
}

// A worker takes a tile, counts 1 for it, and hands it in.
fn play_one<A: Allocator>(core: &mut Core<A>) -> bool
    requires { (length core.old.workers ≡ 2) × (length core.old.sums ≡ 1) × (counted core.old 0 < 2 ^ 32) }
    ensures { (length core.new.workers ≡ 2) × (length core.new.sums ≡ 1) × (counted core.new 0 ≤ counted core.old 0 + 1) }
{
    let one = Event::Count {
        worker: 0,
        issue: 0,
        amount: 1,
    };
    let claimed = core.apply(Event::Claim { worker: 0 });
    let counted = core.apply(one);
    let handed = core.apply(hand_in(0, 1));
    matches!(claimed, Reply::Tile(_)) && counted == Reply::Counted && handed == Reply::Done
}

// Plays so many tiles, and says whether none is left then.
fn play_all<A: Allocator + Copy>(alloc: A, tiles: u32) -> Result<bool, GfxError> {
    let mut core = Core::new(alloc, tiles, 1, 2)?;
    for _turn in 0..tiles {
        if !play_one(&mut core) {
            return Ok(false);
        }
    }
    Ok(core.apply(Event::Claim { worker: 1 }) == Reply::NoneLeft)
}

// A schedule takes memory for its tiles, its workers, what each of the two added, and the sums.
#[test]
fn schedules(rt: HostRuntime) -> Result<(), Fail> {
    for tiles in [3u32, 3_000] {
        let alloc = Refusing::new(rt.alloc(), 0);
        assert!(rt; play_all(&alloc, tiles)?);
        assert!(rt; alloc.count() == 5);
    }
    Ok(())
}
