//! Whether numbers are popped and stolen: a gate holds one of two workers until the other has run all tiles but its own.

use crate::boards::amounts::{make_amounts, place_all};
use board::Board;
use std::alloc::Global;
use std::sync::atomic::AtomicU64;
use std::sync::atomic::Ordering::SeqCst;
use std::test::Fail;
use std::thread;
use test_tools::Meeting;
use workers::{Gate, run_all};

/// Holds the first claims of two workers until both have come, and that of worker 1 until three tiles are handed in, for so
/// many turns at most.
#[derive(Drop)]
struct HeldUp {
    first_claims: Meeting,
    handed_in: AtomicU64,
    late: AtomicU64,
}

impl HeldUp {
    fn wait_for_three(&self) {
        for _ in 0..20_000_000u64 {
            if self.handed_in.load(SeqCst) >= 3 {
                return;
            }
            thread::yield_now();
        }
        self.late.fetch_add(1, SeqCst);
    }
}

impl Gate for HeldUp {
    fn before_claim(&self, worker: u32, turn: u64) {
        if turn > 0 {
            return;
        }
        self.first_claims.wait();
        if worker == 1 {
            self.wait_for_three();
        }
    }

    fn after_hand_in(&self, _worker: u32, _turn: u64) {
        self.handed_in.fetch_add(1, SeqCst);
    }
}

// Of four tiles worker 0 pops its own two, and then steals what is left of worker 1's.
#[test]
fn a_worker_that_is_held_up_is_robbed(rt: HostRuntime) -> Result<(), Fail> {
    let alloc: Global = rt.alloc();
    let job = make_amounts(4);
    let gate = HeldUp {
        first_claims: Meeting::new(2),
        handed_in: AtomicU64::new(0),
        late: AtomicU64::new(0),
    };
    let (board, mut seat) = Board::new_named(&alloc, &job)?;
    place_all(&board, &mut seat, 4);
    let seat = run_all(&rt, &board, seat, &job, 1, &gate);
    assert!(rt; board.close(seat).is_ok());
    assert!(rt; gate.first_claims.all_came());
    assert!(rt; gate.late.load(SeqCst) == 0);
    Ok(())
}
