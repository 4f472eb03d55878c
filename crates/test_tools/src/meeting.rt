//! Where threads meet: a test passes only where as many come as it wants.

use std::sync::atomic::AtomicU64;
use std::sync::atomic::Ordering::SeqCst;
use std::thread;
use workers::Gate;

/// A place where so many threads meet.
#[derive(Drop)]
pub struct Meeting {
    come: AtomicU64,
    late: AtomicU64,
    want: u64,
}

impl Meeting {
    /// A place where so many are wanted, to which none has come.
    pub fn new(want: u64) -> Meeting {
        Meeting {
            come: AtomicU64::new(0),
            late: AtomicU64::new(0),
            want,
        }
    }

    /// Comes, and waits for the others, for a hundred million turns at most.
    pub fn wait(&self) {
        self.come.fetch_add(1, SeqCst);
        for _ in 0..100_000_000u64 {
            if self.come.load(SeqCst) >= self.want {
                return;
            }
            thread::yield_now();
        }
        self.late.fetch_add(1, SeqCst);
    }

    /// Whether as many came as are wanted, and none gave up waiting.
    pub fn all_came(&self) -> bool {
        self.come.load(SeqCst) >= self.want && self.late.load(SeqCst) == 0
    }
}

/// Holds the first claim of each worker until all have come to theirs.
#[derive(Drop)]
pub struct AllAtOnce {
    first_claims: Meeting,
}

impl AllAtOnce {
    /// A gate at which so many workers are wanted.
    pub fn new(want: u64) -> AllAtOnce {
        AllAtOnce {
            first_claims: Meeting::new(want),
        }
    }

    /// Whether as many workers came to their first claims as are wanted.
    pub fn all_came(&self) -> bool {
        self.first_claims.all_came()
    }
}

impl Gate for AllAtOnce {
    fn before_claim(&self, _worker: u32, turn: u64) {
        if turn == 0 {
            self.first_claims.wait();
        }
    }

    fn after_hand_in(&self, _worker: u32, _turn: u64) {}
}
