//! Where the threads of crews sleep until they are called.

use std::array;
use std::hint::spin_loop;
use std::sync::atomic::{AtomicBool, AtomicU32, Ordering};
use std::sync::{Condvar, Mutex, Wait};

/// How many can work beside the caller: the first seat of a board weighs 16.
pub(crate) const MOST_WORKERS: usize = 15;

// What is known of a thread at its bell.
#[derive(Clone, Copy)]
enum Call {
    // It is at work, or on its way to sleep.
    None,
    // It sleeps.
    Awaited,
    // Something may lie in one of its mailboxes.
    Made,
    // It is to go home.
    Last,
}

/// Where one thread is called, and sleeps meanwhile.
#[derive(Drop)]
pub(crate) struct Bell {
    call: Mutex<Call>,
    bell: Condvar,
    // Whether there may be a call, for a thread that looks without the lock.
    called: AtomicBool,
}

impl Bell {
    fn new() -> Bell {
        Bell {
            call: Mutex::new(Call::None),
            bell: Condvar::new(),
            called: AtomicBool::new(false),
        }
    }

    /// Calls the thread, and says whether it sleeps: then whoever called has to ring. A thread that was rung for and has not
    /// woken yet doesn't count as asleep.
    pub(crate) fn call<R: Wait>(&self, rt: &R) -> bool {
        let mut call = self.call.lock(rt);
        let was = *call;
        if let Call::Last = was {
            return false;
        }
        *call = Call::Made;
        self.called.store(true, Ordering::Relaxed);
        matches!(was, Call::Awaited)
    }

    /// Wakes the thread that sleeps there.
    pub(crate) fn ring(&self) {
        self.bell.notify_one();
    }

    // Sends the thread home.
    fn close<R: Wait>(&self, rt: &R) {
        let mut call = self.call.lock(rt);
        *call = Call::Last;
        self.called.store(true, Ordering::Relaxed);
        drop(call);
        self.bell.notify_one();
    }

    // Spins so often for a call, which may spare the thread its sleep.
    fn spin_until_called(&self, spins: u32) {
        for _ in 0..spins {
            if self.called.load(Ordering::Relaxed) {
                return;
            }
            spin_loop();
        }
    }

    /// Waits for a call; false where it is the last. Its thread spins so often before it sleeps.
    pub(crate) fn wait<R: Wait>(&self, rt: &R, spins: u32) -> bool {
        self.spin_until_called(spins);
        let mut call = self.call.lock(rt);
        for _ in rt.forever() {
            match *call {
                Call::Last => return false,
                Call::Made => {
                    *call = Call::None;
                    self.called.store(false, Ordering::Relaxed);
                    return true;
                }
                Call::None | Call::Awaited => {}
            }
            *call = Call::Awaited;
            call = self.bell.wait(rt, call);
        }
        false
    }
}

/// The bells of the threads that work for crews: crews over the same bells share their threads.
#[derive(Drop)]
pub struct Bells {
    all: [Bell; 15],
    workers: usize,
    // The most workers that a run was for.
    asked: AtomicU32,
}

impl Bells {
    ghost use Rattle.std.specs.Prelude.{◌≤◌};

    /// Bells for so many workers, at most 15.
    pub fn new(workers: u32) -> Bells {
        Bells {
            all: array::from_fn(|_| Bell::new()),
            workers: (workers as usize).min(MOST_WORKERS),
            asked: AtomicU32::new(0),
        }
    }

    /// The bells, in the order of their workers.
    pub(crate) fn bells(&self) -> &[Bell] {
        &self.all[..self.workers.min(MOST_WORKERS)]
    }

    /// Asks for so many workers.
    pub(crate) fn ask(&self, workers: u32) {
        let asked = self.asked.load(Ordering::Relaxed);
        self.asked.store(asked.max(workers), Ordering::Relaxed);
    }

    /// The most workers that were asked for.
    pub(crate) fn asked(&self) -> u32
        ensures { result ≤ 15 }
    {
        self.asked.load(Ordering::Relaxed).min(MOST_WORKERS as u32)
    }

    /// Sends all threads home.
    pub fn close<R: Wait>(&self, rt: &R) {
        for bell in self.bells() {
            bell.close(rt);
        }
    }
}
