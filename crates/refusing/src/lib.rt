//! An allocator for tests, which refuses one growth and passes all others on.
//!
//! A test runs its body once for each n: a growth is a call for a block, counted from 1, and the n-th is refused. A
//! `&Refusing` is an allocator too, and can be copied. The count is one atomic word, so threads may share it.
#![tactic(auto)]

use std::alloc::{AllocError, Allocator, Global};
use std::sync::atomic::AtomicU64;
use std::sync::atomic::Ordering::SeqCst;

/// The count of growths, and the number of the one that is refused.
struct Gate {
    asked: AtomicU64,
    refused: u64,
}

impl Gate {
    /// Counts a growth, and says whether it is the one that is refused.
    fn refuses(&self) -> bool {
        self.asked.fetch_add(1, SeqCst).wrapping_add(1) == self.refused
    }
}

/// Passes growths on to an allocator, but for one.
pub struct Refusing<A: Allocator = Global> {
    inner: A,
    gate: Gate,
}

impl<A: Allocator> Refusing<A> {
    ghost use Rattle.std.specs.Prelude.{◌≡◌, false};
    ghost use Rattle.refusing.specs.Passing.{inner_of, number_of};

    /// Refuses the n-th growth, counted from 1, or with 0 none.
    pub fn new(inner: A, n: u64) -> Refusing<A>
        ensures inner { inner_of result ≡ inner }
        ensures number { number_of result ≡ n }
    {
        Refusing {
            inner,
            gate: Gate {
                asked: AtomicU64::new(0),
                refused: n,
            },
        }
    }

    /// How many growths were asked for.
    pub fn count(&self) -> u64 {
        self.gate.asked.load(SeqCst)
    }

    /// Whether a growth was refused.
    pub fn refused(&self) -> bool
        ensures { number_of self.now ≡ 0 → result ≡ false }
    {
        0 < self.gate.refused && self.gate.refused <= self.count()
    }
}

impl<A: Allocator> Drop for Refusing<A> {
    fn drop(self) {
        let Self { inner: _, gate } = self;
        let Gate {
            asked: _,
            refused: _,
        } = gate;
    }
}

unsafe impl<A: Allocator> Allocator for Refusing<A> {
    ghost use Rattle.refusing.specs.Passing.{inner_of};

    ghost dealloc_token = { λ heap ty ptr. A.dealloc_token (inner_of heap) ty ptr };

    fn allocate(&self, size: usize, align: usize) -> Result<*mut u8, AllocError> {
        if self.gate.refuses() {
            return Err(AllocError);
        }
        self.inner.allocate(size, align)
    }

    unsafe fn deallocate(&self, ptr: *mut u8, size: usize, align: usize) {
        self.inner.deallocate(ptr, size, align);
    }
}
