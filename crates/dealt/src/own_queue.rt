//! A deque of numbers, and a way to steal from it.

ghost use Rattle.std.specs.Prelude.{◌≡◌, ◌⊎◌, ◌<◌, ℕ, true, false, IfSome, Some, None};
ghost use Rattle.crossbeam_deque.specs.Handles.{worker_view, worker_flavor};

use crate::rule::{Deals, Numbers, Same, TakesOut, Task};
use crossbeam_deque::{Pass, Steal, Stealer, Worker};
use std::alloc::Allocator;
use std::marker::Model;

type Owner<A> = Worker<Task, A, Option<u64>, Numbers>;

/// The numbers that were dealt to one worker. Each is the number of a tile.
#[derive(Drop)]
pub struct OwnQueue<A: Allocator> {
    owner: Owner<A>,
    tiles: u32,
}

impl<A: Allocator> Model for OwnQueue<A> {
    ghost use Rattle.std.specs.Prelude.{◌≡◌, ℕ, Some};
    ghost use Rattle.crossbeam_deque.specs.Handles.{worker_view, worker_flavor};

    ghost Value = { ℕ };

    ghost view = { λ p. p.tiles };

    ghost invariant = { λ p. (worker_view p.owner ≡ Some p.tiles) × (worker_flavor p.owner ≡ 1) };
}

/// What another worker steals from a queue with.
#[derive(Drop)]
pub struct QueueStealer<A: Allocator> {
    stealer: Stealer<Task, A, Option<u64>, Numbers>,
    pass: Pass<Task, Option<u64>, A>,
    tiles: u32,
}

impl<A: Allocator> Model for QueueStealer<A> {
    ghost use Rattle.std.specs.Prelude.{◌≡◌, ℕ, Some};
    ghost use Rattle.crossbeam_deque.specs.Handles.{view as knows, IsPassOf, stealer_deque};

    ghost Value = { ℕ };

    ghost view = { λ p. p.tiles };

    ghost invariant = { λ p. IsPassOf (stealer_deque p.stealer) p.pass × (knows p.pass ≡ Some p.tiles) };
}

// Whether the number came onto the queue.
fn put<A: Allocator>(owner: &mut Owner<A>, task: Task) -> bool
    requires { ((worker_view owner.old ≡ None) ⊎ (worker_view owner.old ≡ Some task.tiles)) × (task.number < task.tiles) }
    ensures same { worker_flavor owner.new ≡ worker_flavor owner.old }
    ensures put { result ≡ true → worker_view owner.new ≡ Some task.tiles }
    ensures not_put { result ≡ false → worker_view owner.new ≡ worker_view owner.old }
{
    match owner.push_as::<Deals>(task) {
        Ok(()) => true,
        Err(_) => false,
    }
}

impl<A: Allocator + Clone + Drop> OwnQueue<A> {
    /// The numbers from `first` on in steps of `step`, as far as memory allows; none where it allows not one.
    pub(crate) fn deal(alloc: A, first: u32, step: u32, tiles: u32) -> Option<OwnQueue<A>>
        requires { (first < tiles) × (0 < step) }
        ensures { IfSome result (λ p. p ≡ tiles) }
    {
        let count = (tiles - first - 1) / step + 1;
        let Ok(mut owner) = Owner::lifo_as(alloc, count as usize) else {
            return None;
        };
        let mut number = first;
        if !put(&mut owner, Task { number, tiles }) {
            return None;
        }
        while tiles - number > step {
            number += step;
            put(&mut owner, Task { number, tiles });
        }
        Some(OwnQueue { owner, tiles })
    }
}

impl<A: Allocator> OwnQueue<A> {
    /// A way for another worker to steal from this queue.
    pub(crate) fn stealer(&mut self) -> Option<QueueStealer<A>>
        ensures same { self.new ≡ self.old }
        ensures stealer { IfSome result (λ t. t ≡ self.old) }
    {
        let Ok(stealer) = self.owner.stealer() else {
            return None;
        };
        let pass = self.owner.another::<Same>();
        Some(QueueStealer {
            stealer,
            pass,
            tiles: self.tiles,
        })
    }

    /// A number of the queue.
    pub(crate) fn pop(&mut self) -> Option<u32>
        ensures same { self.new ≡ self.old }
        ensures in_range { IfSome result (λ n. n < self.old) }
    {
        match self.owner.pop_as::<TakesOut>() {
            Some(task) => Some(task.number),
            None => None,
        }
    }
}

impl<A: Allocator> QueueStealer<A> {
    /// A number of the queue. Where another thread was faster the queue counts as empty.
    pub(crate) fn steal(&mut self) -> Option<u32>
        ensures same { self.new ≡ self.old }
        ensures in_range { IfSome result (λ n. n < self.old) }
    {
        match self.stealer.steal_as::<TakesOut>(&mut self.pass) {
            Steal::Success(task) => Some(task.number),
            Steal::Empty => None,
            Steal::Retry => None,
        }
    }
}
