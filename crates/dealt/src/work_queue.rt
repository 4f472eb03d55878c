//! What one worker takes numbers from.

ghost use Rattle.std.specs.Prelude.{◌≡◌, ◌<◌, ◌≤◌, ◌+◌, length, All, IfSome};

use crate::own_queue::{OwnQueue, QueueStealer};
use std::alloc::Allocator;
use std::marker::Model;

// The first number that one of the ways gives.
fn steal_first<A: Allocator>(stealers: &mut [QueueStealer<A>], tiles: u32) -> Option<u32>
    requires { All (λ t. t ≡ tiles) stealers.old }
    ensures all { All (λ t. t ≡ tiles) stealers.new }
    ensures in_range { IfSome result (λ n. n < tiles) }
{
    for i in 0..stealers.len() {
        if let Some(number) = stealers[i].steal() {
            return Some(number);
        }
    }
    None
}

/// A worker's own numbers, and its ways to steal from the others, in the order in which it goes to them.
#[derive(Drop)]
pub struct WorkQueue<A: Allocator + Drop> {
    own: Option<OwnQueue<A>>,
    stealers: Vec<QueueStealer<A>, A>,
    tiles: u32,
}

impl<A: Allocator + Drop> Model for WorkQueue<A> {
    ghost use Rattle.std.specs.Prelude.{◌≡◌, ℕ, All, IfSome};

    ghost Value = { ℕ };

    ghost view = { λ k. k.tiles };

    ghost invariant = { λ k. IfSome k.own (λ p. p ≡ k.tiles) × All (λ t. t ≡ k.tiles) k.stealers.items };
}

impl<A: Allocator + Drop> WorkQueue<A> {
    /// A number of its own, or one that it steals.
    pub fn next(&mut self) -> Option<u32>
        ensures same { self.new ≡ self.old }
        ensures in_range { IfSome result (λ n. n < self.old) }
    {
        if let Some(own) = &mut self.own {
            if let Some(number) = own.pop() {
                return Some(number);
            }
        }
        let found = steal_first(self.stealers.as_mut_slice(), self.tiles);
        found
    }

    // A way to steal from its own numbers.
    fn lend(&mut self) -> Option<QueueStealer<A>>
        ensures same { self.new ≡ self.old }
        ensures stealer { IfSome result (λ t. t ≡ self.old) }
    {
        match &mut self.own {
            Some(own) => own.stealer(),
            None => None,
        }
    }

    // Takes a way to steal, where memory allows it.
    fn keep(&mut self, stealer: QueueStealer<A>)
        requires { stealer ≡ self.old }
        ensures { self.new ≡ self.old }
    {
        let _ = self.stealers.push(stealer);
    }
}

// Gives the thief a way to steal from the owner, where memory allows it.
fn hand<A: Allocator + Drop>(
    queues: &mut Vec<WorkQueue<A>, A>,
    owner: usize,
    thief: usize,
    tiles: u32,
)
    requires { All (λ t. t ≡ tiles) queues.old.items × (owner < length queues.old.items) × (thief < length queues.old.items) }
    ensures { All (λ t. t ≡ tiles) queues.new.items × (length queues.new.items ≡ length queues.old.items) }
{
    let stealer = queues[owner].lend();
    if let Some(stealer) = stealer {
        queues[thief].keep(stealer);
    }
}

// Gives each a way to steal from each other, beginning with the next.
fn share<A: Allocator + Drop>(queues: &mut Vec<WorkQueue<A>, A>, tiles: u32)
    requires { All (λ t. t ≡ tiles) queues.old.items × (length queues.old.items ≤ 16) }
    ensures { All (λ t. t ≡ tiles) queues.new.items × (length queues.new.items ≡ length queues.old.items) }
{
    let count = queues.len();
    for thief in 0..count {
        for step in 1..count {
            hand(queues, (thief + step) % count, thief, tiles);
        }
    }
}

// One more queue, where memory allows it.
fn add<A: Allocator + Drop>(queues: &mut Vec<WorkQueue<A>, A>, queue: WorkQueue<A>, tiles: u32)
    requires { All (λ t. t ≡ tiles) queues.old.items × (queue ≡ tiles) }
    ensures { All (λ t. t ≡ tiles) queues.new.items × (length queues.new.items ≤ length queues.old.items + 1) }
{
    let _ = queues.push(queue);
}

/// Queues for so many workers, or for as many as there are tiles; none for one alone. Number n is dealt to worker n mod the
/// number of workers. A queue, a deque, a push, or a way to steal that memory refuses is left out.
pub fn deal_queues<A: Allocator + Copy + Clone + Drop>(
    alloc: A,
    workers: u32,
    tiles: u32,
) -> Vec<WorkQueue<A>, A>
    requires { (0 < workers) × (workers ≤ 16) }
    ensures few { length result.items ≤ workers }
    ensures all { All (λ t. t ≡ tiles) result.items }
{
    let mut queues: Vec<WorkQueue<A>, A> = Vec::new(alloc);
    let workers = workers.min(tiles);
    if workers < 2 {
        return queues;
    }
    for worker in 0..workers {
        let queue = WorkQueue {
            own: OwnQueue::deal(alloc, worker, workers, tiles),
            stealers: Vec::new(alloc),
            tiles,
        };
        add(&mut queues, queue, tiles);
    }
    share(&mut queues, tiles);
    queues
}
