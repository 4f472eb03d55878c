//! The rule of a deque of numbers. The types of this file but `Task` are for the proofs alone.

ghost use Rattle.std.specs.Prelude.{None, Some};
ghost use Rattle.dealt.specs.Deal.{Dealt, deals, takes_out};

use crossbeam_deque::protocol::{Outcome, Protocol, Split};

/// The number of a tile, and how many tiles there are.
#[derive(Debug, Copy, Clone, Drop)]
pub struct Task {
    pub number: u32,
    pub tiles: u32,
}

pub struct Numbers;

impl Protocol<Task, Option<u64>> for Numbers {
    ghost holds = { Dealt };

    ghost first = { None };

    ghost guest = { None };
}

pub struct Deals;

impl Outcome<Task, Option<u64>> for Deals {
    ghost then = { deals };
}

pub struct TakesOut;

impl Outcome<Task, Option<u64>> for TakesOut {
    ghost then = { takes_out };
}

pub struct Same;

impl Split<Option<u64>> for Same {
    ghost left = { λ v. v };

    ghost right = { λ v. v };
}
