//! The queue's rule, and what each step on the queue tells. These types are for the proofs alone.

ghost use Rattle.port.specs.Rule.{Ordered, port_view, drain_view, left_view, right_view, both_views, spent, sends_one, takes_one, Moment, GivenBack};

use crate::submission::Submission;
use crossbeam_queue::RuledArrayQueue;
use crossbeam_queue::protocol::{Join, Lesson, Outcome, Protocol, Split};
use std::collections::LinkedList;

/// What a pass knows. No value of it is made. One that neither sends nor drains is spent.
pub struct View<L> {
    pub sends: bool,
    pub port: u64,
    // What was sent by that port.
    pub put: LinkedList<Submission<L>>,
    pub drains: bool,
    // What was taken out, of all ports.
    pub taken: LinkedList<Submission<L>>,
    // How many ports have been made.
    pub made: u64,
    // What was sent in all by each port that gave its pass back.
    pub back: LinkedList<LinkedList<Submission<L>>>,
}

pub(crate) struct InOrder;

impl<L> Protocol<Submission<L>, View<L>> for InOrder {
    ghost use Rattle.std.specs.Prelude.{[]};

    ghost holds = { Ordered };

    ghost first = { drain_view [] 0 [] };
}

pub(crate) struct Makes;

impl<L> Split<View<L>> for Makes {
    ghost left = { left_view };

    ghost right = { right_view };
}

impl<L> Join<View<L>> for Makes {
    ghost both = { both_views };

    ghost spent = { spent };
}

pub(crate) struct Sends;

impl<L> Outcome<Submission<L>, View<L>> for Sends {
    ghost then = { sends_one };
}

impl<L> Lesson<Submission<L>, View<L>> for Sends {
    ghost fact = { Moment };
}

pub(crate) struct Takes;

impl<L> Outcome<Submission<L>, View<L>> for Takes {
    ghost then = { takes_one };
}

impl<L> Lesson<Submission<L>, View<L>> for Takes {
    ghost fact = { Moment };
}

pub(crate) struct Total;

impl<L> Lesson<Submission<L>, View<L>> for Total {
    ghost fact = { GivenBack };
}

pub(crate) type Queue<L, A> = RuledArrayQueue<Submission<L>, View<L>, InOrder, A>;
