//! Where finished lists go.

use crate::ports::{ListPass, ListPorts, Recorded, RecordedList};
use cmdlist::CommandList;
use std::alloc::{AllocError, Allocator};
use std::marker::Model;
use std::sync::Wait;
use workers::Gate;

pub(crate) trait ListSink<L> {
    ghost use Rattle.std.specs.Prelude.{◌≡◌, ◌++◌, ◌∷◌, [], List, Option, OnOk, OnErr};
    ghost use Rattle.recorders.specs.Sinks.{Way};
    ghost use Rattle.recorders.specs.declared.ports.Recorded.{Recorded};

    /// The lists that were put, those that were sent first.
    ghost put_lists: { Self → List (Recorded L) };

    /// The port that they go by, if they go by one.
    ghost way: { Self → Option Way };

    fn put(&mut self, recorded: Recorded<L>) -> Result<(), AllocError>
        ensures way { way self.new ≡ way self.old }
        ensures ok { OnOk result (put_lists self.new ≡ put_lists self.old ++ recorded ∷ []) }
        ensures err { OnErr result (put_lists self.new ≡ put_lists self.old) };
}

impl<A: Allocator> ListSink<CommandList<A>> for Vec<Recorded<CommandList<A>>, A> {
    ghost use Rattle.std.specs.Prelude.{◌≡◌, ◌++◌, ◌∷◌, [], None, OnOk, OnErr};

    ghost put_lists = { λ v. v.items };

    ghost way = { λ v. None };

    fn put(&mut self, recorded: Recorded<CommandList<A>>) -> Result<(), AllocError>
        ensures ok { OnOk result (self.new.items ≡ self.old.items ++ recorded ∷ []) }
        ensures err { OnErr result (self.new.items ≡ self.old.items) }
    {
        self.push(recorded)?;
        Ok(())
    }
}

/// Sends a recorder's lists through its port. Once one came back, it and all that follow are kept.
#[derive(Drop)]
pub(crate) struct ListSender<'a, A: Allocator, R: Wait, G: Gate> {
    pub(crate) rt: &'a R,
    pub(crate) ports: &'a ListPorts<A>,
    pub(crate) gate: &'a G,
    pub(crate) pass: ListPass<A>,
    pub(crate) kept: Vec<RecordedList<A>, A>,
}

impl<'a, A: Allocator, R: Wait, G: Gate> Model for ListSender<'a, A, R, G> {
    ghost use Rattle.std.specs.Prelude.{◌≡◌};
    ghost use Rattle.recorders.specs.Sinks.{Sender, lists_sent};

    ghost Value = { Sender };

    ghost view = { λ s. record { queue = s.pass.queue; port = s.pass.port; sent = lists_sent s.pass.sent; kept = s.kept.items } };

    ghost invariant = { λ s. s.pass.queue ≡ s.ports.now.queue };
}

impl<'a, A: Allocator, R: Wait, G: Gate> ListSink<CommandList<A>> for ListSender<'a, A, R, G> {
    ghost use Rattle.std.specs.Prelude.{◌≡◌, ◌++◌, ◌∷◌, [], OnOk, OnErr};
    ghost use Rattle.recorders.specs.Sinks.{sender_lists, sender_way};

    ghost put_lists = { sender_lists };

    ghost way = { sender_way };

    fn put(&mut self, recorded: Recorded<CommandList<A>>) -> Result<(), AllocError>
        ensures way { sender_way self.new ≡ sender_way self.old }
        ensures ok { OnOk result (sender_lists self.new ≡ sender_lists self.old ++ recorded ∷ []) }
        ensures err { OnErr result (sender_lists self.new ≡ sender_lists self.old) }
    {
        if !self.kept.is_empty() {
            self.kept.push(recorded)?;
            return Ok(());
        }
        self.gate.before_submit(self.pass.port(), self.pass.sent());
        if let Err((_, back)) = self.ports.submit(self.rt, &mut self.pass, recorded) {
            self.kept.push(back)?;
        }
        Ok(())
    }
}
