//! The passes of the ports, and of the thread that takes out.

use crate::rule::View;
use crate::submission::Submission;
use crossbeam_queue::Pass;
use std::marker::Model;

/// The right to send through one port.
#[derive(Drop)]
pub struct PortPass<L> {
    pub(crate) inner: Pass<Submission<L>, View<L>>,
    pub(crate) port: u32,
    pub(crate) sent: u64,
}

impl<L> Model for PortPass<L> {
    ghost use Rattle.port.specs.History.{PortHistory, port_history};
    ghost use Rattle.port.specs.Rule.{PortKeeps};

    ghost Value = { PortHistory L };

    ghost view = { λ p. port_history p.inner.table_id p.port p.inner.me.0.client.put };

    ghost invariant = { λ p. PortKeeps p.inner.me.1 p.inner.me.0.client p.port p.sent };
}

impl<L> PortPass<L> {
    ghost use Rattle.std.specs.Prelude.{◌≡◌, length};

    /// The number of its port, 0 to 3.
    pub fn port(&self) -> u32
        ensures { result ≡ self.now.port }
    {
        self.port
    }

    /// How many lists it has sent, which is the number of its next submission.
    pub fn sent(&self) -> u64
        ensures { result ≡ length self.now.sent }
    {
        self.sent
    }
}

/// The right to take out.
#[derive(Drop)]
pub struct DrainPass<L> {
    pub(crate) inner: Pass<Submission<L>, View<L>>,
    pub(crate) taken: [u64; 4],
}

impl<L> Model for DrainPass<L> {
    ghost use Rattle.port.specs.History.{DrainHistory, drain_history};
    ghost use Rattle.port.specs.Rule.{DrainKeeps};

    ghost Value = { DrainHistory L };

    ghost view = { λ p. drain_history p.inner.table_id p.inner.me.0.client.taken };

    ghost invariant = { λ p. DrainKeeps p.inner.me.1 p.inner.me.0.client p.taken };
}
