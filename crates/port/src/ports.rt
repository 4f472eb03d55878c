//! The ports and their queue.

ghost use Rattle.std.specs.Prelude.{◌≡◌, [], ◌∷◌};

use crate::pass::{DrainPass, PortPass};
use crate::rule::{Makes, Queue, Sends, Takes, Total};
use crate::submission::Submission;
use gfxspec::GfxError;
use std::alloc::Allocator;
use std::marker::Model;
use std::sync::Wait;

/// How many submissions wait at most.
const ROOM: usize = 64;

/// How many lists a port sends at most.
const MOST: u64 = 1 << 32;

pub(crate) fn apart<T>(row: [T; 4]) -> (T, T, T, T)
    ensures { row ≡ result.0 ∷ result.1 ∷ result.2 ∷ result.3 ∷ [] }
{
    let [zero, one, two, three] = row;
    (zero, one, two, three)
}

/// Four ports and the queue behind them, to be shared by reference. Passes are used with the ports that made them.
#[derive(Drop)]
pub struct Ports<L: Drop, A: Allocator> {
    pub(crate) queue: Queue<L, A>,
}

impl<L: Drop, A: Allocator> Model for Ports<L, A> {
    ghost use Rattle.std.specs.Prelude.{◌≡◌};
    ghost use Rattle.port.specs.History.{PortsOf, ports_of};

    ghost Value = { PortsOf };

    ghost view = { λ p. ports_of p.queue.table.shared.table_id };

    ghost invariant = { λ p. p.queue.cap ≡ 64 };
}

impl<L: Drop, A: Allocator + Clone> Ports<L, A> {
    ghost use Rattle.std.specs.Prelude.{◌≡◌, [], ◌∷◌, MatchResult};
    ghost use Rattle.gfxspec.specs.declared.error.GfxError.TheVariants.{OutOfMemory};
    ghost use Rattle.port.specs.History.{port_history, drain_history};

    /// Four ports with their passes, port 0 first, and the pass that takes out: nothing is sent, and nothing taken. Takes
    /// the memory of the queue, and refuses for want of it alone (1).
    pub fn new(alloc: A) -> Result<(Ports<L, A>, [PortPass<L>; 4], DrainPass<L>), GfxError>
        ensures { MatchResult result
            (λ made. (made.1 ≡ port_history made.0.queue 0 [] ∷ port_history made.0.queue 1 [] ∷ port_history made.0.queue 2 [] ∷ port_history made.0.queue 3 [] ∷ [])
            × (made.2 ≡ drain_history made.0.queue []))
            (λ e. e ≡ OutOfMemory) }
    {
        let (queue, mut pass) = Queue::<L, A>::ruled(alloc, ROOM)?;
        let zero = queue.another::<Makes>(&mut pass);
        let one = queue.another::<Makes>(&mut pass);
        let two = queue.another::<Makes>(&mut pass);
        let three = queue.another::<Makes>(&mut pass);
        let passes = [
            PortPass {
                inner: zero,
                port: 0,
                sent: 0,
            },
            PortPass {
                inner: one,
                port: 1,
                sent: 0,
            },
            PortPass {
                inner: two,
                port: 2,
                sent: 0,
            },
            PortPass {
                inner: three,
                port: 3,
                sent: 0,
            },
        ];
        let drain = DrainPass {
            inner: pass,
            taken: [0, 0, 0, 0],
        };
        Ok((Ports { queue }, passes, drain))
    }
}

impl<L: Drop, A: Allocator> Ports<L, A> {
    ghost use Rattle.std.specs.Prelude.{◌≡◌, ◌^◌, ◌<◌, ◌++◌, ◌⊎◌, List, [], ◌∷◌, length, MatchResult, MatchOption};
    ghost use Rattle.crossbeam_queue.specs.Fifo.{Held};
    ghost use Rattle.gfxspec.specs.declared.error.GfxError.TheVariants.{Unfinished, PortFull};
    ghost use Rattle.port.specs.declared.submission.Submission.{Submission};
    ghost use Rattle.port.specs.History.{of_port, submission, port_history, drain_history, AreAll, lengths_of, AllTaken, SomeLeft};
    ghost use Rattle.port.specs.Rule.{port_view, drain_view, Moment};

    /// Hands a list over. It comes back with refusal 19 where the pass has sent 2^32 lists, or where the queue is full; that it
    /// held 64 at a moment of the call is tested, and the contract says that such a queue fits what the pass sent.
    pub fn submit<R: Wait>(
        &self,
        rt: &R,
        pass: &mut PortPass<L>,
        list: L,
    ) -> Result<(), (GfxError, L)>
        requires { pass.old.queue ≡ self.now.queue }
        ensures { MatchResult result
            (λ _. pass.new ≡ port_history pass.old.queue pass.old.port (pass.old.sent ++ submission pass.old.port (length pass.old.sent) list ∷ []))
            (λ e. (e.0 ≡ PortFull) × (e.1 ≡ list) × (pass.new ≡ pass.old)
            × ((length pass.old.sent ≡ 2 ^ 32) ⊎ Held 64 (Moment (port_view pass.old.port pass.old.sent)))) }
    {
        if pass.sent >= MOST {
            return Err((GfxError::PortFull, list));
        }
        let next = Submission {
            port: pass.port,
            number: pass.sent,
            list,
        };
        match self.queue.push_as::<Sends, R>(rt, &mut pass.inner, next) {
            Ok(()) => {
                pass.sent += 1;
                Ok(())
            }
            Err(back) => Err((GfxError::PortFull, back.list)),
        }
    }

    /// Takes the oldest submission out: the next of its port. `None` comes where the queue is empty; that it was so at a
    /// moment of the call is tested, and the contract says that an empty queue fits what the pass took.
    pub fn next<R: Wait>(&self, rt: &R, pass: &mut DrainPass<L>) -> Option<Submission<L>>
        requires { pass.old.queue ≡ self.now.queue }
        ensures { MatchOption result
            ((pass.new ≡ pass.old) × Held 0 (Moment (drain_view pass.old.taken 4 [])))
            (λ s. (s.port < 4) × (s.number ≡ length (of_port s.port pass.old.taken))
            × (pass.new ≡ drain_history pass.old.queue (pass.old.taken ++ s ∷ []))) }
    {
        let oldest = self.queue.pop_as::<Takes, R>(rt, &mut pass.inner)?;
        pass.taken[oldest.port as usize] = oldest.number + 1;
        Some(oldest)
    }

    /// Ends the ports where all that was sent is taken, and tells how many lists each sent; of each port, what was taken is
    /// then what was sent: whole, once and in order. Else all parts come back with refusal 18.
    pub fn settle(
        self,
        passes: [PortPass<L>; 4],
        drain: DrainPass<L>,
    ) -> Result<[u64; 4], (GfxError, Ports<L, A>, [PortPass<L>; 4], DrainPass<L>)>
        requires passes { AreAll self.queue passes }
        requires drain { drain.queue ≡ self.queue }
        ensures { MatchResult result
            (λ counts. (counts ≡ lengths_of passes) × AllTaken passes drain.taken)
            (λ e. (e.0 ≡ Unfinished) × (e.1 ≡ self) × (e.2 ≡ passes) × (e.3 ≡ drain) × SomeLeft passes drain.taken) }
    {
        let (zero, one, two, three) = apart(passes);
        let counts = [zero.sent, one.sent, two.sent, three.sent];
        if counts != drain.taken {
            return Err((GfxError::Unfinished, self, [zero, one, two, three], drain));
        }
        let Ports { queue } = self;
        let DrainPass {
            inner: mut pass,
            ..
        } = drain;
        let PortPass { inner: zero, .. } = zero;
        let PortPass { inner: one, .. } = one;
        let PortPass { inner: two, .. } = two;
        let PortPass { inner: three, .. } = three;
        queue.absorb::<Makes>(&mut pass, zero);
        queue.absorb::<Makes>(&mut pass, one);
        queue.absorb::<Makes>(&mut pass, two);
        queue.absorb::<Makes>(&mut pass, three);
        queue.learn_as::<Total>(&mut pass);
        Ok(counts)
    }

    /// Takes out what nobody asked for, until all that was sent is taken, settles the ports, and tells how many lists each
    /// sent. Of each port, what was taken before the call and in it is what was sent.
    pub fn drain_and_settle<R: Wait>(
        self,
        rt: &R,
        passes: [PortPass<L>; 4],
        drain: DrainPass<L>,
    ) -> [u64; 4]
        requires passes { AreAll self.queue passes }
        requires drain { drain.queue ≡ self.queue }
        ensures counts { result ≡ lengths_of passes }
        ensures taken { (rest : List (Submission L)) × AllTaken passes (drain.taken ++ rest) }
    {
        let (mut ports, mut passes, mut drain) = (self, passes, drain);
        for _ in rt.forever() {
            match ports.settle(passes, drain) {
                Ok(sent) => return sent,
                Err(back) => {
                    ports = back.1;
                    passes = back.2;
                    drain = back.3;
                    ports.next(rt, &mut drain);
                }
            }
        }
        unreachable!()
    }
}
