//! What a crew's threads are offered: parts of a run.
//!
//! An offer has all that its thread needs: a seat of the shared board, and a pass to the queue by which the seat comes back.

ghost use Rattle.std.specs.Prelude.{◌≡◌, Some, None, true, false, is_some, IfSome, IfNone};
ghost use Rattle.std.specs.Arc.{arc_value};
ghost use Rattle.crossbeam_queue.specs.Passes.{view, IsPassOf};
ghost use Rattle.board.specs.declared.view.Hand.TheVariants.{Empty};
ghost use Rattle.board.specs.Known.{IsSeatOf};
ghost use Rattle.workers.specs.Crewing.{IsTied, Knows};

use crate::draining::drain;
use crate::gates::Gate;
use crate::mailbox::Mailbox;
use crate::part::Part;
use crate::returns::{ReturnQueue, Returns, Same, SeatReturn};
use board::{Board, Seat};
use crossbeam_queue::Pass;
use std::alloc::Allocator;
use std::marker::{Model, PhantomData};
use std::snapshot::Snapshot;
use std::sync::{Arc, Wait};
use tilecore::TileJob;

/// The right to push to, and to pop from, the queue by which seats come back, with what its holder knows of it.
pub(crate) type ReturnPass<J> = Pass<SeatReturn<J>, Option<Seat<J>>>;

// What the threads of a run share: its board and job, and the queue by which seats come back.
#[derive(Drop)]
pub(crate) struct SharedRun<'a, J: TileJob + Drop, A: Allocator> {
    pub(crate) board: Board<'a, J, A>,
    pub(crate) job: J,
    pub(crate) queue: ReturnQueue<J, &'a A>,
}

// A part of a run, for the worker that it is offered to and those behind it.
#[derive(Drop)]
pub(crate) struct Offer<'a, J: TileJob + Drop, A: Allocator> {
    run: Arc<SharedRun<'a, J, A>, &'a A>,
    pass: ReturnPass<J>,
    part: Part<J>,
    // that the allocator outlives its loan
    loan: PhantomData<&'a A>,
}

impl<'a, J: TileJob + Drop, A: Allocator> Model for Offer<'a, J, A> {
    ghost use Rattle.std.specs.Prelude.{false};
    ghost use Rattle.std.specs.Arc.{arc_value};
    ghost use Rattle.crossbeam_queue.specs.Passes.{view as knows, IsPassOf};
    ghost use Rattle.workers.specs.Crewing.{IsTied, Knows};

    ghost Value = { Unit {0} };

    ghost view = { λ _. tt };

    ghost invariant = { λ o. IsTied false J.tile_count (arc_value o.run).board (arc_value o.run).job o.part.seat
        × IsPassOf (arc_value o.run).queue o.pass × Knows (arc_value o.run).board (knows o.pass) };
}

// A seat, as the queue takes it.
fn return_of<J: TileJob>(seat: Seat<J>) -> SeatReturn<J>
    ensures { result.seat ≡ Some seat }
{
    let like = Snapshot::of(&seat);
    SeatReturn {
        seat: Some(seat),
        like,
    }
}

// Puts a seat into the queue of its run, which has room for one of each thread.
fn push_return<'a, J: TileJob + Drop, A: Allocator, R: Wait>(
    rt: &R,
    run: &SharedRun<'a, J, A>,
    pass: &mut ReturnPass<J>,
    returned: SeatReturn<J>,
) -> bool
    requires own { IfSome returned.seat (λ s. IsSeatOf run.now.board s × (s.view.hand ≡ Empty)) }
    requires whole { is_some returned.seat ≡ true }
    requires pass { IsPassOf run.now.queue pass.old × Knows run.now.board (view pass.old) }
{
    match run.queue.push_as::<Returns, R>(rt, pass, returned) {
        Ok(()) => true,
        Err(_) => false,
    }
}

// Gives a seat back, by the queue of its run.
fn hand_back<'a, J: TileJob + Drop, A: Allocator, R: Wait>(
    rt: &R,
    run: &SharedRun<'a, J, A>,
    pass: ReturnPass<J>,
    seat: Seat<J>,
)
    requires own { IsSeatOf run.now.board seat × (seat.view.hand ≡ Empty) }
    requires pass { IsPassOf run.now.queue pass × Knows run.now.board (view pass) }
{
    let mut pass = pass;
    push_return(rt, run, &mut pass, return_of(seat));
}

// One more owner of a run, where there can be one.
fn another_owner<'a, J: TileJob + Drop, A: Allocator>(
    run: &Arc<SharedRun<'a, J, A>, &'a A>,
) -> Option<Arc<SharedRun<'a, J, A>, &'a A>>
    ensures { IfSome result (λ r. arc_value r ≡ arc_value run.now) }
{
    match Arc::try_clone(run) {
        Ok(run) => Some(run),
        Err(_) => None,
    }
}

// The offer of a part.
fn make_offer<'a, J: TileJob + Drop, A: Allocator>(
    run: Arc<SharedRun<'a, J, A>, &'a A>,
    pass: &mut ReturnPass<J>,
    part: Part<J>,
) -> Offer<'a, J, A>
    requires tied { IsTied false J.tile_count (arc_value run).board (arc_value run).job part.seat }
    requires pass { IsPassOf (arc_value run).queue pass.old × Knows (arc_value run).board (view pass.old) }
    ensures pass { IsPassOf (arc_value run.entry).queue pass.new × (view pass.new ≡ view pass.old) }
{
    let given = run.queue.another::<Same>(pass);
    Offer {
        run,
        pass: given,
        part,
        loan: PhantomData,
    }
}

// Puts the offer of a part into a mailbox, and says whether its thread sleeps. Where the run can't be shared once more, the
// seat is let go.
fn put_offer<'a, J: TileJob + Drop, A: Allocator, R: Wait>(
    rt: &R,
    mailbox: &Mailbox<'a, Offer<'a, J, A>>,
    run: Option<Arc<SharedRun<'a, J, A>, &'a A>>,
    pass: &mut ReturnPass<J>,
    part: Part<J>,
) -> bool
    requires tied { IfSome run (λ r. IsTied false J.tile_count (arc_value r).board (arc_value r).job part.seat) }
    requires pass { IfSome run (λ r. IsPassOf (arc_value r).queue pass.old × Knows (arc_value r).board (view pass.old)) }
    ensures pass { IfSome run.entry (λ r. IsPassOf (arc_value r).queue pass.new) × (view pass.new ≡ view pass.old) }
    ensures none { IfNone run.entry (pass.new ≡ pass.old) }
{
    match run {
        Some(run) => mailbox.put(rt, make_offer(run, pass, part)),
        None => false,
    }
}

/// Offers what of a part is for others: to the first of the mailboxes for a group of workers, with half of the seat's weight, and to
/// those behind this group. The seat of one is left. It wakes the threads that it offers to.
pub(crate) fn offer_parts<'a, J: TileJob + Drop, A: Allocator, R: Wait>(
    rt: &R,
    mailboxes: &[Mailbox<'a, Offer<'a, J, A>>],
    run: &Arc<SharedRun<'a, J, A>, &'a A>,
    pass: &mut ReturnPass<J>,
    part: Part<J>,
) -> Seat<J>
    requires tied { IsTied false J.tile_count (arc_value run.now).board (arc_value run.now).job part.seat }
    requires pass { IsPassOf (arc_value run.now).queue pass.old × Knows (arc_value run.now).board (view pass.old) }
    ensures tied { IsTied false J.tile_count (arc_value run.now).board (arc_value run.now).job result }
    ensures same { result.view.placed ≡ part.seat.view.placed }
    ensures pass { IsPassOf (arc_value run.now).queue pass.new × (view pass.new ≡ view pass.old) }
{
    let others = part.others();
    let Part {
        seat,
        weight,
        workers,
        ..
    } = part;
    let Some(mailbox) = mailboxes.first() else {
        return seat;
    };
    if others == 0 {
        return seat;
    }
    let far = weight / 2;
    let group = others.min(far);
    let (near_seat, far_seat) = run.board.split(seat);
    let offered = Part::new(far_seat, far, group);
    let asleep = put_offer(rt, mailbox, another_owner(run), pass, offered);
    let behind = from_place(mailboxes, group);
    let rest = Part::new(near_seat, weight - far, workers - group);
    let seat = offer_parts(rt, behind, run, pass, rest);
    if asleep {
        mailbox.bell().ring();
    }
    seat
}

/// The mailboxes from a place on.
pub(crate) fn from_place<'m, 'a, T: Drop>(
    mailboxes: &'m [Mailbox<'a, T>],
    place: u32,
) -> &'m [Mailbox<'a, T>] {
    let place = (place as usize).min(mailboxes.len());
    &mailboxes[place..]
}

/// A thread's part of a run: it offers on what is for the others of its group, and takes tiles until none is left.
pub(crate) fn work<'a, J: TileJob + Drop, A: Allocator, G: Gate, R: Wait>(
    rt: &R,
    mailboxes: &[Mailbox<'a, Offer<'a, J, A>>],
    offer: Offer<'a, J, A>,
    worker: u32,
    gate: &G,
) {
    let Offer {
        run,
        mut pass,
        part,
        loan: _,
    } = offer;
    let behind = from_place(mailboxes, 1);
    let seat = offer_parts(rt, behind, &run, &mut pass, part);
    let all: &SharedRun<'a, J, A> = &run;
    let seat = drain(&all.board, seat, &all.job, worker, gate);
    hand_back(rt, all, pass, seat);
}
