//! The schedule of tiles, as a machine over events.

ghost use Rattle.std.specs.Prelude.{◌≡◌, ◌≢◌, ◌≤◌, ◌<◌, ◌+◌, ◌^◌, ℕ, List, length, map, IfOk, IfErr, IfSome, IfNone, slice_index_or, replicate};
ghost use mathlib.Core.Option.{some};
ghost use lib.ListN.{get_elem?};
ghost use Rattle.gfxspec.specs.declared.error.GfxError.TheVariants.{OutOfMemory};
ghost use Rattle.tilecore.specs.Schedule.{open_tile, nothing, worker, claims, counts, hands_in, start, sums_with, Steps, IsPossible, IsReached, GrowsBy, counted};
ghost use Rattle.tilecore.specs.Meaning.{standing_of, worker_of, happening_of, answer_of};

use arrayvec::ArrayVec;
use gfxspec::GfxError;
use std::alloc::{AllocError, Allocator};
use std::marker::Model;

/// What a worker asks for. Workers and issues are numbered from 0.
#[derive(Drop)]
pub enum Event {
    /// A tile.
    Claim {
        worker: u32,
    },
    /// To add an amount to an issue, for the tile in its hands.
    Count {
        worker: u32,
        issue: u32,
        amount: u64,
    },
    /// To hand in the tile, with what it added for each issue.
    HandIn {
        worker: u32,
        counts: ArrayVec<u64, 64>,
    },
}

/// What the machine answers.
#[derive(Debug, Copy, Clone, PartialEq, Eq)]
pub enum Reply {
    /// The tile of this number is the worker's now.
    Tile(u32),
    /// No tile is open.
    NoneLeft,
    /// The amount was added.
    Counted,
    /// The tile is done.
    Done,
    /// The worker may not; nothing has changed.
    Refused,
}

/// How a tile stands.
#[derive(Drop)]
enum Place {
    Open,
    WithWorker(u32),
    Finished,
}

/// The tile in a worker's hands, and what it added for it to each issue.
#[derive(Drop)]
struct Crew<A: Allocator> {
    holding: Option<u32>,
    added: Vec<u64, A>,
}

/// Tiles, workers, and the sums of what was handed in.
#[derive(Drop)]
pub struct Core<A: Allocator> {
    tiles: Vec<Place, A>,
    workers: Vec<Crew<A>, A>,
    sums: Vec<u64, A>,
}

impl<A: Allocator> Model for Core<A> {
    ghost use Rattle.std.specs.Prelude.{◌<◌, ◌^◌, length};
    ghost use Rattle.tilecore.specs.Schedule.{Schedule, IsReached};
    ghost use Rattle.tilecore.specs.Meaning.{schedule_of};

    ghost Value = { Schedule };

    ghost view = { λ c. schedule_of c.tiles.items c.workers.items c.sums.items };

    ghost invariant = { λ c. (length c.tiles.items < 2 ^ 32)
        × IsReached (schedule_of c.tiles.items c.workers.items c.sums.items) };
}

// The first tile that is open.
fn first_open(tiles: &[Place]) -> Option<usize>
    ensures some { IfSome result (λ n. get_elem? (map standing_of tiles.now) n ≡ some open_tile) }
    ensures none { IfNone result ((n : ℕ) → get_elem? (map standing_of tiles.now) n ≢ some open_tile) }
{
    for (number, place) in tiles.iter().enumerate() {
        if matches!(place, Place::Open) {
            return Some(number);
        }
    }
    None
}

// Adds counts to sums, issue by issue.
fn add_all<A: Allocator>(sums: &mut Vec<u64, A>, counts: &[u64])
    requires long { length counts.now ≡ length sums.old.items }
    requires fits { (i : ℕ) → i < length sums.old.items
        → slice_index_or sums.old.items i 0 + slice_index_or counts.now i 0 < 2 ^ 64 }
    ensures { sums.new.items ≡ sums_with sums.old.items counts.now }
{
    for i in 0..sums.len() {
        sums[i] += counts[i];
    }
}

// Makes all of them 0.
fn make_zero<A: Allocator>(counts: &mut Vec<u64, A>)
    ensures { counts.new.items ≡ replicate (length counts.old.items) 0 }
{
    for i in 0..counts.len() {
        counts[i] = 0;
    }
}

// A tile for each number, all open.
fn made_places<A: Allocator>(alloc: A, tiles: u32) -> Result<Vec<Place, A>, AllocError>
    ensures { IfOk result (λ v. map standing_of v.items ≡ replicate tiles open_tile) }
{
    let mut places = Vec::with_capacity(alloc, tiles as usize)?;
    for _ in 0..tiles {
        places.push(Place::Open)?;
    }
    Ok(places)
}

// The workers, with nothing in their hands.
fn made_crew<A: Allocator + Copy>(
    alloc: A,
    issues: u32,
    workers: u32,
) -> Result<Vec<Crew<A>, A>, AllocError>
    ensures { IfOk result (λ v. map worker_of v.items ≡ replicate workers (worker nothing (replicate issues 0))) }
{
    let mut crew = Vec::with_capacity(alloc, workers as usize)?;
    for _ in 0..workers {
        let added = Vec::from_elem(alloc, 0u64, issues as usize)?;
        crew.push(Crew {
            holding: None,
            added,
        })?;
    }
    Ok(crew)
}

impl<A: Allocator> Core<A> {
    /// All tiles are open, no worker has one, and nothing is counted.
    pub fn new(alloc: A, tiles: u32, issues: u32, workers: u32) -> Result<Core<A>, GfxError>
    where
        A: Copy,
        requires { workers ≤ 16 }
        ensures start { IfOk result (λ c. c ≡ start tiles issues workers) }
        ensures reached { IfOk result IsReached }
        ensures nothing { IfOk result (λ c. (i : ℕ) → i < issues → counted c i ≡ 0) }
        ensures refused { IfErr result (λ e. e ≡ OutOfMemory) }
    {
        let places = made_places(alloc, tiles)?;
        let crew = made_crew(alloc, issues, workers)?;
        let sums = Vec::from_elem(alloc, 0u64, issues as usize)?;
        Ok(Core {
            tiles: places,
            workers: crew,
            sums,
        })
    }

    // A worker asks for a tile.
    fn claim(&mut self, worker: u32) -> Reply
        requires { IsPossible self.old (claims worker) }
        ensures step { Steps self.old (claims worker) (answer_of result) self.new }
        ensures reached { IsReached self.new }
        ensures was_reached { IsReached self.old }
    {
        if self.workers[worker as usize].holding.is_some() {
            return Reply::Refused;
        }
        match first_open(self.tiles.as_slice()) {
            None => Reply::NoneLeft,
            Some(number) => {
                self.tiles[number] = Place::WithWorker(worker);
                let crew = &mut self.workers[worker as usize];
                crew.holding = Some(number as u32);
                Reply::Tile(number as u32)
            }
        }
    }

    // A worker adds to an issue.
    fn count(&mut self, worker: u32, issue: u32, amount: u64) -> Reply
        requires { IsPossible self.old (counts worker issue amount) }
        ensures step { Steps self.old (counts worker issue amount) (answer_of result) self.new }
        ensures reached { IsReached self.new }
        ensures was_reached { IsReached self.old }
    {
        let crew = &mut self.workers[worker as usize];
        if crew.holding.is_none() {
            return Reply::Refused;
        }
        crew.added[issue as usize] += amount;
        Reply::Counted
    }

    // A worker hands its tile in.
    fn hand_in(&mut self, worker: u32, sums: &[u64]) -> Reply
        requires { IsPossible self.old (hands_in worker sums.now) }
        ensures step { Steps self.old (hands_in worker sums.now) (answer_of result) self.new }
        ensures reached { IsReached self.new }
        ensures was_reached { IsReached self.old }
    {
        let crew = &mut self.workers[worker as usize];
        let Some(number) = crew.holding else {
            return Reply::Refused;
        };
        if crew.added.as_slice() != sums {
            return Reply::Refused;
        }
        crew.holding = None;
        make_zero(&mut crew.added);
        self.tiles[number as usize] = Place::Finished;
        add_all(&mut self.sums, sums);
        Reply::Done
    }

    /// What an event brings about. It takes no memory.
    pub fn apply(&mut self, event: Event) -> Reply
        requires { IsPossible self.old (happening_of event) }
        ensures step { Steps self.old (happening_of event) (answer_of result) self.new }
        ensures reached { IsReached self.new }
        ensures grows { GrowsBy (happening_of event) self.old self.new }
    {
        match event {
            Event::Claim { worker } => self.claim(worker),
            Event::Count {
                worker,
                issue,
                amount,
            } => self.count(worker, issue, amount),
            Event::HandIn { worker, counts } => self.hand_in(worker, counts.as_slice()),
        }
    }
}
