//! The board, and its calls.

ghost use Rattle.std.specs.Prelude.{◌≡◌};
ghost use Rattle.board.specs.Rule.{marks};

use crate::finished::Finished;
use crate::plays::{
    Adds, Claims, Halves, HandsIn, Looks, Merges, OpensPlace, Places, Reads, Swaps,
};
use crate::seat::{Inner, Seat};
use crate::view::{Tile, View};
use atomic_table::{Table, TableRule};
use gfxspec::GfxError;
use std::alloc::Allocator;
use std::marker::Model;
use std::snapshot::Snapshot;
use tilecore::TileJob;

/// What a table of a board keeps between any two steps. No value of it is made.
pub struct Keeping;

/// What the table of a board is made for: the job, and whether its tiles are claimed by number.
#[derive(Drop)]
pub struct About<J> {
    job: Snapshot<J>,
    named: bool,
}

impl<J: TileJob> TableRule<Option<Tile<J::Open, J::Done>>, View<J, J::Open, J::Done>, About<J>>
    for Keeping {
    ghost use Rattle.board.specs.Views.{first_view};
    ghost use Rattle.board.specs.Rule.{Kept, work};

    ghost holds = { λ a. Kept (work a.job.value (J.tile_count a.job.value) (J.issue_count a.job.value) J.done_count
        (J.gives a.job.value) a.named) };

    ghost first = { λ a. first_view a.job.value (J.tile_count a.job.value) (J.issue_count a.job.value) };
}

// How many words a board has for its tiles.
fn mark_count(named: bool, tiles: u32) -> u32
    ensures { result ≡ marks named tiles }
{
    if named { tiles } else { 0 }
}

/// Numbered tiles of a job, which seats place, claim, and hand in done.
#[derive(Drop)]
pub struct Board<'a, J: TileJob, A: Allocator> {
    pub(crate) table: Table<
        Option<Tile<J::Open, J::Done>>,
        View<J, J::Open, J::Done>,
        About<J>,
        Keeping,
        &'a A,
    >,
    pub(crate) tiles: u32,
    pub(crate) issues: u32,
    pub(crate) alloc: &'a A,
}

impl<'a, J: TileJob, A: Allocator> Model for Board<'a, J, A> {
    ghost use Rattle.board.specs.Known.{KnownBoard, known_board};
    ghost use Rattle.std.specs.Prelude.{◌≡◌, ◌+◌};
    ghost use Rattle.board.specs.Rule.{marks};

    ghost Value = { KnownBoard J };

    ghost view = { λ b. known_board b.table.shared.table_id b.table.shared.key.job.value b.table.shared.key.named };

    ghost invariant = { λ b. (b.tiles ≡ J.tile_count b.table.shared.key.job.value)
        × (b.issues ≡ J.issue_count b.table.shared.key.job.value)
        × (b.table.shared.table_id.slots ≡ b.tiles)
        × (b.table.shared.table_id.words ≡ b.issues + 2 + marks b.table.shared.key.named b.tiles) };
}

impl<'a, J: TileJob, A: Allocator> Board<'a, J, A> {
    ghost use Rattle.std.specs.Prelude.{◌≡◌, ◌≢◌, ◌<◌, ◌≤◌, ◌++◌, ◌∷◌, [], ◌+◌, length, true, false, IfOk, IfErr, IfSome, IfNone, slice_set, slice_index_or, replicate, All, ℕ};
    ghost use Rattle.std.specs.List.{AllZip};
    ghost use mathlib.Core.Option.{some};
    ghost use lib.ListN.{get_elem?};
    ghost use Rattle.gfxspec.specs.declared.error.GfxError.TheVariants.{OutOfMemory, Unfinished};
    ghost use Rattle.tilecore.specs.Schedule.{total};
    ghost use Rattle.board.specs.declared.view.Hand.TheVariants.{Empty, Placing, Holding};
    ghost use Rattle.board.specs.Known.{Known, IsSeatOf, AreNew};
    ghost use Rattle.board.specs.Views.{handed, handed_view, share_of, left_half, right_half, both_views, answered_view, swapped_view, KnowsEach};

    // An empty board, and its first seat.
    fn made(alloc: &'a A, job: &J, named: bool) -> Result<(Board<'a, J, A>, Seat<J>), GfxError>
        ensures ok { IfOk result (λ b. AreNew J.tile_count J.issue_count job.now named b.0 b.1) }
        ensures err { IfErr result (λ e. e ≡ OutOfMemory) }
    {
        let tiles = job.tiles();
        let issues = job.issues();
        let marks = mark_count(named, tiles);
        let words = Vec::from_elem(alloc, 0u64, issues as usize + 2 + marks as usize)?;
        let about = About {
            job: Snapshot::of(job),
            named,
        };
        let (table, inner) = Table::vacant(alloc, words.as_slice(), tiles as usize, &about)?;
        let board = Board {
            table,
            tiles,
            issues,
            alloc,
        };
        let seat = Seat {
            inner,
            handed: 0,
            met_none: false,
        };
        Ok((board, seat))
    }

    /// An empty board, whose tiles are claimed in order, and its first seat.
    pub fn new(alloc: &'a A, job: &J) -> Result<(Board<'a, J, A>, Seat<J>), GfxError>
        ensures ok { IfOk result (λ b. AreNew J.tile_count J.issue_count job.now false b.0 b.1) }
        ensures err { IfErr result (λ e. e ≡ OutOfMemory) }
    {
        Board::made(alloc, job, false)
    }

    /// An empty board, whose tiles are claimed by number, and its first seat.
    pub fn new_named(alloc: &'a A, job: &J) -> Result<(Board<'a, J, A>, Seat<J>), GfxError>
        ensures ok { IfOk result (λ b. AreNew J.tile_count J.issue_count job.now true b.0 b.1) }
        ensures err { IfErr result (λ e. e ≡ OutOfMemory) }
    {
        Board::made(alloc, job, true)
    }

    /// What the board has its memory from.
    pub fn allocator(&self) -> &'a A {
        self.alloc
    }

    /// Puts the next tile on the board. Only the first seat may, before it is split.
    pub fn place(&self, seat: &mut Seat<J>, tile: J::Open)
        requires own { IsSeatOf self.now seat.old }
        requires first { (seat.old.view.weight ≡ 16) × (seat.old.view.hand ≡ Empty) }
        requires next { (J.tile_number tile ≡ length seat.old.view.placed) × J.fits self.now.job tile }
        ensures own { IsSeatOf self.now seat.new }
        ensures placed { seat.new.view ≡ record seat.old.view { placed = seat.old.view.placed ++ tile ∷ [] } }
    {
        let number = J::number(&tile) as usize;
        let shared = &self.table.shared;
        shared.load::<OpensPlace>(&mut seat.inner, 0);
        match shared.exchange(&mut seat.inner, number, Some(Tile::Open(tile))) {
            None => {}
            Some(_) => unreachable!(),
        }
        shared.load::<Places>(&mut seat.inner, 0);
    }

    /// Takes the next tile, or none where the claims have reached the number of tiles. The seat knows that from then
    /// on, and answers none without a step.
    pub fn claim(&self, seat: &mut Seat<J>) -> Option<J::Open>
        requires own { IsSeatOf self.now seat.old }
        requires ordered { self.now.named ≡ false }
        requires ready { (length seat.old.view.placed ≡ J.tile_count self.now.job) × (seat.old.view.hand ≡ Empty) }
        ensures own { IsSeatOf self.now seat.new }
        ensures some { IfSome result (λ tile. (get_elem? seat.old.view.placed (J.tile_number tile) ≡ some tile)
            × J.fits self.now.job tile
            × (seat.new.view ≡ record seat.old.view { hand = Holding (J.tile_number tile) tile })) }
        ensures none { IfNone result (seat.new.view ≡ record seat.old.view { met_none = true }) }
        ensures all { IfNone result (seat.old.view.weight ≡ 16 → handed seat.new.view ≡ J.tile_count self.now.job) }
    {
        if seat.met_none {
            return None;
        }
        let shared = &self.table.shared;
        let number = shared.fetch_add::<Claims>(&mut seat.inner, 0, 1);
        if number >= u64::from(self.tiles) {
            seat.met_none = true;
            return None;
        }
        match shared.exchange(&mut seat.inner, number as usize, None) {
            Some(Tile::Open(tile)) => Some(tile),
            _ => unreachable!(),
        }
    }

    /// Takes the tile of that number, or none where it had been claimed before.
    pub fn claim_number(&self, seat: &mut Seat<J>, number: u32) -> Option<J::Open>
        requires own { IsSeatOf self.now seat.old }
        requires named { self.now.named ≡ true }
        requires ready { (length seat.old.view.placed ≡ J.tile_count self.now.job) × (seat.old.view.hand ≡ Empty) }
        requires in_range { number < J.tile_count self.now.job }
        ensures own { IsSeatOf self.now seat.new }
        ensures some { IfSome result (λ tile. (get_elem? seat.old.view.placed number ≡ some tile)
            × (J.tile_number tile ≡ number) × J.fits self.now.job tile
            × (seat.new.view ≡ record (swapped_view seat.old.view number) { hand = Holding number tile })) }
        ensures none { IfNone result (seat.new.view ≡ swapped_view seat.old.view number) }
    {
        let shared = &self.table.shared;
        let place = number as usize;
        let word = self.issues as usize + 2 + place;
        if shared.swap::<Swaps>(&mut seat.inner, word, 1) != 0 {
            return None;
        }
        match shared.exchange(&mut seat.inner, place, None) {
            Some(Tile::Open(tile)) => Some(tile),
            Some(Tile::Done(_)) => unreachable!(),
            None => unreachable!(),
        }
    }

    /// Whether the seat's share has all tiles. It does where the seat has all the weight, has nothing in its hands,
    /// and knows that each tile was claimed.
    pub fn has_all(&self, seat: &Seat<J>) -> bool
        requires { IsSeatOf self.now seat.now }
        ensures all { result ≡ true → handed seat.now.view ≡ J.tile_count self.now.job }
        ensures not_all { result ≡ false → handed seat.now.view ≢ J.tile_count self.now.job }
        ensures known { seat.now.view.weight ≡ 16 → KnowsEach seat.now.view (J.tile_count self.now.job)
            → seat.now.view.hand ≡ Empty → handed seat.now.view ≡ J.tile_count self.now.job }
    {
        seat.handed == self.tiles
    }

    // Adds the counts of a result to the count words.
    fn add_counts(&self, inner: &mut Inner<J>, done: &J::Done)
        requires own { (inner.old.table_id ≡ self.now.board) × (inner.old.me.0.job ≡ Some self.now.job) }
        requires holding { (n : ℕ) × (o : J.Open) × (inner.old.me.0.hand ≡ Holding n o) × J.gives self.now.job o done.now }
        requires nothing { inner.old.me.0.added ≡ replicate (J.issue_count self.now.job) 0 }
        ensures own { (inner.new.table_id ≡ inner.old.table_id) × (inner.new.id ≡ inner.old.id) }
        ensures added { inner.new.me ≡ (record inner.old.me.0 { added = inner.new.me.0.added }, inner.old.me.1) }
        ensures counts { (length inner.new.me.0.added ≡ J.issue_count self.now.job)
            × ((i : ℕ) → i < J.issue_count self.now.job
            → slice_index_or inner.new.me.0.added i 0 ≡ J.done_count done.now i) }
    {
        for issue in 0..self.issues {
            let amount = J::count(done, issue);
            if amount > 0 {
                self.table
                    .shared
                    .fetch_add::<Adds>(inner, issue as usize + 2, amount);
            }
        }
    }

    /// Gives a tile back done. Its counts go to the count words first.
    pub fn hand_in(&self, seat: &mut Seat<J>, done: J::Done)
        requires own { IsSeatOf self.now seat.old }
        requires holding { (n : ℕ) × (o : J.Open) × (seat.old.view.hand ≡ Holding n o) × J.gives self.now.job o done }
        ensures own { IsSeatOf self.now seat.new }
        ensures handed { seat.new.view ≡ handed_view seat.old.view (J.done_number done) done }
        ensures counted { (handed seat.new.view ≡ handed seat.old.view + 1)
            × (handed seat.new.view ≤ J.tile_count self.now.job) }
    {
        let number = J::number_done(&done) as usize;
        self.add_counts(&mut seat.inner, &done);
        let shared = &self.table.shared;
        match shared.exchange(&mut seat.inner, number, Some(Tile::Done(done))) {
            None => {}
            Some(_) => unreachable!(),
        }
        shared.fetch_add::<HandsIn>(&mut seat.inner, 1, 1);
        seat.handed += 1;
    }

    /// What the count of an issue is at one moment of the call.
    pub fn count_so_far(&self, seat: &mut Seat<J>, issue: u32) -> u64
        requires own { IsSeatOf self.now seat.old }
        requires issue { issue < J.issue_count self.now.job }
        ensures own { IsSeatOf self.now seat.new }
        ensures answered { seat.new.view ≡ answered_view seat.old.view issue result }
        ensures share { share_of J.done_count issue seat.old.view ≤ result }
        ensures answers { All (λ x. x ≤ result) (slice_index_or seat.old.view.answers issue []) }
    {
        let shared = &self.table.shared;
        shared.load::<Reads<J>>(&mut seat.inner, issue as usize + 2)
    }

    /// Two seats of one. The share stays with the first, and both know what the seat knew.
    pub fn split(&self, mut seat: Seat<J>) -> (Seat<J>, Seat<J>)
        requires own { IsSeatOf self.now seat }
        requires ready { (length seat.view.placed ≡ J.tile_count self.now.job) × (seat.view.hand ≡ Empty)
            × (2 ≤ seat.view.weight) }
        ensures own { IsSeatOf self.now result.0 × IsSeatOf self.now result.1 }
        ensures halves { (result.0.view ≡ left_half seat.view) × (result.1.view ≡ right_half seat.view) }
    {
        let inner = self.table.shared.split_seat::<Halves>(&mut seat.inner);
        let other = Seat {
            inner,
            handed: 0,
            met_none: seat.met_none,
        };
        (seat, other)
    }

    /// One seat of two, with both shares, which knows what both knew.
    pub fn join(&self, mut seat: Seat<J>, other: Seat<J>) -> Seat<J>
        requires own { IsSeatOf self.now seat × IsSeatOf self.now other }
        requires ready { (seat.view.hand ≡ Empty) × (other.view.hand ≡ Empty) }
        ensures own { IsSeatOf self.now result }
        ensures both { result.view ≡ both_views seat.view other.view }
        ensures all { result.view.weight ≡ 16 → result.view.met_none ≡ true
            → handed result.view ≡ J.tile_count self.now.job }
    {
        let Seat {
            inner,
            handed,
            met_none,
        } = other;
        let shared = &self.table.shared;
        shared.join_seat::<Merges>(&mut seat.inner, inner);
        shared.load::<Looks>(&mut seat.inner, 0);
        seat.handed += handed;
        seat.met_none = seat.met_none || met_none;
        seat
    }

    /// The results, where the seat's share has all tiles. Otherwise refused as unfinished, and board and seat come
    /// back.
    pub fn close(
        self,
        seat: Seat<J>,
    ) -> Result<Finished<'a, J, A>, (GfxError, Board<'a, J, A>, Seat<J>)>
        requires { IsSeatOf self seat }
        ensures ok { IfOk result (λ f. (handed seat.view ≡ J.tile_count self.entry.job) × (f.next ≡ 0)
            × AllZip (J.gives self.entry.job) seat.view.placed f.results) }
        ensures counts { IfOk result (λ f. (length f.counts ≡ J.issue_count self.entry.job)
            × ((i : ℕ) → i < J.issue_count self.entry.job
            → slice_index_or f.counts i 0 ≡ total (λ d. J.done_count d i) f.results)) }
        ensures answers { IfOk result (λ f. (i : ℕ) → i < J.issue_count self.entry.job
            → All (λ x. x ≤ slice_index_or f.counts i 0) (slice_index_or seat.view.answers i [])) }
        ensures err { IfErr result (λ e. (handed seat.view ≢ J.tile_count self.entry.job) × (e.0 ≡ Unfinished)
            × (e.1 ≡ self.entry) × (e.2 ≡ seat)) }
    {
        if seat.handed != self.tiles {
            return Err((GfxError::Unfinished, self, seat));
        }
        let Board {
            table,
            tiles: _,
            issues,
            alloc: _,
        } = self;
        let Seat {
            inner,
            handed: _,
            met_none: _,
        } = seat;
        let closed = table.close_with(inner);
        Ok(Finished {
            closed,
            next: 0,
            issues,
        })
    }
}
